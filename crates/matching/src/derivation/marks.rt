// Marks of pairs of ids, row by row, and numbers by their place: what checker and writer share. Private to the crate.
ghost use Rattle.std.specs.Prelude.{◌≡◌, true, ◌+◌, ◌*◌, ◌<◌, length, get_or, set};
ghost use Rattle.matching.specs.Inner.Derivation.{Square, seen};

pub fn number_at(numbers: &[u16], at: usize) -> usize
    requires { at < length numbers.now }
    ensures { result ≡ get_or numbers.now at 0 }
{
    numbers[at] as usize
}

pub fn has_mark(marks: &[bool], count: usize, i: usize, j: usize) -> bool
    requires square { Square count marks.now }
    requires i_lt_count { (i < count) × (j < count) }
    ensures { result ≡ seen count marks.now i j }
{
    marks[i * count + j]
}

pub fn mark_pair(marks: &mut [bool], count: usize, i: usize, j: usize)
    requires square { Square count marks.old }
    requires i_lt_count { (i < count) × (j < count) }
    ensures { marks.new ≡ set marks.old (i * count + j) true }
{
    marks[i * count + j] = true;
}
