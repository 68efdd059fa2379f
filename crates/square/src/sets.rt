// Sets of ids: three words of 64 bits each.
ghost use Rattle.std.specs.Prelude.{◌≡◌, ◌+◌, ◌<◌, ◌≤◌, length};
ghost use Rattle.square.specs.Inner.Square.{on_line};
ghost use Rattle.square.specs.Inner.Sets.{Inserted};

// Whether y is in the set that starts at that word.
pub fn has(sets: &[u64], at: usize, y: usize) -> bool
    requires y_bound { y < 192 }
    requires at_in_bounds { at + 3 ≤ length sets.now }
    ensures { result ≡ on_line sets.now at y }
{
    (sets[at + y / 64] >> (y % 64)) % 2 == 1
}

pub fn insert(sets: &mut [u64], at: usize, y: usize)
    requires y_bound { y < 192 }
    requires at_in_bounds { at + 3 ≤ length sets.old }
    ensures { Inserted sets.old sets.new at y }
{
    let p = at + y / 64;
    sets[p] = sets[p] | (1 << (y % 64));
}
