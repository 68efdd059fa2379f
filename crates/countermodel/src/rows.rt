// Putting rows of four numbers into a buffer. Each is written only where there is room for it, and the place behind it is answered
// either way, so that a walk over an empty buffer counts. All rows take at most 192 × (1000 + 100 × 192) × 4 = 15,513,600 numbers.
ghost use Rattle.std.specs.Prelude.{[], ◌∷◌, ◌+◌, ◌*◌, ◌≤◌, length};
ghost use Rattle.subsumption.specs.Inner.Atoms.{marked_ids};
ghost use Rattle.countermodel.specs.Inner.Show.{Put, row_for, rows_for};

fn put_row(kind: u16, element: u16, by: u16, last: u16, at: usize, out: &mut [u16]) -> usize
    requires { at ≤ 20000000 }
    ensures { Put out.old at (kind ∷ element ∷ by ∷ last ∷ []) result out.new }
{
    let end = at + 4;
    if out.len() < end {
        return end;
    }
    out[at] = kind;
    out[at + 1] = element;
    out[at + 2] = by;
    out[at + 3] = last;
    end
}

// A mark's row: the element's name, or the one that the role links it to.
fn put_mark(kind: u16, element: u16, role: u16, mark: u16, at: usize, out: &mut [u16]) -> usize
    requires { at ≤ 20000000 }
    ensures { Put out.old at (row_for kind element role mark) result out.new }
{
    if kind == 0 {
        return put_row(0, element, mark, 0, at, out);
    }
    put_row(1, element, role, mark, at, out)
}

// The rows of all marks, rising.
pub fn put_marks(
    marks: &[bool],
    count: usize,
    kind: u16,
    element: u16,
    role: u16,
    at: usize,
    out: &mut [u16],
) -> usize
    requires count_bound { (count ≤ 1000) × (count ≤ length marks.now) }
    requires at_bound { at ≤ 16000000 }
    ensures upper_bound { result ≤ at + count * 4 }
    ensures put { Put out.old at (rows_for kind element role (marked_ids marks.now count)) result out.new }
{
    let mut end = at;
    for q in 0..count {
        if marks[q] {
            end = put_mark(kind, element, role, q as u16, end, out);
        }
    }
    end
}
