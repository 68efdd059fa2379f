// Entries for classes that are closed. Each goes behind those before, and its id waits as a member of the innermost frame.
ghost use Rattle.std.specs.Prelude.{◌≡◌, [], ◌∷◌, ◌+◌, ◌-◌, ◌*◌, ◌<◌, ◌≤◌, length};
ghost use Rattle.owl.specs.Inner.Frames.{Bounds, Closes};
ghost use Rattle.owl.specs.Inner.Rows.{row_put, Paired};

use crate::frames::{ITEM, Reader};
use subsumption::limits::CONCEPTS;
use subsumption::refusal::Refusal;

// Row i.
fn put_row(rows: &mut [u16], i: usize, kind: u16, a: u16, b: u16)
    requires { i * 3 + 2 < length rows.old }
    ensures { rows.new ≡ row_put rows.old i kind a b }
{
    let at = i * 3;
    rows[at] = kind;
    rows[at + 1] = a;
    rows[at + 2] = b;
}

// A class of one row.
pub fn close_row(
    pending: &mut [u16],
    rows: &mut [u16],
    reader: Reader,
    kind: u16,
    a: u16,
    b: u16,
) -> Result<Reader, Refusal>
    requires bounds { Bounds reader }
    requires pending_len { length pending.old ≡ 192 }
    requires rows_len { length rows.old ≡ 576 }
    ensures { Closes reader (kind ∷ a ∷ b ∷ []) pending.old pending.new rows.old rows.new result }
{
    let count = reader.count;
    if CONCEPTS <= count {
        return Err(Refusal::Limit(0));
    }
    put_row(rows, count, kind, a, b);
    let used = reader.used;
    pending[used] = count as u16;
    Ok(Reader {
        used: used + 1,
        count: count + 1,
        want: ITEM,
        ..reader
    })
}

// Pairs the members from `start` on from the left: one "and" for each after the first.
pub fn put_ands(pending: &[u16], rows: &mut [u16], start: usize, used: usize, count: usize)
    requires start_lt_used { (start < used) × (used ≤ length pending.now) }
    requires start_bound { count + (used - start) ≤ 193 }
    requires rows_len { length rows.old ≡ 576 }
    ensures { Paired start used count pending.now rows.old rows.new }
{
    let mut left = pending[start];
    let mut next = count;
    for m in start + 1..used {
        let right = pending[m];
        put_row(rows, next, 3, left, right);
        left = next as u16;
        next += 1;
    }
}
