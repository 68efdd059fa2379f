// Closing brackets. `outer` is the reader behind the frame that closes, whose members stand from `outer.used` up to `used`.
ghost use Rattle.std.specs.Prelude.{◌≡◌, ◌+◌, ◌*◌, ◌≤◌, ◌<◌, length};
ghost use Rattle.owl.specs.Judgement.{meet, exist};
ghost use Rattle.owl.specs.Inner.Frames.{Bounds, Fits, ShutsAxiom, ShutsClass};
ghost use Rattle.owl.specs.Inner.Judging.{ShutsFrame};

use crate::frames::{AXIOM, ITEM, MEET, Reader, wide};
use crate::rows::{close_row, put_ands};
use subsumption::limits::CONCEPTS;
use subsumption::refusal::Refusal;

// An axiom's two members become an inclusion.
fn shut_axiom(
    pending: &[u16],
    inclusions: &mut [u16],
    outer: Reader,
    used: usize,
    place: usize,
) -> Result<Reader, Refusal>
    requires used_le_used { (outer.used ≤ used) × (outer.pairs * 2 + used ≤ 192) }
    requires used_bound { outer.pairs * 2 + used ≤ outer.count }
    requires pending_len { length pending.now ≡ 192 }
    requires inclusions_len { length inclusions.old ≡ 192 }
    ensures { ShutsAxiom outer used place pending.now inclusions.old inclusions.new result }
{
    let start = outer.used;
    if used - start != 2 {
        return Err(Refusal::BadSyntax(place));
    }
    let at = outer.pairs * 2;
    inclusions[at] = pending[start];
    inclusions[at + 1] = pending[start + 1];
    Ok(Reader {
        pairs: outer.pairs + 1,
        want: ITEM,
        ..outer
    })
}

// An existential of one member becomes a row.
fn shut_exist(
    pending: &mut [u16],
    rows: &mut [u16],
    outer: Reader,
    used: usize,
    role: u16,
    place: usize,
) -> Result<Reader, Refusal>
    requires bounds { Bounds outer }
    requires used_le_used { (outer.used ≤ used) × (used ≤ 192) }
    requires pending_len { length pending.old ≡ 192 }
    requires rows_len { length rows.old ≡ 576 }
    ensures { ShutsClass exist role outer used place pending.old pending.new rows.old rows.new result }
{
    let start = outer.used;
    if used - start != 1 {
        return Err(Refusal::BadSyntax(place));
    }
    let inner = pending[start];
    close_row(pending, rows, outer, 2, role, inner)
}

// The members of an intersection become one.
fn shut_meet(
    pending: &mut [u16],
    rows: &mut [u16],
    outer: Reader,
    used: usize,
    place: usize,
) -> Result<Reader, Refusal>
    requires bounds { Bounds outer }
    requires used_le_used { (outer.used ≤ used) × (used ≤ 192) }
    requires pending_len { length pending.old ≡ 192 }
    requires rows_len { length rows.old ≡ 576 }
    ensures { ShutsClass meet 0 outer used place pending.old pending.new rows.old rows.new result }
{
    let start = outer.used;
    let members = used - start;
    if members < 2 {
        return Err(Refusal::BadSyntax(place));
    }
    let count = outer.count + (members - 1);
    if CONCEPTS < count {
        return Err(Refusal::Limit(0));
    }
    put_ands(pending, rows, start, used, outer.count);
    pending[start] = (count - 1) as u16;
    Ok(Reader {
        used: start + 1,
        count,
        want: ITEM,
        ..outer
    })
}

// A closing bracket in the innermost frame.
pub fn shut(
    frames: &[u16],
    pending: &mut [u16],
    rows: &mut [u16],
    inclusions: &mut [u16],
    reader: Reader,
    place: usize,
) -> Result<Reader, Refusal>
    requires depth_nonzero { 0 < reader.depth }
    requires fits { Fits reader frames.now pending.old rows.old inclusions.old }
    ensures { ShutsFrame reader place frames.now pending.old pending.new rows.old rows.new
        inclusions.old inclusions.new result }
{
    let depth = reader.depth - 1;
    let at = depth * 3;
    let kind = frames[at];
    let role = frames[at + 1];
    let start = wide(frames[at + 2]);
    let used = reader.used;
    let outer = Reader {
        depth,
        used: start,
        want: ITEM,
        ..reader
    };
    if kind == AXIOM {
        return shut_axiom(pending, inclusions, outer, used, place);
    }
    if kind == MEET {
        return shut_meet(pending, rows, outer, used, place);
    }
    shut_exist(pending, rows, outer, used, role, place)
}
