// The open brackets of a text, and the tables so far. Each bracket has a frame of three numbers: its kind, the role of an
// existential, and where its members start among those that wait.
ghost use Rattle.std.specs.Prelude.{◌≡◌, ◌-◌, ◌<◌, ◌≤◌, length};
ghost use Rattle.owl.specs.Inner.Frames.{Bounds, Nested, start_of, TellsRoom, FirstOf, waiting, Opens, Roles};

use crate::words::Word;
use subsumption::refusal::Refusal;

pub const AXIOM: u16 = 0;

pub const MEET: u16 = 1;

pub const EXIST: u16 = 2;

// What may come next, beside the kind of a keyword whose bracket is due: an item, or a role.
pub const ITEM: u16 = 3;

pub const ROLE: u16 = 4;

// How many frames, waiting members, entries and axioms there are, and what may come next.
#[derive(Clone, Copy)]
pub struct Reader {
    pub depth: usize,
    pub used: usize,
    pub count: usize,
    pub pairs: usize,
    pub want: u16,
}

pub fn wide(x: u16) -> usize
    ensures { result ≡ x }
{
    x as usize
}

// The same tables and frames; something else may come next.
pub fn waiting(reader: Reader, want: u16) -> Reader
    ensures { result ≡ waiting reader want }
{
    Reader { want, ..reader }
}

// The innermost frame has room for a class.
pub fn has_room(frames: &[u16], reader: Reader) -> bool
    requires depth_nonzero { (0 < reader.depth) × (reader.depth ≤ 33) }
    requires frames_len { length frames.now ≡ 99 }
    requires frames_bound { start_of (reader.depth - 1) frames.now ≤ reader.used }
    ensures { TellsRoom reader frames.now result }
{
    let at = (reader.depth - 1) * 3;
    let kind = frames[at];
    let members = reader.used - wide(frames[at + 2]);
    if kind == AXIOM {
        return members < 2;
    }
    kind == MEET || members < 1
}

// What comes first in a bracket of that kind.
fn first(kind: u16) -> u16
    requires { kind < 3 }
    ensures { FirstOf kind result }
{
    if kind == EXIST {
        return ROLE;
    }
    ITEM
}

// An opening bracket: a new frame, the innermost.
pub fn open_bracket(frames: &mut [u16], reader: Reader, place: usize) -> Result<Reader, Refusal>
    requires bounds { Bounds reader }
    requires frames_len { length frames.old ≡ 99 }
    ensures { Opens reader place frames.old frames.new result }
{
    let kind = reader.want;
    if ITEM <= kind {
        return Err(Refusal::BadSyntax(place));
    }
    let at = reader.depth * 3;
    frames[at] = kind;
    frames[at + 1] = 0;
    frames[at + 2] = reader.used as u16;
    let want = first(kind);
    Ok(Reader {
        depth: reader.depth + 1,
        want,
        ..reader
    })
}

// The role of the innermost existential.
pub fn take_role(
    frames: &mut [u16],
    reader: Reader,
    word: Word,
    place: usize,
) -> Result<Reader, Refusal>
    requires depth_nonzero { (0 < reader.depth) × (reader.depth ≤ 33) }
    requires frames_len { length frames.old ≡ 99 }
    ensures { Roles reader place word frames.old frames.new result }
{
    match word {
        Word::RoleOf(r) => {
            let at = (reader.depth - 1) * 3 + 1;
            frames[at] = r;
            Ok(waiting(reader, ITEM))
        }
        Word::AxiomKey => Err(Refusal::BadSyntax(place)),
        Word::TopKey => Err(Refusal::BadSyntax(place)),
        Word::AndKey => Err(Refusal::BadSyntax(place)),
        Word::SomeKey => Err(Refusal::BadSyntax(place)),
        Word::NameOf(_) => Err(Refusal::BadSyntax(place)),
        Word::Other => Err(Refusal::BadSyntax(place)),
    }
}
