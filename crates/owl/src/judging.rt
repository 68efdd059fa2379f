// The judgement, token by token.
ghost use Rattle.std.specs.Prelude.{◌≡◌, ◌≤◌, ◌<◌, length};
ghost use Rattle.owl.specs.Tokens.{closing};
ghost use Rattle.owl.specs.Inner.Tokens.{token_of};
ghost use Rattle.owl.specs.Inner.Frames.{Bounds, Fits, Starts, Begins};
ghost use Rattle.owl.specs.Inner.Judging.{deep_next, FitsSomehow, StepsOnWord, Steps, EndsText, Judged};

use crate::frames::{AXIOM, EXIST, ITEM, MEET, Reader, has_room, open_bracket, take_role, waiting};
use crate::rows::close_row;
use crate::shutting::shut;
use crate::tokens::{skip_spaces, token_end};
use crate::words::{Word, read_word};
use subsumption::refusal::Refusal;

// A word between axioms.
fn start_axiom(reader: Reader, word: Word, place: usize) -> Result<Reader, Refusal>
    ensures { Starts reader place word result }
{
    match word {
        Word::AxiomKey => Ok(waiting(reader, AXIOM)),
        Word::TopKey => Err(Refusal::BadSyntax(place)),
        Word::AndKey => Err(Refusal::BadSyntax(place)),
        Word::SomeKey => Err(Refusal::BadSyntax(place)),
        Word::NameOf(_) => Err(Refusal::BadSyntax(place)),
        Word::RoleOf(_) => Err(Refusal::BadSyntax(place)),
        Word::Other => Err(Refusal::BadSyntax(place)),
    }
}

// A word in the innermost frame where a class would be too deep.
fn begin_deep(word: Word, place: usize) -> Result<Reader, Refusal>
    ensures { result ≡ deep_next word place }
{
    match word {
        Word::AxiomKey => Err(Refusal::BadSyntax(place)),
        Word::TopKey => Err(Refusal::TooDeep(place)),
        Word::AndKey => Err(Refusal::TooDeep(place)),
        Word::SomeKey => Err(Refusal::TooDeep(place)),
        Word::NameOf(_) => Err(Refusal::TooDeep(place)),
        Word::RoleOf(_) => Err(Refusal::BadSyntax(place)),
        Word::Other => Err(Refusal::BadSyntax(place)),
    }
}

// A word in the innermost frame, which has room.
fn begin_class(
    pending: &mut [u16],
    rows: &mut [u16],
    reader: Reader,
    word: Word,
    place: usize,
) -> Result<Reader, Refusal>
    requires bounds { Bounds reader }
    requires pending_len { length pending.old ≡ 192 }
    requires rows_len { length rows.old ≡ 576 }
    ensures { Begins reader place word pending.old pending.new rows.old rows.new result }
{
    if 32 < reader.depth {
        return begin_deep(word, place);
    }
    match word {
        Word::AxiomKey => Err(Refusal::BadSyntax(place)),
        Word::TopKey => close_row(pending, rows, reader, 0, 0, 0),
        Word::AndKey => Ok(waiting(reader, MEET)),
        Word::SomeKey => Ok(waiting(reader, EXIST)),
        Word::NameOf(n) => close_row(pending, rows, reader, 1, n, 0),
        Word::RoleOf(_) => Err(Refusal::BadSyntax(place)),
        Word::Other => Err(Refusal::BadSyntax(place)),
    }
}

// A word, by what may come next.
fn step_word(
    frames: &mut [u16],
    pending: &mut [u16],
    rows: &mut [u16],
    reader: Reader,
    word: Word,
    place: usize,
) -> Result<Reader, Refusal>
    requires { FitsSomehow reader frames.old pending.old rows.old }
    ensures { StepsOnWord reader place word frames.old frames.new pending.old pending.new
        rows.old rows.new result }
{
    if ITEM < reader.want {
        return take_role(frames, reader, word, place);
    }
    if reader.want < ITEM {
        return Err(Refusal::BadSyntax(place));
    }
    if reader.depth == 0 {
        return start_axiom(reader, word, place);
    }
    if !has_room(frames, reader) {
        return Err(Refusal::BadSyntax(place));
    }
    begin_class(pending, rows, reader, word, place)
}

// A closing bracket.
fn close_bracket(
    frames: &[u16],
    pending: &mut [u16],
    rows: &mut [u16],
    inclusions: &mut [u16],
    reader: Reader,
    place: usize,
) -> Result<Reader, Refusal>
    requires { Fits reader frames.now pending.old rows.old inclusions.old }
    ensures { Steps reader place closing frames.now frames.now pending.old pending.new
        rows.old rows.new inclusions.old inclusions.new result }
{
    if reader.want != ITEM {
        return Err(Refusal::BadSyntax(place));
    }
    if reader.depth == 0 {
        return Err(Refusal::BadSyntax(place));
    }
    shut(frames, pending, rows, inclusions, reader, place)
}

// One token: its bytes.
fn step_token(
    token: &[u8],
    frames: &mut [u16],
    pending: &mut [u16],
    rows: &mut [u16],
    inclusions: &mut [u16],
    reader: Reader,
    place: usize,
) -> Result<Reader, Refusal>
    requires token_nonzero { 0 < length token.now }
    requires fits { Fits reader frames.old pending.old rows.old inclusions.old }
    ensures { Steps reader place (token_of token.now) frames.old frames.new pending.old pending.new
        rows.old rows.new inclusions.old inclusions.new result }
{
    let byte = token[0];
    if byte == 40 {
        return open_bracket(frames, reader, place);
    }
    if byte == 41 {
        return close_bracket(frames, pending, rows, inclusions, reader, place);
    }
    let word = read_word(token);
    step_word(frames, pending, rows, reader, word, place)
}

// The text may end between axioms.
fn end_text(reader: Reader, end: usize) -> Result<Reader, Refusal>
    ensures { EndsText reader end result }
{
    if 0 < reader.depth {
        return Err(Refusal::BadSyntax(end));
    }
    if reader.want != ITEM {
        return Err(Refusal::BadSyntax(end));
    }
    Ok(reader)
}

// The whole text, into the buffers.
pub fn judge_text(
    text: &[u8],
    frames: &mut [u16],
    pending: &mut [u16],
    rows: &mut [u16],
    inclusions: &mut [u16],
) -> Result<Reader, Refusal>
    requires frames_len { length frames.old ≡ 99 }
    requires pending_len { length pending.old ≡ 192 }
    requires rows_len { length rows.old ≡ 576 }
    requires inclusions_len { length inclusions.old ≡ 192 }
    ensures { Judged text.now result frames.new pending.new rows.new inclusions.new }
{
    let mut reader = Reader {
        depth: 0,
        used: 0,
        count: 0,
        pairs: 0,
        want: ITEM,
    };
    let mut at = skip_spaces(text, 0);
    // each token says where the next may begin
    while at < text.len() {
        let end = token_end(text, at);
        reader = step_token(
            &text[at..end],
            frames,
            pending,
            rows,
            inclusions,
            reader,
            at,
        )?;
        at = skip_spaces(text, end);
    }
    end_text(reader, text.len())
}
