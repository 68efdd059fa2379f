// Reading a catalogue: judged into tables of its own, which are copied at the end, so that a refusal writes nothing.
ghost use Rattle.std.specs.Prelude.{◌≡◌, ◌≤◌, length};
ghost use Rattle.owl.specs.Judgement.{judge};
ghost use Rattle.owl.specs.Read.{catalogue_reply, ReadsBy, ReadsCatalogue, in_front};

use crate::judging::judge_text;
use subsumption::refusal::Refusal;

const FRAMES: usize = 99;

const ROWS: usize = 576;

const SIDES: usize = 192;

const TEXT: usize = 8192;

// How many entries and inclusions were read.
#[derive(Clone, Copy)]
pub struct Catalogue {
    pub concepts: usize,
    pub inclusions: usize,
}

// The numbers in front of a buffer.
fn put_front(numbers: &[u16], out: &mut [u16])
    requires { length numbers.now ≤ length out.old }
    ensures { out.new ≡ in_front numbers.now out.old }
{
    out[..numbers.len()].copy_from_slice(numbers);
}

// The judged tables, in front of the buffers.
fn read_text(
    text: &[u8],
    concepts: &mut [u16],
    inclusions: &mut [u16],
) -> Result<Catalogue, Refusal>
    requires in_bounds { 576 ≤ length concepts.old }
    requires in_bounds_2 { 192 ≤ length inclusions.old }
    ensures { ReadsBy (judge text.now) concepts.old concepts.new inclusions.old inclusions.new
        (catalogue_reply result) }
{
    let mut frames = [0u16; FRAMES];
    let mut pending = [0u16; SIDES];
    let mut rows = [0u16; ROWS];
    let mut sides = [0u16; SIDES];
    let reader = judge_text(text, &mut frames, &mut pending, &mut rows, &mut sides)?;
    let n = reader.count * 3;
    let m = reader.pairs * 2;
    put_front(&rows[..n], concepts);
    put_front(&sides[..m], inclusions);
    Ok(Catalogue {
        concepts: reader.count,
        inclusions: reader.pairs,
    })
}

pub fn read_catalogue(
    text: &[u8],
    concepts: &mut [u16],
    inclusions: &mut [u16],
) -> Result<Catalogue, Refusal>
    ensures { ReadsCatalogue text.now concepts.old concepts.new inclusions.old inclusions.new
        (catalogue_reply result) }
{
    if concepts.len() < ROWS {
        return Err(Refusal::BufferTooShort(ROWS));
    }
    if inclusions.len() < SIDES {
        return Err(Refusal::BufferTooShort(SIDES));
    }
    if TEXT < text.len() {
        return Err(Refusal::BadSyntax(TEXT));
    }
    read_text(text, concepts, inclusions)
}
