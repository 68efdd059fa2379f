// Finding an assignment for each table of a batch.
ghost use Rattle.subsumption.specs.Refusal.{Done};
ghost use Rattle.std.specs.Prelude.{◌≡◌, ◌<◌, min, length};
ghost use Rattle.subsumption.specs.Lent.{lent};
ghost use Rattle.allowance.specs.Find.{counted_reply, FindsCounted};
ghost use Rattle.batches.specs.Batch.{unrestricted, batch_fault};
ghost use Rattle.batches.specs.Find.{FindsBatch, Ran};
ghost use Rattle.batches.specs.Inner.Find.{FindsAt, Coded};

use crate::check::{TABLES, check_batch};
use allowance::Counted;
use allowance::helpers::{find_known, refused};
use matching::helpers::all_atoms;
use settings::Settings;
use subsumption::limits::ATOMS;
use subsumption::refusal::{Code, Refusal, code_of};
use subsumption::{Tables, list_atoms};

// number and place: of the whole, refusal 20 or 0; then what was left over, and for each table its number, place and count.
#[repr(C)]
#[derive(Clone, Copy)]
pub struct Batch {
    pub number: u16,
    pub place: u64,
    pub left: u64,
    pub numbers: [u16; 8],
    pub places: [u64; 8],
    pub counts: [u32; 8],
}

// The second finder where every atom is permitted, and 64 of them.
fn find_all_permitted(tables: Tables, allowance: u32, out: &mut [u64]) -> Counted
    ensures { FindsCounted (lent tables)
        (unrestricted (lent tables)) allowance out.old out.new (counted_reply result) }
{
    let mut ids = [0u16; ATOMS];
    let listed = list_atoms(tables, &mut ids);
    match listed {
        Err(r) => refused(r),
        Ok(count) => {
            let wanted = tables.variables as usize;
            let all = all_atoms(count);
            let most = [64u16; 8];
            let settings = Settings {
                permitted: &all[..wanted],
                largest: &most[..wanted],
            };
            find_known(tables, &ids[..count], settings, allowance, out)
        }
    }
}

// Table k on its stretch of the buffer.
fn find_at(tables: Tables, allowance: u32, k: usize, out: &mut [u64]) -> Counted
    requires { k < 8 }
    ensures { FindsAt (lent tables) allowance k out.old out.new (counted_reply result) }
{
    let width = tables.variables as usize;
    let size = out.len();
    let from = (k * width).min(size);
    let to = (from + width).min(size);
    find_all_permitted(tables, allowance, &mut out[from..to])
}

// The number and the place of an answer.
fn code_in(answer: Result<(), Refusal>) -> Code
    ensures { Coded answer result }
{
    match answer {
        Ok(()) => Code {
            number: 0,
            place: 0,
        },
        Err(r) => code_of(r),
    }
}

// The tables in turn, given that their check has passed.
fn find_each(tables: Tables, lengths: &[u16], shares: &[u32], out: &mut [u64]) -> Batch
    requires { batch_fault lengths.now shares.now (length tables.questions.now) ≡ Done }
    ensures { Ran (lent tables) lengths.now shares.now
        out.old out.new result }
{
    let mut numbers = [0u16; TABLES];
    let mut places = [0u64; TABLES];
    let mut counts = [0u32; TABLES];
    let mut start: usize = 0;
    let mut left: u32 = 0;
    for k in 0..lengths.len() {
        let end = start + lengths[k] as usize;
        let amount = left + shares[k];
        let counted = find_at(
            Tables {
                questions: &tables.questions[start..end],
                ..tables
            },
            amount,
            k,
            out,
        );
        let count = counted.count;
        let answer = counted.answer;
        let code = code_in(answer);
        numbers[k] = code.number;
        places[k] = code.place as u64;
        counts[k] = count;
        left = amount - count;
        start = end;
    }
    Batch {
        number: 0,
        place: 0,
        left: left as u64,
        numbers,
        places,
        counts,
    }
}

// Finds the first assignment for each of up to eight question tables, which lie one after another, each on its stretch of the
// buffer, with its share of decisions and what the ones before it left over.
pub fn find_batch(tables: Tables, lengths: &[u16], shares: &[u32], out: &mut [u64]) -> Batch
    ensures { FindsBatch (lent tables) lengths.now shares.now
        out.old out.new result }
{
    let checked = check_batch(lengths, shares, tables.questions.len());
    match checked {
        Err(r) => {
            let code = code_of(r);
            Batch {
                number: code.number,
                place: code.place as u64,
                left: 0,
                numbers: [0u16; TABLES],
                places: [0u64; TABLES],
                counts: [0u32; TABLES],
            }
        }
        Ok(()) => find_each(tables, lengths, shares, out),
    }
}
