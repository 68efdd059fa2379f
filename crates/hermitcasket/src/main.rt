// The program: one problem in house text from standard input, its answer to standard output.
#![tactic(auto)]

mod answer;
mod filled;
mod lines;
mod parts;
mod print;
mod text;

ghost use Rattle.std.specs.Prelude.{◌≤◌, length};
ghost use Rattle.subsumption.specs.Tables.{Tables};
ghost use Rattle.hermitcasket.specs.Printing.{parts_of};
ghost use Rattle.hermitcasket.specs.Answer.{Held};

use answer::Plan;
use countermodel::limits::TABLE_BYTES;
use parts::put_part;
use std::io::Write;
use subsumption::limits::ROLE_WORDS;

// Writes part after part. A reader that went away is told nothing more.
fn write_parts<W: Write>(
    output: &mut W,
    concepts: &[u16],
    into: &[u64; ROLE_WORDS],
    table: &[u8; TABLE_BYTES],
    parts: usize,
    out: &mut [u8],
)
    requires held { (t : Tables) × Held t concepts.now into.now table.now }
    requires parts_bound { parts ≤ parts_of concepts.now }
    requires in_bounds { 4096 ≤ length out.old }
{
    for k in 0..parts {
        let size = put_part(concepts, into, table, k, out);
        if 0 < size {
            let _written = output.write_all(&out[..size]).is_ok();
        }
    }
}

fn main(rt: HostRuntime) {
    let mut text = [0u8; 8193];
    let n = numerals::read_full(&mut rt.stdin(), &mut text);
    let mut concepts = [0u16; 576];
    let mut into = [0u64; ROLE_WORDS];
    let mut table = [0u8; TABLE_BYTES];
    let mut out = [0u8; 4096];
    let plan = answer::answer(&text[..n], &mut concepts, &mut into, &mut table, &mut out);
    match plan {
        Plan::Whole(size) => {
            let _written = rt.stdout().write_all(&out[..size]).is_ok();
        }
        Plan::Parts(count, parts) => {
            let m = count * 3;
            write_parts(
                &mut rt.stdout(),
                &concepts[..m],
                &into,
                &table,
                parts,
                &mut out,
            )
        }
    }
}
