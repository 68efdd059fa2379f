// The filled answer: for each variable in turn the line of the ids that are listed for it.
ghost use Rattle.subsumption.specs.Refusal.{Done};
ghost use Rattle.std.specs.Prelude.{◌≡◌, ◌+◌, ◌<◌, ◌≤◌, length};
ghost use Rattle.subsumption.specs.Lent.{lent};
ghost use Rattle.subsumption.specs.Inner.Lent.{given};
ghost use Rattle.subsumption.specs.Atoms.{atoms, chosen};
ghost use Rattle.subsumption.specs.Check.{table_fault, assignment_fault};
ghost use Rattle.numerals.specs.Inner.Printing.{Wrote};
ghost use Rattle.hermitcasket.specs.Printing.{fill_text, fills_text, filled_text};

use crate::print::put_fill;
use numerals::helpers::{put_bytes, put_line};
use subsumption::Tables;

// Tables and assignment are accepted, so the listing is not refused.
fn put_variable(
    tables: Tables,
    assignment: &[u64],
    variable: u16,
    at: usize,
    out: &mut [u8],
) -> usize
    requires variables_value { table_fault (given tables) ≡ Done }
    requires assignment_value { assignment_fault (given tables) assignment.now ≡ Done }
    requires variable_lt_variables { variable < tables.variables }
    requires variable_in_bounds { at + length
        (fill_text (chosen (given tables) assignment.now variable)) ≤ length out.old }
    ensures { Wrote out.old at
        (fill_text (chosen (lent tables) assignment.now variable)) result out.new }
{
    let mut buffer = [0u16; 64];
    let mut number: u16 = 0;
    let mut place: u64 = 0;
    let ids = matching::list_chosen(
        tables,
        assignment,
        variable,
        &mut buffer,
        &mut number,
        &mut place,
    );
    put_fill(ids, at, out)
}

fn put_fills(tables: Tables, assignment: &[u64], at: usize, out: &mut [u8]) -> usize
    requires variables_value { table_fault (given tables) ≡ Done }
    requires assignment_value { assignment_fault (given tables) assignment.now ≡ Done }
    requires assignment_in_bounds { at + length (fills_text (atoms (given tables)) assignment.now) ≤ length
        out.old }
    ensures { Wrote out.old at
        (fills_text (atoms (lent tables)) assignment.now) result out.new }
{
    let mut end = at;
    for k in 0..tables.variables {
        end = put_variable(tables, assignment, k, end, out);
    }
    end
}

pub fn put_filled(tables: Tables, assignment: &[u64], out: &mut [u8]) -> usize
    requires variables_value { table_fault (given tables) ≡ Done }
    requires assignment_value { assignment_fault (given tables) assignment.now ≡ Done }
    requires assignment_in_bounds { 0 + length (filled_text (atoms (given tables)) assignment.now) ≤ length
        out.old }
    ensures { Wrote out.old 0
        (filled_text (atoms (lent tables)) assignment.now) result out.new }
{
    let a = put_bytes(b"answer=filled\n", 0, out);
    let b = put_line(b"blanks=", assignment.len(), a, out);
    put_fills(tables, assignment, b, out)
}
