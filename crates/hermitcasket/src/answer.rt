// The program's answer as bytes, in front of a buffer; or, where an interpretation is shown, what its parts are printed from.
ghost use Rattle.std.specs.Prelude.{◌≡◌, ◌*◌, ◌≤◌, length, replicate};
ghost use Rattle.subsumption.specs.Lent.{lent};
ghost use Rattle.subsumption.specs.Refusal.{code_of};
ghost use Rattle.subsumption.specs.Check.{table_fault};
ghost use Rattle.numerals.specs.Inner.Printing.{Wrote};
ghost use Rattle.numerals.specs.Printing.{Output};
ghost use Rattle.hermitcasket.specs.Text.{accepted, judge};
ghost use Rattle.hermitcasket.specs.Printing.{code_text};
ghost use Rattle.hermitcasket.specs.Answer.{AnsweredTables, Planned};

use crate::filled::put_filled;
use crate::print::put_none;
use crate::text::{Ask, read_text};
use countermodel::helpers::judge_pair;
use countermodel::limits::TABLE_BYTES;
use numerals::helpers::put_refused;
use subsumption::Tables;
use subsumption::helpers::note_roles;
use subsumption::limits::ROLE_WORDS;
use subsumption::refusal::{Refusal, code_of};

fn answer_refused(refusal: Refusal, out: &mut [u8]) -> usize
    requires { 4096 ≤ length out.old }
    ensures { Wrote out.old 0 (code_text (code_of refusal)) result out.new }
{
    let code = code_of(refusal);
    if code.number == 10 {
        return put_none(out);
    }
    put_refused(code, out)
}

// The answer for the tables that a text says.
fn answer_tables(tables: Tables, out: &mut [u8]) -> usize
    requires variables_bound { tables.variables ≤ 8 }
    requires in_bounds { 4096 ≤ length out.old }
    ensures { Output
        (AnsweredTables (lent tables) (table_fault
        (lent tables))) out.old result out.new }
{
    let mut assignment = [0u64; 8];
    let found = matching::find_assignment(tables, &mut assignment);
    match found {
        Ok(()) => {
            let n = tables.variables as usize;
            put_filled(tables, &assignment[..n], out)
        }
        Err(r) => answer_refused(r, out),
    }
}

// How the output is to be written.
#[derive(Clone, Copy)]
pub enum Plan {
    // So many bytes of the buffer are all of it.
    Whole(usize),
    // So many concepts stand in front of their array, and it goes in so many parts.
    Parts(usize, usize),
}

// The plan for an asked pair of the tables that a text says: every choice is 0.
fn plan_pair(
    tables: Tables,
    left: u16,
    right: u16,
    into: &mut [u64; ROLE_WORDS],
    table: &mut [u8; TABLE_BYTES],
    out: &mut [u8],
) -> Plan
    requires variables_bound { tables.variables ≤ 8 }
    requires into_value { into.old ≡ replicate 200 0 }
    requires in_bounds { 4096 ≤ length out.old }
    ensures { Planned (accepted (lent tables) (Ask.Show left right)) result
        (lent tables).concepts into.new table.new out.old out.new }
{
    let assignment = [0u64; 8];
    let n = tables.variables as usize;
    let judged = judge_pair(tables, &assignment[..n], left, right, table);
    match judged {
        Ok(()) => {
            note_roles(tables.roles, into);
            let count = tables.concepts.len() / 3;
            Plan::Parts(count, 1 + count + count * 100)
        }
        Err(r) => Plan::Whole(answer_refused(r, out)),
    }
}

// The plan for the tables that a text says and what it asks.
fn plan_tables(
    tables: Tables,
    ask: Ask,
    into: &mut [u64; ROLE_WORDS],
    table: &mut [u8; TABLE_BYTES],
    out: &mut [u8],
) -> Plan
    requires variables_bound { tables.variables ≤ 8 }
    requires into_value { into.old ≡ replicate 200 0 }
    requires in_bounds { 4096 ≤ length out.old }
    ensures { Planned (accepted (lent tables) ask) result (lent tables).concepts into.new
        table.new out.old out.new }
{
    match ask {
        Ask::Fill => {
            let size = answer_tables(tables, out);
            Plan::Whole(size)
        }
        Ask::Show(left, right) => plan_pair(tables, left, right, into, table, out),
    }
}

// The whole program, from the text's bytes to the output's, or to what its parts are printed from (src/parts.rt).
pub fn answer(
    text: &[u8],
    concepts: &mut [u16],
    into: &mut [u64; ROLE_WORDS],
    table: &mut [u8; TABLE_BYTES],
    out: &mut [u8],
) -> Plan
    requires in_bounds { 192 * 3 ≤ length concepts.old }
    requires into_value { into.old ≡ replicate 200 0 }
    requires in_bounds_2 { 4096 ≤ length out.old }
    ensures { Planned (judge text.now) result concepts.new into.new table.new out.old out.new }
{
    let mut inclusions = [0u16; 192];
    let mut questions = [0u16; 64];
    let mut roles = [0u16; 64];
    let read = read_text(text, concepts, &mut inclusions, &mut questions, &mut roles);
    match read {
        Ok(problem) => {
            let n = problem.concepts * 3;
            let m = problem.inclusions * 2;
            let k = problem.questions * 2;
            let l = problem.roles * 2;
            let tables = Tables {
                concepts: &concepts[..n],
                inclusions: &inclusions[..m],
                questions: &questions[..k],
                roles: &roles[..l],
                variables: problem.variables,
            };
            plan_tables(tables, problem.ask, into, table, out)
        }
        Err(refusal) => Plan::Whole(answer_refused(refusal, out)),
    }
}
