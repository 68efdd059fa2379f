// Answers in the numbers of the C interface: those of the operations of `subsumption`. Each function calls one operation and turns
// its answer into numbers. They stand in small crates, so that a wrong one is soon refused.
#![tactic(auto)]

ghost use Rattle.std.specs.Prelude.{◌≡◌};
ghost use Rattle.subsumption.specs.Lent.{lent};
ghost use Rattle.subsumption.specs.Tables.{tree, variables_of};
ghost use Rattle.subsumption.specs.Atoms.{atoms};
ghost use Rattle.subsumption.specs.Refusal.{reply_with, reply_of, value_reply};
ghost use Rattle.subsumption.specs.Check.{table_fault, pair_fault};
ghost use Rattle.subsumption.specs.Listing.{Lists};
ghost use Rattle.subsumption.specs.Table.{Wrote};
ghost use Rattle.subsumption.specs.Decide.{decision_reply, Decides};
ghost use Rattle.answers.specs.Answer.{replied};

use subsumption::Tables;
use subsumption::refusal::{Refusal, code_of};

// number 0: done; else the refusal's number, with its place and value 0.
#[repr(C)]
#[derive(Clone, Copy)]
pub struct Answer {
    pub number: u16,
    pub place: u64,
    pub value: u64,
}

// What an operation answered, in the header's numbers.
pub fn answer_of(answer: Result<u64, Refusal>) -> Answer
    ensures { replied result ≡ value_reply answer }
{
    match answer {
        Ok(value) => Answer {
            number: 0,
            place: 0,
            value,
        },
        Err(r) => {
            let code = code_of(r);
            Answer {
                number: code.number,
                place: code.place as u64,
                value: 0,
            }
        }
    }
}

// A decision: 1 for yes, 0 for no.
pub fn decided(answer: Result<bool, Refusal>) -> Answer
    ensures { replied result ≡ decision_reply answer }
{
    answer_of(answer.map(|below| below as u64))
}

// Checks the tables.
pub fn check(tables: Tables) -> Answer
    ensures { replied result ≡ reply_of (table_fault (lent tables)) }
{
    let checked = subsumption::check_tables(tables);
    answer_of(checked.map(|()| 0))
}

// Lists the atoms' ids; value: how many.
pub fn atoms(tables: Tables, out: &mut [u16]) -> Answer
    ensures { Lists (lent tables) out.old out.new (replied result) }
{
    let answer = subsumption::list_atoms(tables, out);
    answer_of(answer.map(|n| n as u64))
}

// The set of the variables in a concept; value: the set, bit k for variable k.
pub fn blanks(tables: Tables, id: u16) -> Answer
    ensures { replied result ≡ reply_with (pair_fault (lent tables) id id)
        (variables_of (tree (lent tables).concepts id)) }
{
    let answer = subsumption::variables_in(tables, id);
    answer_of(answer.map(|set| set as u64))
}

// Writes the subsumption table under an assignment; value: how many marks.
pub fn subsumption_table(tables: Tables, assignment: &[u64], out: &mut [u8]) -> Answer
    ensures { Wrote (lent tables) assignment.now out.old out.new (replied result) }
{
    let answer = subsumption::write_table(tables, assignment, out);
    answer_of(answer.map(|marks| marks as u64))
}

// Decides one pair under an assignment; value: 1 or 0.
pub fn subsumed(tables: Tables, assignment: &[u64], left: u16, right: u16) -> Answer
    ensures { Decides (lent tables) assignment.now left right (replied result) }
{
    let answer = subsumption::decide_pair(tables, assignment, left, right);
    decided(answer)
}
