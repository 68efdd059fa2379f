// Answers in the numbers of the C interface: those of the operations of `countermodel`.
#![tactic(auto)]

ghost use Rattle.countermodel.specs.Show.{Shows};
ghost use Rattle.countermodel.specs.Membership.{DecidesMember};
ghost use Rattle.answers.specs.Answer.{replied};
ghost use Rattle.subsumption.specs.Lent.{lent};

use answers::{Answer, answer_of, decided};
use subsumption::Tables;

// Shows an interpretation where one pair fails under an assignment; value: how many rows. Its elements are the concepts.
pub fn show(tables: Tables, assignment: &[u64], left: u16, right: u16, out: &mut [u16]) -> Answer
    ensures { Shows (lent tables) assignment.now left right
        out.old out.new (replied result) }
{
    let answer = countermodel::show_countermodel(tables, assignment, left, right, out);
    answer_of(answer.map(|n| n as u64))
}

// Tells whether an element of a given interpretation is a member of a concept under an assignment; value: 1 for yes, 0 for no.
pub fn belongs(
    tables: Tables,
    assignment: &[u64],
    size: u16,
    rows: &[u16],
    concept: u16,
    element: u16,
) -> Answer
    ensures { DecidesMember (lent tables) assignment.now size
        rows.now concept element (replied result) }
{
    let answer = countermodel::decide_member(tables, assignment, size, rows, concept, element);
    decided(answer)
}
