// Answers in the numbers of the C interface: those of the operations of `matching` on derivations.
#![tactic(auto)]

ghost use Rattle.std.specs.Prelude.{◌≡◌};
ghost use Rattle.subsumption.specs.Lent.{lent};
ghost use Rattle.subsumption.specs.Refusal.{reply_of};
ghost use Rattle.matching.specs.Derivation.{checking_fault};
ghost use Rattle.matching.specs.Writer.{Derives};
ghost use Rattle.answers.specs.Answer.{replied};

use answers::{Answer, answer_of};
use subsumption::Tables;

// Writes the derivation of one pair under an assignment; value: how many lines.
pub fn derive(tables: Tables, assignment: &[u64], left: u16, right: u16, out: &mut [u16]) -> Answer
    ensures { Derives (lent tables) assignment.now left right
        out.old out.new (replied result) }
{
    let answer = matching::derive(tables, assignment, left, right, out);
    answer_of(answer.map(|n| n as u64))
}

// Checks a derivation of one pair under an assignment.
pub fn check_derivation(
    tables: Tables,
    assignment: &[u64],
    left: u16,
    right: u16,
    lines: &[u16],
) -> Answer
    ensures { replied result ≡ reply_of
        (checking_fault (lent tables) assignment.now left right lines.now) }
{
    let judged = matching::check_derivation(tables, assignment, left, right, lines);
    answer_of(judged.map(|()| 0))
}
