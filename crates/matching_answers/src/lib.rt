// Answers in the numbers of the C interface: those of the matcher.
#![tactic(auto)]

ghost use Rattle.subsumption.specs.Refusal.{reply_of};
ghost use Rattle.std.specs.Prelude.{◌≡◌};
ghost use Rattle.subsumption.specs.Lent.{lent};
ghost use Rattle.settings.specs.Settings.{lent_settings};
ghost use Rattle.matching.specs.Find.{Finds};
ghost use Rattle.matching.specs.Within.{FindsWithin};
ghost use Rattle.matching.specs.Chosen.{Chooses};
ghost use Rattle.answers.specs.Answer.{replied};

use answers::{Answer, answer_of};
use settings::Settings;
use subsumption::Tables;
use subsumption::refusal::Refusal;

// What a finder answered.
pub fn matched(answer: Result<(), Refusal>) -> Answer
    ensures { replied result ≡ reply_of answer }
{
    answer_of(answer.map(|()| 0))
}

// Finds the first assignment that makes every question hold; refusal 10: no substitution does.
pub fn find(tables: Tables, out: &mut [u64]) -> Answer
    ensures { Finds (lent tables) out.old out.new (replied result) }
{
    let found = matching::find_assignment(tables, out);
    matched(found)
}

// The same within settings; refusal 10: no assignment within them does.
pub fn find_within(tables: Tables, settings: Settings, out: &mut [u64]) -> Answer
    ensures { FindsWithin (lent tables) (lent_settings settings)
        out.old out.new (replied result) }
{
    let answer = matching::find_within(tables, settings, out);
    matched(answer)
}

// Lists one variable's chosen ids; value: how many.
pub fn chosen(tables: Tables, assignment: &[u64], variable: u16, out: &mut [u16]) -> Answer
    ensures { Chooses (lent tables) assignment.now variable
        out.old out.new (replied result) }
{
    let answer = matching::put_chosen(tables, assignment, variable, out);
    answer_of(answer.map(|n| n as u64))
}
