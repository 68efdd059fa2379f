// Answers in the numbers of the C interface: those of the finders above `matching`, on an allowance and of a group.
#![tactic(auto)]

ghost use Rattle.std.specs.Prelude.{◌≡◌};
ghost use Rattle.settings.specs.Settings.{lent_settings};
ghost use Rattle.allowance.specs.Find.{counted_reply, FindsCounted};
ghost use Rattle.groups.specs.Find.{FindsGroup};
ghost use Rattle.answers.specs.Answer.{replied};
ghost use Rattle.subsumption.specs.Lent.{lent};

use allowance::Counted;
use answers::Answer;
use matching_answers::matched;
use settings::Settings;
use subsumption::Tables;
use subsumption::refusal::code_of;

// What the finder with an allowance answered: the count is told with 10 and 14 too.
fn counted_of(counted: Counted) -> Answer
    ensures { replied result ≡ counted_reply counted }
{
    let value = counted.count as u64;
    let answer = counted.answer;
    match answer {
        Ok(()) => Answer {
            number: 0,
            place: 0,
            value,
        },
        Err(r) => {
            let code = code_of(r);
            let number = code.number;
            let place = code.place as u64;
            Answer {
                number,
                place,
                value,
            }
        }
    }
}

// Finds the first assignment within settings on an allowance of decisions; value: their count, with 10 and 14 too; refusal 14: the
// count is over the allowance.
pub fn find_counted(tables: Tables, settings: Settings, allowance: u32, out: &mut [u64]) -> Answer
    ensures { FindsCounted (lent tables) (lent_settings settings) allowance
        out.old out.new (replied result) }
{
    let counted = allowance::find_counted(tables, settings, allowance, out);
    counted_of(counted)
}

// Finds the first assignment of the group of one question, without an allowance; refusal 10: no assignment within the settings
// makes the group's questions hold.
pub fn find_group(tables: Tables, settings: Settings, question: u16, out: &mut [u64]) -> Answer
    ensures { FindsGroup (lent tables) (lent_settings settings) question
        out.old out.new (replied result) }
{
    let answer = groups::find_group(tables, settings, question, out);
    matched(answer)
}
