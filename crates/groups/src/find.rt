// Finding the first assignment of one group within settings: the search is asked the group's questions only, with the atoms of all.
ghost use Rattle.std.specs.Prelude.{◌≡◌, ◌<◌, Err};
ghost use Rattle.subsumption.specs.Lent.{lent};
ghost use Rattle.subsumption.specs.Inner.Lent.{given};
ghost use Rattle.subsumption.specs.declared.refusal.Refusal.TheVariants.{NoConcept};
ghost use Rattle.subsumption.specs.Tables.{pairs_of};
ghost use Rattle.subsumption.specs.Refusal.{or_else, reply_of};
ghost use Rattle.subsumption.specs.Check.{concept_fault};
ghost use Rattle.subsumption.specs.Inner.Listing.{Accepted};
ghost use Rattle.settings.specs.Settings.{lent_settings};
ghost use Rattle.groups.specs.Find.{FindsGroup};

use crate::group::group_of;
use matching::helpers::find_known;
use settings::Settings;
use subsumption::helpers::check_concepts;
use subsumption::limits::ATOMS;
use subsumption::refusal::Refusal;
use subsumption::{Tables, list_atoms};

// The refusal of a place that is no question: inside check 4, as of an id that is no concept.
fn refuse_place(tables: Tables) -> Refusal
    ensures { Err result ≡ or_else (concept_fault (lent tables)) (Err (NoConcept 0)) }
{
    match check_concepts(tables) {
        Err(r) => r,
        Ok(()) => Refusal::NoConcept(0),
    }
}

// Checks 19 and 8, and then the search, which is asked the group's questions with the atoms of all.
fn find_placed(
    tables: Tables,
    ids: &[u16],
    settings: Settings,
    m: u16,
    out: &mut [u64],
) -> Result<(), Refusal>
    requires accepted { Accepted (given tables) ids.now }
    requires m_bound { m < pairs_of tables.questions.now }
    ensures { FindsGroup (lent tables) (lent_settings settings) m
        out.old out.new (reply_of result) }
{
    let group = group_of(tables, ids, m as usize);
    find_known(tables, ids, settings, group, out)
}

// Finds the first assignment within the settings that makes the questions of the group of question m hold, or says that none does. It
// writes one number a variable.
pub fn find_group(
    tables: Tables,
    settings: Settings,
    m: u16,
    out: &mut [u64],
) -> Result<(), Refusal>
    ensures { FindsGroup (lent tables) (lent_settings settings) m
        out.old out.new (reply_of result) }
{
    if (m as usize) >= tables.questions.len() / 2 {
        return Err(refuse_place(tables));
    }
    let mut ids = [0u16; ATOMS];
    let count = list_atoms(tables, &mut ids)?;
    find_placed(tables, &ids[..count], settings, m, out)
}
