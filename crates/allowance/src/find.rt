// Finding the first assignment within settings on an allowance of decisions.
ghost use Rattle.std.specs.Prelude.{◌≡◌};
ghost use Rattle.subsumption.specs.Lent.{lent};
ghost use Rattle.subsumption.specs.Inner.Lent.{given};
ghost use Rattle.subsumption.specs.Refusal.{reply_refused, Done};
ghost use Rattle.subsumption.specs.Inner.Listing.{Accepted};
ghost use Rattle.settings.specs.Settings.{lent_settings, settings_fault};
ghost use Rattle.settings.specs.Inner.Lent.{given_settings};
ghost use Rattle.allowance.specs.Find.{counted_reply, FindsCounted};
ghost use Rattle.allowance.specs.Inner.Find.{WalkedBy};

use crate::walk::{Ending, Trail, walk};
use matching::helpers::{ALL, PROBLEM, SETS, make_problem, put_asked, put_counts, write_choice};
use settings::Settings;
use settings::helpers::{check_settings, load_permitted};
use subsumption::limits::ATOMS;
use subsumption::refusal::Refusal;
use subsumption::{Tables, list_atoms};

// The answer, and the count of decisions: with a refusal other than 10 and 14 it is 0.
#[derive(Clone, Copy)]
pub struct Counted {
    pub answer: Result<(), Refusal>,
    pub count: u32,
}

pub fn refused(r: Refusal) -> Counted
    ensures { counted_reply result ≡ reply_refused r }
{
    Counted {
        answer: Err(r),
        count: 0,
    }
}

// The walk, given accepted tables and settings. The ids are the atoms.
fn walk_known(tables: Tables, ids: &[u16], settings: Settings, allowance: u32) -> Trail
    requires accepted { Accepted (given tables) ids.now }
    requires largest_value { settings_fault (given tables) (given_settings settings) ≡ Done }
    ensures { WalkedBy (lent tables) (lent_settings settings) allowance
        result.ending result.met }
{
    let mut sets = [0u64; SETS];
    let mut problem = [0u16; PROBLEM];
    make_problem(tables, ids, &mut sets, &mut problem);
    put_counts(&mut problem, settings.largest);
    put_asked(&mut problem, ALL);
    let high = load_permitted(settings.permitted);
    let pairs = tables.variables as usize * ids.len();
    walk(&sets, &problem, high, ids.len(), pairs, allowance)
}

// The buffer's check, given accepted tables and settings, and then the walk.
fn find_set(
    tables: Tables,
    ids: &[u16],
    settings: Settings,
    allowance: u32,
    out: &mut [u64],
) -> Counted
    requires accepted { Accepted (given tables) ids.now }
    requires largest_value { settings_fault (given tables) (given_settings settings) ≡ Done }
    ensures { FindsCounted (lent tables) (lent_settings settings) allowance
        out.old out.new (counted_reply result) }
{
    let wanted = tables.variables as usize;
    if out.len() < wanted {
        return refused(Refusal::BufferTooShort(wanted));
    }
    let walked = walk_known(tables, ids, settings, allowance);
    let count = walked.met;
    match walked.ending {
        Ending::Found(choice) => {
            write_choice(choice, wanted, out);
            Counted {
                answer: Ok(()),
                count,
            }
        }
        Ending::Spent => Counted {
            answer: Err(Refusal::AllowanceSpent),
            count,
        },
        Ending::Absent => Counted {
            answer: Err(Refusal::NoAssignment),
            count,
        },
    }
}

// Checks 19 and 8, and then the walk. A batch begins here with settings of its own.
pub fn find_known(
    tables: Tables,
    ids: &[u16],
    settings: Settings,
    allowance: u32,
    out: &mut [u64],
) -> Counted
    requires { Accepted (given tables) ids.now }
    ensures { FindsCounted (lent tables) (lent_settings settings) allowance
        out.old out.new (counted_reply result) }
{
    let checked = check_settings(settings, tables.variables, ids.len());
    match checked {
        Err(r) => refused(r),
        Ok(()) => find_set(tables, ids, settings, allowance, out),
    }
}

// Finds the first assignment within the settings that makes every question hold, and counts the decisions; an allowance of them may
// be spent first.
pub fn find_counted(tables: Tables, settings: Settings, allowance: u32, out: &mut [u64]) -> Counted
    ensures { FindsCounted (lent tables) (lent_settings settings) allowance
        out.old out.new (counted_reply result) }
{
    let mut ids = [0u16; ATOMS];
    let listed = list_atoms(tables, &mut ids);
    match listed {
        Err(r) => refused(r),
        Ok(count) => find_known(tables, &ids[..count], settings, allowance, out),
    }
}
