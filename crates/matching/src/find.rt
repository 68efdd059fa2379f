// Finding the first assignment that makes every question hold: within settings that permit every atom, and 64 of them.
ghost use Rattle.subsumption.specs.Refusal.{reply_of};
ghost use Rattle.std.specs.Prelude.{◌≤◌};
ghost use Rattle.matching.specs.Inner.Find.{Full};
ghost use Rattle.matching.specs.Find.{Finds};
ghost use Rattle.subsumption.specs.Lent.{lent};

use crate::search::interval::ones;
use crate::within::{ALL, find_known};
use settings::Settings;
use subsumption::limits::ATOMS;
use subsumption::refusal::Refusal;
use subsumption::{Tables, list_atoms};

// Every atom for every variable.
pub fn all_atoms(count: usize) -> [u64; 8]
    requires { count ≤ 64 }
    ensures { Full count result }
{
    let full = ones(count);
    [full; 8]
}

// Finds the first assignment that makes every question hold, or says that no substitution does. It writes one number a variable.
pub fn find_assignment(tables: Tables, out: &mut [u64]) -> Result<(), Refusal>
    ensures { Finds (lent tables) out.old out.new (reply_of result) }
{
    let mut ids = [0u16; ATOMS];
    let count = list_atoms(tables, &mut ids)?;
    let wanted = tables.variables as usize;
    let all = all_atoms(count);
    let most = [64u16; 8];
    let settings = Settings {
        permitted: &all[..wanted],
        largest: &most[..wanted],
    };
    find_known(tables, &ids[..count], settings, ALL, out)
}
