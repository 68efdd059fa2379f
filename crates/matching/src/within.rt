// Finding the first assignment within settings that makes every question hold, or those that are asked.
ghost use Rattle.subsumption.specs.Refusal.{reply_of, Done};
ghost use Rattle.std.specs.Prelude.{◌≡◌, ◌≤◌, length, true};
ghost use Rattle.subsumption.specs.Lent.{lent};
ghost use Rattle.subsumption.specs.Inner.Lent.{given};
ghost use Rattle.subsumption.specs.Atoms.{bit};
ghost use Rattle.subsumption.specs.Inner.Listing.{Accepted};
ghost use Rattle.settings.specs.Settings.{lent_settings, settings_fault};
ghost use Rattle.settings.specs.Inner.Lent.{given_settings};
ghost use Rattle.matching.specs.Inner.Within.{Counting, Asking, FoundIn, FoundAmong, FindsAmong, Copied};
ghost use Rattle.matching.specs.Inner.Search.Problem.{Shaped};
ghost use Rattle.matching.specs.Within.{FindsWithin};
ghost use Rattle.matching.specs.Inner.Sizes.{problem_size};

use crate::limits::{ASKED, MOST, PROBLEM, SCRATCH, SETS, STORE};
use crate::search::interval::Interval;
use crate::search::narrow::narrow;
use crate::search::order::first_solution;
use crate::search::problem::{copy_at, make_problem};
use crate::search::solve::{Answer, some_solution};
use settings::Settings;
use settings::helpers::{check_settings, load_permitted};
use subsumption::limits::ATOMS;
use subsumption::refusal::Refusal;
use subsumption::{Tables, list_atoms};

// Every question is asked.
pub const ALL: u64 = 18446744073709551615;

// The first solution of the problem that takes permitted atoms only, if there is one.
fn search(sets: &[u64], problem: &[u16], permitted: [u64; 8]) -> Option<[u64; 8]>
    requires shaped { Shaped sets.now problem.now }
    requires permitted_len { length permitted ≡ 8 }
    ensures { FoundIn sets.now problem.now permitted result }
{
    let mut store = [0u64; STORE];
    let mut scratch = [0u64; SCRATCH];
    let low = [0u64; 8];
    let full = narrow(sets, problem, &mut scratch, permitted);
    let start = Interval { low, high: full };
    let some = some_solution(sets, problem, &mut store, &mut scratch, full, start);
    match some {
        Answer::Solution(known) => Some(first_solution(
            sets,
            problem,
            &mut store,
            &mut scratch,
            start,
            known,
        )),
        Answer::Nogood(_) => None,
    }
}

// Writes the largest counts into the problem.
pub fn put_counts(problem: &mut [u16], largest: &[u16])
    requires { (length problem.old ≡ problem_size) × (length largest.now ≤ 8) }
    ensures { Counting largest.now problem.old problem.new }
{
    copy_at(largest, problem, MOST);
}

// Writes into the problem which questions are asked: those whose bit is set.
pub fn put_asked(problem: &mut [u16], wanted: u64)
    requires { length problem.old ≡ problem_size }
    ensures { Asking wanted problem.old problem.new }
{
    for m in 0..32 {
        problem[ASKED + m] = ((wanted >> m) % 2) as u16;
    }
}

// The first solution of accepted tables within accepted settings, if there is one. The ids are the atoms.
fn find_first(tables: Tables, ids: &[u16], settings: Settings, wanted: u64) -> Option<[u64; 8]>
    requires accepted { Accepted (given tables) ids.now }
    requires largest_value { settings_fault (given tables) (given_settings settings) ≡ Done }
    ensures { FoundAmong (λ m. bit wanted m ≡ true) (lent tables)
        (lent_settings settings) result }
{
    let mut sets = [0u64; SETS];
    let mut problem = [0u16; PROBLEM];
    make_problem(tables, ids, &mut sets, &mut problem);
    put_counts(&mut problem, settings.largest);
    put_asked(&mut problem, wanted);
    let high = load_permitted(settings.permitted);
    search(&sets, &problem, high)
}

pub fn write_choice(choice: [u64; 8], count: usize, out: &mut [u64])
    requires count_bound { count ≤ 8 }
    requires count_in_bounds { count ≤ length out.old }
    ensures { Copied count choice out.old out.new }
{
    for k in 0..count {
        out[k] = choice[k];
    }
}

// The buffer's check, given accepted tables and settings, and then the search.
fn find_set(
    tables: Tables,
    ids: &[u16],
    settings: Settings,
    wanted: u64,
    out: &mut [u64],
) -> Result<(), Refusal>
    requires accepted { Accepted (given tables) ids.now }
    requires largest_value { settings_fault (given tables) (given_settings settings) ≡ Done }
    ensures { FindsAmong (λ m. bit wanted m ≡ true) (lent tables)
        (lent_settings settings) out.old out.new (reply_of result) }
{
    let count = tables.variables as usize;
    if out.len() < count {
        return Err(Refusal::BufferTooShort(count));
    }
    let first = find_first(tables, ids, settings, wanted);
    let Some(choice) = first else {
        return Err(Refusal::NoAssignment);
    };
    write_choice(choice, count, out);
    Ok(())
}

// Checks 19 and 8, and then the search, over the atoms that were listed when the tables passed.
pub fn find_known(
    tables: Tables,
    ids: &[u16],
    settings: Settings,
    wanted: u64,
    out: &mut [u64],
) -> Result<(), Refusal>
    requires { Accepted (given tables) ids.now }
    ensures { FindsAmong (λ m. bit wanted m ≡ true) (lent tables)
        (lent_settings settings) out.old out.new (reply_of result) }
{
    check_settings(settings, tables.variables, ids.len())?;
    find_set(tables, ids, settings, wanted, out)
}

// Finds the first assignment within the settings that makes every question hold, or says that none does. It writes one number a variable.
pub fn find_within(tables: Tables, settings: Settings, out: &mut [u64]) -> Result<(), Refusal>
    ensures { FindsWithin (lent tables) (lent_settings settings)
        out.old out.new (reply_of result) }
{
    let mut ids = [0u16; ATOMS];
    let count = list_atoms(tables, &mut ids)?;
    find_known(tables, &ids[..count], settings, ALL, out)
}
