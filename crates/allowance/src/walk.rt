// The walk over the partial choices in their order: an open one is counted and then extended, a shut one is skipped with all that
// extends it.
ghost use Rattle.std.specs.Prelude.{◌≡◌, ◌*◌, ◌≤◌, length};
ghost use Rattle.matching.specs.Inner.Search.Problem.{Shaped};
ghost use Rattle.matching.specs.Inner.Sizes.{scratch_size};
ghost use Rattle.allowance.specs.Inner.Walk.{OpenedBy, Walked};
ghost use Rattle.allowance.specs.Inner.Sizes.{kept_size};

use crate::kept::{KEPT, holds};
use crate::place::Place;
use matching::helpers::{ASKED, MOST, SCRATCH, is_within};
use settings::helpers::is_few;

// What was found, or that the allowance was spent, or that there is nothing to find.
#[derive(Clone, Copy)]
pub enum Ending {
    Found([u64; 8]),
    Spent,
    Absent,
}

// How the walk ended, and how many open ones were met.
#[derive(Clone, Copy)]
pub struct Trail {
    pub ending: Ending,
    pub met: u32,
}

fn is_open(
    sets: &[u64],
    problem: &[u16],
    scratch: &mut [u64],
    kept: &mut [u64],
    permitted: [u64; 8],
    place: Place,
) -> bool
    requires shaped { Shaped sets.now problem.now }
    requires scratch_len { (length scratch.old ≡ scratch_size) × (length kept.old ≡ kept_size) }
    requires permitted_len { (length permitted ≡ 8) × (length place.low ≡ 8) × (length place.high ≡ 8) }
    ensures kept_len { length kept.new ≡ kept_size }
    ensures opened_by { OpenedBy sets.now problem.now permitted place.low place.high kept.old kept.new result }
{
    let low = place.low;
    let high = place.high;
    if !is_within(low, permitted) {
        return false;
    }
    if !is_few(&problem[MOST..ASKED], low) {
        return false;
    }
    if !holds(sets, problem, scratch, kept, low, true) {
        return false;
    }
    holds(sets, problem, scratch, kept, high, false)
}

// `count` is the number of the atoms, `pairs` that of the pairs.
pub fn walk(
    sets: &[u64],
    problem: &[u16],
    permitted: [u64; 8],
    count: usize,
    pairs: usize,
    allowance: u32,
) -> Trail
    requires shaped { Shaped sets.now problem.now }
    requires permitted_len { (length permitted ≡ 8) × (count ≤ 64) × (pairs ≤ 8 * count) }
    ensures { Walked sets.now problem.now permitted count pairs allowance result.ending result.met }
{
    let mut scratch = [0u64; SCRATCH];
    let mut kept = [0u64; KEPT];
    let low = [0u64; 8];
    let mut place = Place {
        low,
        high: permitted,
        settled: 0,
    };
    let mut met: u32 = 0;
    // from place to place until the walk is over: nothing counts them beforehand
    loop {
        if is_open(sets, problem, &mut scratch, &mut kept, permitted, place) {
            if met == allowance {
                return Trail {
                    ending: Ending::Spent,
                    met,
                };
            }
            met += 1;
            if place.settled == pairs {
                return Trail {
                    ending: Ending::Found(place.low),
                    met,
                };
            }
            let next = place.leave(count);
            place = next;
            continue;
        }
        let next = place.next_sibling(permitted, count);
        let Some(sibling) = next else {
            return Trail {
                ending: Ending::Absent,
                met,
            };
        };
        place = sibling;
    }
}
