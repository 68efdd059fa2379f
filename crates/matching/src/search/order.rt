// The first solution: the pairs are walked in their order, and a pair is left out whenever a solution remains without it.
ghost use Rattle.std.specs.Prelude.{◌≡◌, length};
ghost use Rattle.matching.specs.Inner.Search.Lent.{Lent};
ghost use Rattle.matching.specs.Inner.Search.Order.{FirstOf};

use crate::limits::PAIRS;
use crate::search::interval::{Interval, has_bit};
use crate::search::solve::{Answer, some_solution};
use subsumption::limits::ATOMS;

// `known` is any solution; the last one found is kept, so that a pair it leaves out costs nothing.
pub fn first_solution(
    sets: &[u64],
    problem: &[u16],
    store: &mut [u64],
    scratch: &mut [u64],
    start: Interval,
    known: [u64; 8],
) -> [u64; 8]
    requires lent { Lent sets.now problem.now store.old scratch.old }
    requires low_len { (length start.low ≡ 8) × (length start.high ≡ 8) × (length known ≡ 8) }
    ensures { FirstOf sets.now problem.now start.low start.high store.old known result }
{
    let full = start.high;
    let mut interval = start;
    let mut witness = known;
    for p in 0..PAIRS {
        if !interval.is_undecided(p) {
            continue;
        }
        let without = interval.leave(p / ATOMS, p % ATOMS);
        if !has_bit(witness[p / ATOMS], p % ATOMS) {
            interval = without;
            continue;
        }
        let s = some_solution(sets, problem, store, scratch, full, without);
        if let Answer::Solution(choice) = s {
            interval = without;
            witness = choice;
            continue;
        }
        interval = interval.take(p / ATOMS, p % ATOMS);
    }
    witness
}
