// A failed question is carried by itself as far as it goes on failing: towards no pair where it wants fewer, towards every pair
// where it wants more. What comes out shuts a whole side of an interval. The variables that it does not hold go first, all at once.
ghost use Rattle.std.specs.Prelude.{◌≡◌, ◌≤◌, ◌<◌, length};
ghost use Rattle.matching.specs.Inner.Search.Problem.{Shaped};
ghost use Rattle.matching.specs.Inner.Search.Widen.{Mixed, StillFails};
ghost use Rattle.matching.specs.Inner.Sizes.{scratch_size};

use crate::limits::{HOLDS, PAIRS};
use crate::search::interval::ones;
use crate::search::patterns::question_holds;
use subsumption::limits::ATOMS;

const ALL: u64 = 18446744073709551615;

// The lowest bits, all 64 at most.
fn low_bits(count: usize) -> u64 {
    if count < ATOMS {
        return ones(count);
    }
    ALL
}

// The bits of a variable's number that stand outside the run of pairs.
fn outside(k: usize, from: usize, size: usize) -> u64
    requires { (k < 8) × (from ≤ 512) × (size ≤ 512) }
{
    let start = k * ATOMS;
    let end = from + size;
    if end <= start {
        return ALL;
    }
    if start <= from {
        return ALL ^ (low_bits(end - start) ^ low_bits(from - start));
    }
    ALL ^ low_bits(end - start)
}

// The choice with a run of pairs as in the target.
fn with_run(choice: [u64; 8], target: [u64; 8], from: usize, size: usize) -> [u64; 8]
    requires from_bound { (from ≤ 512) × (size ≤ 512) }
    requires choice_len { (length choice ≡ 8) × (length target ≡ 8) }
    ensures { Mixed choice target result }
{
    let mut mix = choice;
    for k in 0..8 {
        let out = outside(k, from, size);
        mix[k] = (choice[k] | (target[k] & (ALL ^ out))) & (target[k] | out);
    }
    mix
}

fn is_same(a: [u64; 8], b: [u64; 8]) -> bool {
    a == b
}

fn twice(size: usize) -> usize
    ensures { (1 ≤ result) × (result ≤ 512) }
{
    if size == 0 {
        return 1;
    }
    if size < 256 {
        return size + size;
    }
    PAIRS
}

// Where a run of that size starts that ends there.
fn start_of(end: usize, size: usize) -> usize
    ensures { result ≤ end }
{
    if size < end {
        return end - size;
    }
    0
}

// The choice with the variables as in the target that are not in the set.
fn with_others(choice: [u64; 8], target: [u64; 8], held: u16) -> [u64; 8]
    requires { (length choice ≡ 8) × (length target ≡ 8) }
    ensures { Mixed choice target result }
{
    let mut mix = choice;
    for k in 0..8 {
        if (held >> k) % 2 == 1 {
            continue;
        }
        mix[k] = target[k];
    }
    mix
}

// Runs are set as in the target, from the last pair down, and halved where the question would hold: so the first variables
// are left to be what a failure is about.
fn widen_runs(
    sets: &[u64],
    problem: &[u16],
    scratch: &mut [u64],
    m: usize,
    choice: [u64; 8],
    target: [u64; 8],
) -> [u64; 8]
    requires shaped { Shaped sets.now problem.now }
    requires scratch_len { (length scratch.old ≡ scratch_size) × (m < 32) }
    requires choice_len { (length choice ≡ 8) × (length target ≡ 8) }
    ensures mixed { Mixed choice target result }
    ensures still_fails { StillFails sets.now problem.now m choice target result }
{
    let mut failing = choice;
    let mut from: usize = 0;
    let mut size: usize = PAIRS;
    // the step is doubled where it may be taken and halved where not
    while from < PAIRS {
        let end = PAIRS - from;
        let start = start_of(end, size);
        let next = with_run(failing, target, start, end - start);
        if is_same(next, failing) {
            from += size;
            size = twice(size);
            continue;
        }
        if !question_holds(sets, problem, scratch, m, next) {
            failing = next;
            from += size;
            size = twice(size);
            continue;
        }
        if size == 1 {
            from += 1;
            continue;
        }
        size = size / 2;
    }
    failing
}

pub fn widen(
    sets: &[u64],
    problem: &[u16],
    scratch: &mut [u64],
    m: usize,
    choice: [u64; 8],
    target: [u64; 8],
) -> [u64; 8]
    requires shaped { Shaped sets.now problem.now }
    requires scratch_len { (length scratch.old ≡ scratch_size) × (m < 32) }
    requires choice_len { (length choice ≡ 8) × (length target ≡ 8) }
    ensures mixed { Mixed choice target result }
    ensures still_fails { StillFails sets.now problem.now m choice target result }
{
    let own = with_others(choice, target, problem[HOLDS + m]);
    if question_holds(sets, problem, scratch, m, own) {
        return widen_runs(sets, problem, scratch, m, choice, target);
    }
    widen_runs(sets, problem, scratch, m, own, target)
}
