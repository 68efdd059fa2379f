// The search for an assignment between two others. Questions without a variable on the right stay true when atoms are
// added, the others when atoms are removed: so a failed test makes a nogood, an interval that holds no solution. An
// interval is split until its low side passes every test or a nogood around it is known; the nogoods of the two halves
// give one of the whole, and a half whose nogood does not mention the pair speaks for the whole at once.
ghost use Rattle.std.specs.Prelude.{◌≡◌, true, false, ◌<◌, length};
ghost use Rattle.matching.specs.Solving.{takes};
ghost use Rattle.matching.specs.Inner.Search.Problem.{Shaped, question_count};
ghost use Rattle.matching.specs.Inner.Search.Lent.{Lent};
ghost use Rattle.matching.specs.Inner.Search.Nogoods.{Room};
ghost use Rattle.matching.specs.Inner.Search.Solve.{FailingOf, Failing, RefutedBy, Searched, Long, Answers, Stepped, CanSplit, Recalled, Shutting, Merged};
ghost use Rattle.matching.specs.Inner.Sizes.{problem_size, scratch_size};

use crate::limits::{ASKED, HELD, HINT, MOST, PAIRS, QUESTION_COUNT, SIDES};
use crate::search::interval::{Interval, has_bit, pick_undecided};
use crate::search::lookup::{choose, open_pair, some_pair};
use crate::search::needs::count_all;
use crate::search::nogoods::{add, nogood_at};
use crate::search::pairs::{is_within, join, meet, with_pair, without_pair};
use crate::search::patterns::question_holds;
use crate::search::widen::widen;
use settings::helpers::{clamp, is_few, unclamp};
use subsumption::limits::ATOMS;

const ALL: u64 = 18446744073709551615;
// How many nogoods are kept: of those that tests cost all, of those that come by merging only while there is much room.
const TESTED: u64 = 1024;

const MERGED: u64 = 640;

// No nogood stands there.
const NONE: usize = 1024;

// A solution, or an interval around the asked one that holds none.
#[derive(Clone, Copy)]
pub enum Answer {
    Solution([u64; 8]),
    Nogood(Interval),
}

// The first asked question that does not hold, of those whose right side holds a variable just where `right` says so, or the number of all.
pub fn failing_of(
    sets: &[u64],
    problem: &[u16],
    scratch: &mut [u64],
    choice: [u64; 8],
    right: bool,
) -> usize
    requires shaped { Shaped sets.now problem.now }
    requires scratch_len { length scratch.old ≡ scratch_size }
    ensures { FailingOf sets.now problem.now choice right result }
{
    let count = problem[QUESTION_COUNT] as usize;
    for m in 0..count {
        if problem[ASKED + m] != 1 {
            continue;
        }
        let side = problem[SIDES + m * 2 + 1] as usize;
        if (problem[HELD + side] == 1) != right {
            continue;
        }
        if question_holds(sets, problem, scratch, m, choice) {
            continue;
        }
        return m;
    }
    count
}

// An asked question that does not hold, or the number of all.
fn failing(sets: &[u64], problem: &[u16], scratch: &mut [u64], choice: [u64; 8]) -> usize
    requires shaped { Shaped sets.now problem.now }
    requires scratch_len { length scratch.old ≡ scratch_size }
    ensures { Failing sets.now problem.now choice result }
{
    let first = failing_of(sets, problem, scratch, choice, true);
    if first < problem[QUESTION_COUNT] as usize {
        return first;
    }
    failing_of(sets, problem, scratch, choice, false)
}

// A nogood around the low side, where question m fails.
fn refute(
    sets: &[u64],
    problem: &[u16],
    scratch: &mut [u64],
    full: [u64; 8],
    low: [u64; 8],
    m: usize,
) -> Interval
    requires shaped { Shaped sets.now problem.now }
    requires scratch_len { (length scratch.old ≡ scratch_size) × (m < question_count problem.now) }
    requires full_len { (length full ≡ 8) × (length low ≡ 8) }
    ensures low_len { (length result.low ≡ 8) × (length result.high ≡ 8) }
    ensures refuted_by { RefutedBy sets.now problem.now full low m result.low result.high }
{
    let empty = [0u64; 8];
    let side = problem[SIDES + m * 2 + 1] as usize;
    if problem[HELD + side] == 1 {
        let core = widen(sets, problem, scratch, m, low, empty);
        return Interval {
            low: core,
            high: full,
        };
    }
    let rest = widen(sets, problem, scratch, m, low, full);
    Interval {
        low: empty,
        high: rest,
    }
}

// The low side by itself: a solution, or a nogood around it, which is kept.
fn try_low(
    sets: &[u64],
    problem: &[u16],
    store: &mut [u64],
    scratch: &mut [u64],
    full: [u64; 8],
    low: [u64; 8],
) -> Answer
    requires lent { Lent sets.now problem.now store.old scratch.old }
    requires full_len { (length full ≡ 8) × (length low ≡ 8) }
    ensures long { Long result }
    ensures room { Room store.new }
    ensures searched { Searched sets.now problem.now full low low store.old store.new
        (λ t. Answers t problem.now low low result) }
{
    if !is_few(&problem[MOST..ASKED], low) {
        return Answer::Nogood(Interval { low, high: full });
    }
    let m = failing(sets, problem, scratch, low);
    if m < problem[QUESTION_COUNT] as usize {
        let nogood = refute(sets, problem, scratch, full, low, m);
        add(store, scratch, TESTED, full, nogood);
        return Answer::Nogood(nogood);
    }
    Answer::Solution(low)
}

// A pair of the one that the other leaves out, if there is one. A hint only.
fn pair_outside(a: [u64; 8], b: [u64; 8]) -> usize {
    let mut pair: usize = PAIRS;
    for k in 0..8 {
        let word = a[k] & (ALL ^ b[k]);
        pair = some_pair(word, k, pair);
    }
    pair
}

// A pair to split at, with the place of the nogood that proposed it, and whether the pair was its last open one.
#[derive(Clone, Copy)]
pub struct Split {
    pub pair: usize,
    pub place: usize,
    pub spare: bool,
}

// One step at an interval.
#[derive(Clone, Copy)]
pub enum Step {
    Answered(Answer),
    Splits(Split),
}

// By testing the low side.
fn step_by_test(
    sets: &[u64],
    problem: &[u16],
    store: &mut [u64],
    scratch: &mut [u64],
    full: [u64; 8],
    interval: Interval,
) -> Step
    requires lent { Lent sets.now problem.now store.old scratch.old }
    requires full_len { (length full ≡ 8) × (length interval.low ≡ 8) × (length interval.high ≡ 8) }
    ensures room { Room store.new }
    ensures stepped { Stepped sets.now problem.now full interval.low interval.high store.old store.new result }
{
    let low = interval.low;
    let high = interval.high;
    let tried = try_low(sets, problem, store, scratch, full, low);
    let Answer::Nogood(nogood) = tried else {
        return Step::Answered(tried);
    };
    let above = nogood.high;
    if is_within(high, above) {
        return Step::Answered(tried);
    }
    let pick = pick_undecided(interval, pair_outside(high, above));
    match pick {
        Some(pair) => Step::Splits(Split {
            pair,
            place: NONE,
            spare: false,
        }),
        None => Step::Answered(Answer::Nogood(interval)),
    }
}

// The nogood at a place, if one stands there.
fn look_up(store: &[u64], place: usize) -> Option<Interval>
    requires { Room store.now }
    ensures { Recalled store.now result }
{
    if place < store[0] as usize {
        return Some(nogood_at(store, place));
    }
    None
}

// The interval is inside the nogood.
fn is_shut(interval: Interval, nogood: Interval) -> bool
    requires low_len { (length interval.low ≡ 8) × (length interval.high ≡ 8) }
    requires low_len_2 { (length nogood.low ≡ 8) × (length nogood.high ≡ 8) }
    ensures { Shutting interval.low interval.high nogood.low nogood.high result }
{
    let low = interval.low;
    let high = interval.high;
    let below = nogood.low;
    let above = nogood.high;
    is_within(below, low) & is_within(high, above)
}

fn can_split(interval: Interval, pair: usize) -> bool
    ensures { CanSplit interval.low interval.high pair result }
{
    if pair < PAIRS {
        return interval.is_undecided(pair);
    }
    false
}

// By a nogood that the look-up finds, if one helps, else by testing the low side.
fn step_by_choice(
    sets: &[u64],
    problem: &[u16],
    store: &mut [u64],
    scratch: &mut [u64],
    full: [u64; 8],
    interval: Interval,
) -> Step
    requires lent { Lent sets.now problem.now store.old scratch.old }
    requires full_len { (length full ≡ 8) × (length interval.low ≡ 8) × (length interval.high ≡ 8) }
    ensures room { Room store.new }
    ensures stepped { Stepped sets.now problem.now full interval.low interval.high store.old store.new result }
{
    if let Some(hint) = choose(store, scratch, interval) {
        let place = hint.place;
        if let Some(nogood) = look_up(store, place) {
            if is_shut(interval, nogood) {
                return Step::Answered(Answer::Nogood(nogood));
            }
            let pair = open_pair(nogood, interval);
            if can_split(interval, pair) {
                let spare = hint.spare;
                return Step::Splits(Split { pair, place, spare });
            }
        }
    }
    step_by_test(sets, problem, store, scratch, full, interval)
}

// By the nogood that proposed the last split, if it shuts the interval.
fn step_by_hint(
    sets: &[u64],
    problem: &[u16],
    store: &mut [u64],
    scratch: &mut [u64],
    full: [u64; 8],
    interval: Interval,
) -> Step
    requires lent { Lent sets.now problem.now store.old scratch.old }
    requires full_len { (length full ≡ 8) × (length interval.low ≡ 8) × (length interval.high ≡ 8) }
    ensures room { Room store.new }
    ensures stepped { Stepped sets.now problem.now full interval.low interval.high store.old store.new result }
{
    if let Some(nogood) = look_up(store, scratch[HINT] as usize) {
        if is_shut(interval, nogood) {
            return Step::Answered(Answer::Nogood(nogood));
        }
    }
    step_by_choice(sets, problem, store, scratch, full, interval)
}

// At the clamped interval, its nogood as one of the whole.
fn step_by_clamp(
    sets: &[u64],
    problem: &[u16],
    store: &mut [u64],
    scratch: &mut [u64],
    full: [u64; 8],
    interval: Interval,
) -> Step
    requires lent { Lent sets.now problem.now store.old scratch.old }
    requires full_len { (length full ≡ 8) × (length interval.low ≡ 8) × (length interval.high ≡ 8) }
    ensures room { Room store.new }
    ensures stepped { Stepped sets.now problem.now full interval.low interval.high store.old store.new result }
{
    let low = interval.low;
    let high = interval.high;
    let inner = clamp(&problem[MOST..ASKED], low, high);
    let step = step_by_hint(
        sets,
        problem,
        store,
        scratch,
        full,
        Interval { low, high: inner },
    );
    let Step::Answered(answer) = step else {
        return step;
    };
    let Answer::Nogood(inside) = answer else {
        return step;
    };
    let (low, high) = unclamp(full, low, high, inner, inside.low, inside.high);
    Step::Answered(Answer::Nogood(Interval { low, high }))
}

// A largest count may stop a variable that has something to take. A hint only.
fn is_bounded(problem: &[u16], full: [u64; 8]) -> bool
    requires { length problem.now ≡ problem_size }
{
    (0..8).any(|k| full[k] != 0 && problem[MOST + k] < 64)
}

// By counting needs, if more is wanted than a largest count; without such counts there is nothing to clamp.
fn next_step(
    sets: &[u64],
    problem: &[u16],
    store: &mut [u64],
    scratch: &mut [u64],
    full: [u64; 8],
    interval: Interval,
) -> Step
    requires lent { Lent sets.now problem.now store.old scratch.old }
    requires full_len { (length full ≡ 8) × (length interval.low ≡ 8) × (length interval.high ≡ 8) }
    ensures room { Room store.new }
    ensures stepped { Stepped sets.now problem.now full interval.low interval.high store.old store.new result }
{
    if !is_bounded(problem, full) {
        return step_by_hint(sets, problem, store, scratch, full, interval);
    }
    if let Some(nogood) = count_all(problem, store, full, interval) {
        return Step::Answered(Answer::Nogood(nogood));
    }
    step_by_clamp(sets, problem, store, scratch, full, interval)
}

// The next step looks at this nogood first.
fn note_hint(scratch: &mut [u64], place: usize)
    requires { length scratch.old ≡ scratch_size }
{
    scratch[HINT] = place as u64;
}

// Of the nogoods with a pair and without it, one that speaks of either.
fn merge(with: Interval, without: Interval, k: usize, q: usize) -> Interval
    requires low_len { (length with.low ≡ 8) × (length with.high ≡ 8) }
    requires low_len_2 { (length without.low ≡ 8) × (length without.high ≡ 8) }
    requires k_bound { (k < 8) × (q < 64) }
    requires q_value { takes with.low k q ≡ true }
    ensures { Merged with.low with.high without.low without.high k q result.low result.high }
{
    let low_with = with.low;
    let high_with = with.high;
    let low_without = without.low;
    let high_without = without.high;
    let fewer = without_pair(low_with, k, q);
    let more = with_pair(high_without, k, q);
    let low = join(fewer, low_without);
    let high = meet(high_with, more);
    Interval { low, high }
}

// Some solution between the two sides, or a nogood around them: no order is promised, so that any pair may be split. The nogood of
// two halves is kept unless the pair was the last open one of a known nogood: then it says little more than that one.
pub fn some_solution(
    sets: &[u64],
    problem: &[u16],
    store: &mut [u64],
    scratch: &mut [u64],
    full: [u64; 8],
    interval: Interval,
) -> Answer
    requires lent { Lent sets.now problem.now store.old scratch.old }
    requires full_len { (length full ≡ 8) × (length interval.low ≡ 8) × (length interval.high ≡ 8) }
    ensures long { Long result }
    ensures room { Room store.new }
    ensures searched { Searched sets.now problem.now full interval.low interval.high store.old store.new
        (λ t. Answers t problem.now interval.low interval.high result) }
{
    let step = next_step(sets, problem, store, scratch, full, interval);
    let split = match step {
        Step::Answered(answer) => return answer,
        Step::Splits(split) => split,
    };
    let k = split.pair / ATOMS;
    let q = split.pair % ATOMS;
    note_hint(scratch, split.place);
    let taken = interval.take(k, q);
    let with = some_solution(sets, problem, store, scratch, full, taken);
    let Answer::Nogood(first) = with else {
        return with;
    };
    let needs = first.low;
    if !has_bit(needs[k], q) {
        return with;
    }
    note_hint(scratch, split.place);
    let left = interval.leave(k, q);
    let without = some_solution(sets, problem, store, scratch, full, left);
    let Answer::Nogood(second) = without else {
        return without;
    };
    let allows = second.high;
    if has_bit(allows[k], q) {
        return without;
    }
    let both = merge(first, second, k, q);
    if split.spare {
        return Answer::Nogood(both);
    }
    add(store, scratch, MERGED, full, both);
    Answer::Nogood(both)
}
