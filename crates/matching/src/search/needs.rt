// Needs: a nogood that is around an interval's low side and of its high side leaves out pairs of one variable only says that every
// solution in the interval takes one of those pairs. Needs without a pair in common want as many atoms as they are. So where they
// and what the low side takes are more than the variable's largest count, there is no solution, and that is seen without splitting
// at any of them.
ghost use Rattle.std.specs.Prelude.{◌≡◌, ◌<◌, length};
ghost use Rattle.matching.specs.Inner.Search.Nogoods.{used, Room};
ghost use Rattle.matching.specs.Inner.Search.Pairs.{Joined};
ghost use Rattle.matching.specs.Inner.Search.Needs.{NeedAt, Kept, WantedOver};
ghost use Rattle.matching.specs.Inner.Sizes.{problem_size};

use crate::limits::MOST;
use crate::search::interval::Interval;
use crate::search::nogoods::nogood_at;
use crate::search::pairs::{is_within, join, meet};
use settings::helpers::size_of;

// The pairs of variable k that the nogood at place c wants one of, if it is a need and none of them was met before; else no pairs.
fn need_at(store: &[u64], c: usize, high: [u64; 8], low: [u64; 8], k: usize, met: u64) -> u64
    requires room { Room store.now }
    requires c_bound { (c < used store.now) × (k < 8) }
    requires high_len { (length high ≡ 8) × (length low ≡ 8) }
    ensures { NeedAt store.now c high low k met result }
{
    let kept = store[c * 16 + 9 + k];
    let wanted = (kept | high[k]) ^ kept;
    if wanted & met != 0 {
        return 0;
    }
    if wanted == 0 {
        return 0;
    }
    let nogood = nogood_at(store, c);
    let below = nogood.low;
    let above = nogood.high;
    let mut rest = high;
    rest[k] = 0;
    if is_within(below, low) & is_within(rest, above) {
        return wanted;
    }
    0
}

// What a nogood takes added, and what it leaves out of others than the high side taken away.
fn with_below(about: [u64; 8], nogood: Interval) -> [u64; 8]
    requires { (length about ≡ 8) × (length nogood.low ≡ 8) }
    ensures { Joined about nogood.low result }
{
    let below = nogood.low;
    join(about, below)
}

fn with_above(allowed: [u64; 8], nogood: Interval, high: [u64; 8]) -> [u64; 8]
    requires { (length allowed ≡ 8) × (length nogood.high ≡ 8) × (length high ≡ 8) }
    ensures { Kept allowed nogood.high high result }
{
    let above = nogood.high;
    let upper = join(above, high);
    meet(allowed, upper)
}

// An interval around the asked one that holds no solution, if more is wanted of variable k than its largest count.
fn count_needs(
    problem: &[u16],
    store: &[u64],
    full: [u64; 8],
    interval: Interval,
    k: usize,
) -> Option<Interval>
    requires problem_len { length problem.now ≡ problem_size }
    requires room { Room store.now }
    requires full_len { (length full ≡ 8) × (length interval.low ≡ 8) × (length interval.high ≡ 8) × (k < 8) }
    ensures { WantedOver problem.now store.now full interval.low interval.high result }
{
    let low = interval.low;
    let high = interval.high;
    let most = problem[MOST + k] as u32;
    let count = store[0] as usize;
    let mut about = [0u64; 8];
    about[k] = low[k];
    let mut allowed = full;
    let mut met = low[k];
    let mut sum = size_of(low[k]);
    for c in 0..count {
        let wanted = need_at(store, c, high, low, k, met);
        if wanted == 0 {
            continue;
        }
        let nogood = nogood_at(store, c);
        let more = with_below(about, nogood);
        let fewer = with_above(allowed, nogood, high);
        about = more;
        allowed = fewer;
        met = met | wanted;
        sum += 1;
        if sum > most {
            return Some(Interval {
                low: about,
                high: allowed,
            });
        }
    }
    None
}

// The largest count of the variable may stop an interval with these sides, and has not been reached. A hint only.
fn is_counted(most: u16, low: u64, high: u64) -> bool {
    if size_of(low) >= most as u32 {
        return false;
    }
    size_of(high) > most as u32
}

// The same of the first variable of which more is wanted.
pub fn count_all(
    problem: &[u16],
    store: &[u64],
    full: [u64; 8],
    interval: Interval,
) -> Option<Interval>
    requires problem_len { length problem.now ≡ problem_size }
    requires room { Room store.now }
    requires full_len { (length full ≡ 8) × (length interval.low ≡ 8) × (length interval.high ≡ 8) }
    ensures { WantedOver problem.now store.now full interval.low interval.high result }
{
    let low = interval.low;
    let high = interval.high;
    for k in 0..8 {
        if !is_counted(problem[MOST + k], low[k], high[k]) {
            continue;
        }
        let wanted = count_needs(problem, store, full, interval, k);
        if wanted.is_some() {
            return wanted;
        }
    }
    None
}
