// An interval of assignments: what is taken for certain, and what may still be taken. Eight numbers each, of which
// the variables' are read. Taking and leaving hand the interval back.
ghost use Rattle.std.specs.Prelude.{◌≡◌, true, false, ◌-◌, ◌<◌, ◌≤◌, ◌^◌, length};
ghost use Rattle.subsumption.specs.Atoms.{bit};
ghost use Rattle.matching.specs.Solving.{takes};
ghost use Rattle.matching.specs.Inner.Search.Pairs.{Changed};
ghost use Rattle.matching.specs.Inner.Search.Interval.{undecided, Picked};

use crate::limits::PAIRS;
use crate::search::pairs::{with_pair, without_pair};
use subsumption::limits::ATOMS;

#[derive(Clone, Copy)]
pub struct Interval {
    pub low: [u64; 8],
    pub high: [u64; 8],
}

pub fn has_bit(x: u64, q: usize) -> bool
    requires { q < 64 }
    ensures { result ≡ bit x q }
{
    (x >> q) % 2 == 1
}

// The lowest bits.
pub fn ones(count: usize) -> u64
    requires { count ≤ 64 }
    ensures { result ≡ 2 ^ count - 1 }
{
    if count == ATOMS {
        return 18446744073709551615;
    }
    (1 << count) - 1
}

impl Interval {
    pub fn take(mut self, k: usize, q: usize) -> Interval
        requires low_len { length self.low ≡ 8 }
        requires k_bound { (k < 8) × (q < 64) }
        ensures high_value { result.high ≡ self.high }
        ensures changed { Changed self.low result.low k q true }
    {
        let low = self.low;
        let more = with_pair(low, k, q);
        self.low = more;
        self
    }

    pub fn leave(mut self, k: usize, q: usize) -> Interval
        requires high_len { length self.high ≡ 8 }
        requires k_bound { (k < 8) × (q < 64) }
        requires q_value { takes self.high k q ≡ true }
        ensures low_value { result.low ≡ self.low }
        ensures changed { Changed self.high result.high k q false }
    {
        let high = self.high;
        let fewer = without_pair(high, k, q);
        self.high = fewer;
        self
    }

    // The pair may be taken or left.
    pub fn is_undecided(self, p: usize) -> bool
        requires { p < 512 }
        ensures { result ≡ undecided self.low self.high p }
    {
        let low = self.low;
        let high = self.high;
        let k = p / ATOMS;
        let q = p % ATOMS;
        if has_bit(high[k], q) {
            return !has_bit(low[k], q);
        }
        false
    }
}

// The first pair that may be taken or left. The pairs of variable and position are counted through, 64 positions a variable.
pub fn first_undecided(interval: Interval) -> Option<usize>
    ensures { Picked interval.low interval.high result }
{
    for p in 0..PAIRS {
        if interval.is_undecided(p) {
            return Some(p);
        }
    }
    None
}

// The pair at the hint if it may be taken or left, else the first such.
pub fn pick_undecided(interval: Interval, hint: usize) -> Option<usize>
    ensures { Picked interval.low interval.high result }
{
    if hint < PAIRS {
        if interval.is_undecided(hint) {
            return Some(hint);
        }
    }
    first_undecided(interval)
}
