// A partial choice as words: what is taken where the unsettled atoms are left out, what where the permitted ones of them are taken,
// and how many pairs are settled. The pairs are counted through, `count` positions a variable.
ghost use Rattle.std.specs.Prelude.{◌≡◌, true, false, ◌+◌, ◌*◌, ◌-◌, ◌/◌, ◌%◌, ◌<◌, ◌≤◌, length};
ghost use Rattle.matching.specs.Solving.{takes};
ghost use Rattle.matching.specs.Inner.Search.Pairs.{Changed};
ghost use Rattle.allowance.specs.Inner.Place.{NextFrom};

use matching::helpers::{has_bit, with_pair, without_pair};

#[derive(Clone, Copy)]
pub struct Place {
    pub low: [u64; 8],
    pub high: [u64; 8],
    pub settled: usize,
}

// The set with the pair or without it.
fn with_bit(set: [u64; 8], p: usize, count: usize, taken: bool) -> [u64; 8]
    requires set_len { length set ≡ 8 }
    requires count_bound { (count ≤ 64) × (p < 8 * count) }
    ensures { Changed set result (p / count) (p % count) taken }
{
    let k = p / count;
    let q = p % count;
    if taken {
        return with_pair(set, k, q);
    }
    if has_bit(set[k], q) {
        return without_pair(set, k, q);
    }
    set
}

impl Place {
    // The next pair left out.
    pub fn leave(self, count: usize) -> Place
        requires low_len { (length self.low ≡ 8) × (length self.high ≡ 8) }
        requires count_bound { (count ≤ 64) × (self.settled < 8 * count) }
        ensures low_value { (result.low ≡ self.low) × (result.settled ≡ self.settled + 1) }
        ensures changed { Changed self.high result.high (self.settled / count) (self.settled % count) false }
    {
        let low = self.low;
        let high = self.high;
        let fewer = with_bit(high, self.settled, count, false);
        Place {
            low,
            high: fewer,
            settled: self.settled + 1,
        }
    }

    // The next pair taken, permitted or not.
    fn take(self, count: usize) -> Place
        requires low_len { (length self.low ≡ 8) × (length self.high ≡ 8) }
        requires count_bound { (count ≤ 64) × (self.settled < 8 * count) }
        ensures settled_value { result.settled ≡ self.settled + 1 }
        ensures changed { Changed self.low result.low (self.settled / count) (self.settled % count) true }
        ensures changed_2 { Changed self.high result.high (self.settled / count) (self.settled % count) true }
    {
        let low = self.low;
        let high = self.high;
        let below = with_bit(low, self.settled, count, true);
        let above = with_bit(high, self.settled, count, true);
        Place {
            low: below,
            high: above,
            settled: self.settled + 1,
        }
    }

    // The last settled pair is taken.
    fn is_taken(self, count: usize) -> bool
        requires { (count ≤ 64) × (0 < self.settled) × (self.settled ≤ 8 * count) }
        ensures { result ≡ takes self.low ((self.settled - 1) / count) ((self.settled - 1) % count) }
    {
        let p = self.settled - 1;
        let low = self.low;
        has_bit(low[p / count], p % count)
    }

    // The last settled pair unsettled again.
    fn up(self, permitted: [u64; 8], count: usize) -> Place
        requires low_len { (length self.low ≡ 8) × (length self.high ≡ 8) }
        requires count_bound { (count ≤ 64) × (0 < self.settled) × (self.settled ≤ 8 * count) }
        ensures settled_value { result.settled ≡ self.settled - 1 }
        ensures changed { Changed self.low result.low ((self.settled - 1) / count) ((self.settled - 1) % count) false }
        ensures changed_2 { Changed self.high result.high ((self.settled - 1) / count) ((self.settled - 1) % count)
            (takes permitted ((self.settled - 1) / count) ((self.settled - 1) % count)) }
    {
        let p = self.settled - 1;
        let low = self.low;
        let high = self.high;
        let may = has_bit(permitted[p / count], p % count);
        let below = with_bit(low, p, count, false);
        let above = with_bit(high, p, count, may);
        Place {
            low: below,
            high: above,
            settled: p,
        }
    }

    // The next partial choice in the order that does not extend this one, if there is one.
    pub fn next_sibling(self, permitted: [u64; 8], count: usize) -> Option<Place>
        requires low_len { (length self.low ≡ 8) × (length self.high ≡ 8) }
        requires count_bound { (count ≤ 64) × (self.settled ≤ 8 * count) }
        ensures { NextFrom count permitted self.low self.high self.settled result }
    {
        let mut at = self;
        // up the parents to the first that goes on: the place itself says how many are left
        while at.settled > 0 {
            let taken = at.is_taken(count);
            let parent = at.up(permitted, count);
            at = parent;
            if !taken {
                return Some(at.take(count));
            }
        }
        None
    }
}
