// The sliced look-up. For each pair there are two masks over the nogoods: those whose low side wants it taken, and those whose high
// side wants it left out. Going through the pairs of an interval, word by word of the masks, 64 nogoods are weighed at once: dead
// ones that the interval cannot be inside of any more, and how many pairs of the others are open. All of it is a hint: the nogood
// found is compared with the interval, and the pair is looked at, before anything rests on them.
ghost use Rattle.std.specs.Prelude.{◌≡◌, ◌<◌, ◌≤◌, length};
ghost use Rattle.matching.specs.Inner.Search.Nogoods.{Room};
ghost use Rattle.matching.specs.Inner.Sizes.{scratch_size};

use crate::limits::{MASKS, PAIRS, WANTED};
use crate::search::interval::Interval;
use crate::search::sets::next_bit;

const ALL: u64 = 18446744073709551615;

// The masks of a pair: 16 words of those that want it taken, 16 of those that want it left out.
const SLICE: usize = 32;

const LEFT: usize = 16;

// Sets the bit of nogood c in the masks of the pairs of one word.
fn note_word(scratch: &mut [u64], c: usize, word: u64, from: usize)
    requires scratch_len { length scratch.old ≡ scratch_size }
    requires c_bound { (c < 1024) × (from ≤ 14928) }
{
    let mut q = next_bit(word, 0);
    while q < 64 {
        let at = from + q * SLICE + c / 64;
        scratch[at] = scratch[at] | (1 << (c % 64));
        q = next_bit(word, q + 1);
    }
}

// Notes nogood c in the masks, and its pairs among those that some nogood wants.
pub fn note(scratch: &mut [u64], c: usize, full: [u64; 8], nogood: Interval)
    requires scratch_len { length scratch.old ≡ scratch_size }
    requires c_bound { c < 1024 }
{
    let low = nogood.low;
    let high = nogood.high;
    for k in 0..8 {
        let taken = low[k];
        let left = full[k] & (ALL ^ high[k]);
        let from = MASKS + k * 2048;
        note_word(scratch, c, taken, from);
        note_word(scratch, c, left, from + LEFT);
        scratch[WANTED + k] = scratch[WANTED + k] | taken;
        scratch[WANTED + 8 + k] = scratch[WANTED + 8 + k] | left;
    }
}

// Of 64 nogoods: those that cannot be around the interval, those with an open pair that they want taken, with one that they want
// left out, and with more than one open pair.
#[derive(Clone, Copy)]
pub struct Weights {
    pub dead: u64,
    pub want: u64,
    pub once: u64,
    pub twice: u64,
}

// With the masks of the pairs in the word that make a nogood dead.
fn kill(scratch: &[u64], word: u64, from: usize, dead: u64) -> u64
    requires scratch_len { length scratch.now ≡ scratch_size }
    requires from_bound { from ≤ 14943 }
{
    let mut sum = dead;
    let mut q = next_bit(word, 0);
    while q < 64 {
        sum = sum | scratch[from + q * SLICE];
        q = next_bit(word, q + 1);
    }
    sum
}

// With the masks of the open pairs in the word: those that were there, and those that were there twice.
#[derive(Clone, Copy)]
pub struct Counted {
    pub once: u64,
    pub twice: u64,
}

fn count(scratch: &[u64], word: u64, from: usize, before: Counted) -> Counted
    requires scratch_len { length scratch.now ≡ scratch_size }
    requires from_bound { from ≤ 14943 }
{
    let mut once = before.once;
    let mut twice = before.twice;
    let mut q = next_bit(word, 0);
    while q < 64 {
        let mask = scratch[from + q * SLICE];
        twice = twice | (once & mask);
        once = once | mask;
        q = next_bit(word, q + 1);
    }
    Counted { once, twice }
}

// The pairs of variable k, for the word w of the masks.
fn weigh_variable(
    scratch: &[u64],
    w: usize,
    interval: Interval,
    k: usize,
    before: Weights,
) -> Weights
    requires scratch_len { length scratch.now ≡ scratch_size }
    requires w_bound { (w < 16) × (k < 8) }
{
    let lows = interval.low;
    let highs = interval.high;
    let low = lows[k];
    let high = highs[k];
    let taken = scratch[WANTED + k] & (ALL ^ low);
    let left = scratch[WANTED + 8 + k] & high;
    let from = MASKS + k * 2048 + w;
    let dead = kill(scratch, taken & (ALL ^ high), from, before.dead);
    let shut = kill(scratch, left & low, from + LEFT, dead);
    let want = count(
        scratch,
        taken & high,
        from,
        Counted {
            once: before.want,
            twice: before.twice,
        },
    );
    let once = count(
        scratch,
        left & (ALL ^ low),
        from + LEFT,
        Counted {
            once: before.once,
            twice: want.twice,
        },
    );
    Weights {
        dead: shut,
        want: want.once,
        once: once.once,
        twice: once.twice,
    }
}

fn weigh(scratch: &[u64], w: usize, interval: Interval) -> Weights
    requires scratch_len { length scratch.now ≡ scratch_size }
    requires w_bound { w < 16 }
{
    let mut weights = Weights {
        dead: 0,
        want: 0,
        once: 0,
        twice: 0,
    };
    for k in 0..8 {
        weights = weigh_variable(scratch, w, interval, k, weights);
    }
    weights
}

// The place of a nogood that shuts the interval, else of one with a single open pair, else of the first one that is around the low
// side. `spare` says that it is one with a single open pair.
#[derive(Clone, Copy)]
pub struct Hint {
    pub place: usize,
    pub spare: bool,
}

// The better of what was found and of what the word w has.
fn better(found: Option<Hint>, w: usize, unit: u64, around: u64) -> Option<Hint>
    requires { w < 16 }
{
    if let Some(hint) = found {
        if hint.spare {
            return found;
        }
    }
    if unit != 0 {
        return Some(Hint {
            place: w * 64 + next_bit(unit, 0),
            spare: true,
        });
    }
    if found.is_some() {
        return found;
    }
    if around != 0 {
        return Some(Hint {
            place: w * 64 + next_bit(around, 0),
            spare: false,
        });
    }
    None
}

// The nogoods of the word w that are there.
fn present(w: usize, count: usize) -> u64
    requires { w < 16 }
{
    if w * 64 + 64 <= count {
        return ALL;
    }
    if count <= w * 64 {
        return 0;
    }
    ALL >> (64 - (count - w * 64))
}

pub fn choose(store: &[u64], scratch: &[u64], interval: Interval) -> Option<Hint>
    requires room { Room store.now }
    requires scratch_len { length scratch.now ≡ scratch_size }
{
    let count = store[0] as usize;
    let mut found: Option<Hint> = None;
    for w in 0..count.div_ceil(64) {
        let weights = weigh(scratch, w, interval);
        let alive = present(w, count) & (ALL ^ weights.dead);
        let around = alive & (ALL ^ weights.want);
        let shut = around & (ALL ^ weights.once);
        if shut != 0 {
            return Some(Hint {
                place: w * 64 + next_bit(shut, 0),
                spare: false,
            });
        }
        let unit = alive & (ALL ^ weights.twice) & (ALL ^ (weights.want & weights.once));
        found = better(found, w, unit, around);
    }
    found
}

// The highest pair of the word, if there is one, else another: later pairs come first in the order of assignments.
pub fn some_pair(word: u64, k: usize, other: usize) -> usize
    requires { k < 8 }
{
    if word == 0 {
        return other;
    }
    let after = k * 64 + (64 - u64::leading_zeros(word) as usize);
    if after == 0 {
        return other;
    }
    after - 1
}

// The highest open pair of a nogood.
pub fn open_pair(nogood: Interval, interval: Interval) -> usize {
    let low = interval.low;
    let high = interval.high;
    let below = nogood.low;
    let above = nogood.high;
    let mut pair: usize = PAIRS;
    for k in 0..8 {
        let open = high[k] & (ALL ^ low[k]);
        let wanted = below[k] | (ALL ^ above[k]);
        pair = some_pair(open & wanted, k, pair);
    }
    pair
}
