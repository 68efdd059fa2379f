// Nogoods: intervals that hold no solution, kept for the whole search. A nogood shuts every interval inside it, and tells
// which pairs are worth splitting. They stand in one list: how many, then the low and the high side of each.
ghost use Rattle.std.specs.Prelude.{◌≡◌, ◌+◌, ◌<◌, ◌≤◌, length};
ghost use Rattle.matching.specs.Inner.Search.Nogoods.{words, used, low_at, high_at, Room, Put, Added};
ghost use Rattle.matching.specs.Inner.Sizes.{scratch_size};

use crate::search::interval::Interval;
use crate::search::lookup::note;

pub fn fetch(store: &[u64], at: usize) -> [u64; 8]
    requires { at + 8 ≤ length store.now }
    ensures { result ≡ words store.now at }
{
    let mut set = [0u64; 8];
    set.copy_from_slice(&store[at..at + 8]);
    set
}

pub fn put(store: &mut [u64], at: usize, set: [u64; 8])
    requires { at + 8 ≤ length store.old }
    ensures { Put at set store.old store.new }
{
    store[at..at + 8].copy_from_slice(&set);
}

// Keeps one more, while there are fewer than `most`, and notes it for the look-up.
pub fn add(store: &mut [u64], scratch: &mut [u64], most: u64, full: [u64; 8], nogood: Interval)
    requires room { Room store.old }
    requires most_bound { most ≤ 1024 }
    requires scratch_len { length scratch.old ≡ scratch_size }
    requires low_len { (length nogood.low ≡ 8) × (length nogood.high ≡ 8) }
    ensures { Added nogood.low nogood.high store.old store.new }
{
    let filled = store[0];
    if filled >= most {
        return;
    }
    let at = filled as usize * 16;
    let low = nogood.low;
    let high = nogood.high;
    put(store, at + 1, low);
    put(store, at + 9, high);
    store[0] = filled + 1;
    note(scratch, filled as usize, full, nogood);
}

pub fn nogood_at(store: &[u64], c: usize) -> Interval
    requires room { Room store.now }
    requires c_bound { c < used store.now }
    ensures { (result.low ≡ low_at store.now c) × (result.high ≡ high_at store.now c) }
{
    let low = fetch(store, c * 16 + 1);
    let high = fetch(store, c * 16 + 9);
    Interval { low, high }
}
