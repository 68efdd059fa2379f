// How many pairs the columns hold: of each column the ones among the ids.
ghost use Rattle.std.specs.Prelude.{◌≡◌, ◌-◌, ◌<◌, ◌≤◌, length};
ghost use Rattle.subsumption.specs.Atoms.{bit};
ghost use Rattle.subsumption.specs.Table.{counted, total};
ghost use Rattle.subsumption.specs.Inner.Columns.{has};
ghost use Rattle.subsumption.specs.Inner.Sizes.{columns_size};

use crate::limits::WORDS;

// The ones among the lowest n bits of a word.
fn ones_below(word: u64, n: usize) -> usize
    ensures value { result ≡ counted (bit word) n }
    ensures upper_bound { result ≤ 64 }
{
    if 64 <= n {
        return u64::count_ones(word) as usize;
    }
    u64::count_ones(word % (1 << n)) as usize
}

// The ids below count that are in column j.
fn ones_in(columns: &[u64; WORDS], j: usize, count: usize) -> usize
    requires j_bound { j < 192 }
    requires count_bound { count ≤ 192 }
    ensures value { result ≡ counted (λ i. has columns.now i j) count }
    ensures upper_bound { result ≤ 192 }
{
    let first = ones_below(columns[j * 3], count);
    let second = ones_below(columns[j * 3 + 1], count.saturating_sub(64));
    let third = ones_below(columns[j * 3 + 2], count.saturating_sub(128));
    first + second + third
}

pub fn count_pairs(columns: &[u64; WORDS], count: usize) -> usize
    requires count_bound { count ≤ 192 }
    ensures { result ≡ total (λ j. counted (λ i. has columns.now i j) count) count }
{
    let mut pairs: usize = 0;
    for j in 0..count {
        pairs += ones_in(columns, j, count);
    }
    pairs
}
