// Rule 6: a row that has an inclusion's left side takes in the row of its right side. A row within it that is finished already has taken
// in all that its own left sides ask, so that these need no look: in a table that was right, few are left. The order of the rows is free,
// smaller ones first, so that rows within a row are finished before it.
ghost use Rattle.std.specs.Prelude.{◌≡◌, true, ℕ, ◌+◌, ◌*◌, ◌<◌, ◌≤◌, length, replicate};
ghost use Rattle.subsumption.specs.Tables.{count_of};
ghost use Rattle.square.specs.Inner.Square.{in_row, Square};
ghost use Rattle.incremental.specs.Inner.Lines.{IncludeAt};
ghost use Rattle.incremental.specs.Inner.Including.{Pairs, ChainTo, Chain, Idle, DoneRows, Covering, NextOpen, LeftQuiet, ScanQuiet, IncludePass, Proposed};

use crate::marking::{flow, holds};
use square::helpers::{has, insert};
use subsumption::kinds::CONJUNCTION;
use subsumption::limits::CONCEPTS;

const NO_PAIR: u16 = 96;

// For each id the first inclusion with that left side, and behind these for each inclusion the next one with its own.
pub fn note_chain(inclusions: &[u16], chain: &mut [u16])
    requires pairs { Pairs 192 inclusions.now }
    requires chain_value { chain.old ≡ replicate 288 96 }
    ensures { Chain inclusions.now chain.new }
{
    let pairs = inclusions.len() / 2;
    for m in (0..pairs).rev() {
        let left = inclusions[m * 2] as usize;
        chain[CONCEPTS + m] = chain[left];
        chain[left] = m as u16;
    }
}

// The ids that are no left side.
pub fn note_idle(inclusions: &[u16], chain: &[u16], idle: &mut [u64])
    requires chain { Chain inclusions.now chain.now }
    requires idle_value { idle.old ≡ replicate 3 0 }
    ensures { Idle inclusions.now idle.new }
{
    let pairs = inclusions.len() / 2;
    for l in 0..CONCEPTS {
        if (chain[l] as usize) < pairs {
            continue;
        }
        insert(idle, 0, l);
    }
}

// If the row k is finished and lies within the row i, its ids need no look.
fn cover(square: &[u64], done: &[u64], covered: &mut [u64], k: usize, i: usize)
    requires square_len { length square.now ≡ 1152 }
    requires done_len { length done.now ≡ 3 }
    requires covered_len { length covered.old ≡ 3 }
    requires k_bound { (k < 192) × (i < 192) }
    ensures { Covering square.now done.now k i covered.old covered.new }
{
    if !has(done, 0, k) {
        return;
    }
    let at = k * 3;
    let first = square[at];
    let second = square[at + 1];
    let third = square[at + 2];
    if !holds(square, i * 3, first, second, third) {
        return;
    }
    covered[0] = covered[0] | first;
    covered[1] = covered[1] | second;
    covered[2] = covered[2] | third;
}

// The first id of the row from `from` on that needs a look.
fn next_open(square: &[u64], covered: &[u64], i: usize, from: usize) -> usize
    requires square_len { length square.now ≡ 1152 }
    requires covered_len { length covered.now ≡ 3 }
    requires i_bound { (i < 192) × (from ≤ 192) }
    ensures { NextOpen square.now covered.now i from result }
{
    let mut low = from % 64;
    for k in from / 64..3 {
        let open = ((covered[k] | square[i * 3 + k]) ^ covered[k]) >> low;
        if open != 0 {
            return k * 64 + low + u64::trailing_zeros(open) as usize;
        }
        low = 0;
    }
    CONCEPTS
}

// The inclusions with the left side l, which the row i has.
fn include_left(
    inclusions: &[u16],
    chain: &[u16],
    count: usize,
    square: &mut [u64],
    done: &[u64],
    covered: &mut [u64],
    i: usize,
    l: usize,
) -> bool
    requires pairs { Pairs count inclusions.now }
    requires chain { Chain inclusions.now chain.now }
    requires square { Square square.old }
    requires done_len { length done.now ≡ 3 }
    requires covered_len { length covered.old ≡ 3 }
    requires i_lt_count { (i < count) × (l < 192) }
    requires l_value { in_row square.old i l ≡ true }
    ensures include_pass { IncludePass count inclusions.now
        (LeftQuiet count inclusions.now done.now i l covered.old covered.new) square.old square.new result }
    ensures covered_len_2 { length covered.new ≡ 3 }
{
    let pairs = inclusions.len() / 2;
    let mut changed = false;
    let mut m = chain[l] as usize;
    // along the pairs of one left side, each of which leads to the next
    while m < pairs {
        let right = inclusions[m * 2 + 1] as usize;
        let new = flow(square, right, i);
        changed = changed | new;
        cover(square, done, covered, right, i);
        m = chain[CONCEPTS + m] as usize;
    }
    changed
}

// The left sides of the row i from `from` up to `to`.
fn scan_lefts(
    inclusions: &[u16],
    chain: &[u16],
    count: usize,
    square: &mut [u64],
    done: &[u64],
    covered: &mut [u64],
    i: usize,
    from: usize,
    to: usize,
) -> bool
    requires pairs { Pairs count inclusions.now }
    requires chain { Chain inclusions.now chain.now }
    requires square { Square square.old }
    requires done_len { length done.now ≡ 3 }
    requires covered_len { length covered.old ≡ 3 }
    requires i_lt_count { (i < count) × (from ≤ 192) × (to ≤ 192) }
    ensures include_pass { IncludePass count inclusions.now
        (ScanQuiet count inclusions.now done.now i from to covered.old covered.new) square.old square.new result }
    ensures covered_len_2 { length covered.new ≡ 3 }
{
    let mut changed = false;
    let mut l = next_open(square, covered, i, from);
    // the next id is looked for in a row to which the steps add
    while l < to {
        let new = include_left(inclusions, chain, count, square, done, covered, i, l);
        changed = changed | new;
        insert(covered, 0, l);
        l = next_open(square, covered, i, l + 1);
    }
    changed
}

// Rule 6, at the row i. The hints are rows that may lie within it and be finished. Its own inclusions come first: their right sides are
// likely to cover much.
pub fn include_row(
    inclusions: &[u16],
    chain: &[u16],
    idle: &[u64],
    count: usize,
    square: &mut [u64],
    done: &[u64],
    i: usize,
    first: usize,
    second: usize,
    third: usize,
) -> bool
    requires pairs { Pairs count inclusions.now }
    requires chain { Chain inclusions.now chain.now }
    requires idle { Idle inclusions.now idle.now }
    requires square { Square square.old }
    requires done_len { length done.now ≡ 3 }
    requires i_lt_count { (i < count) × (first < count) × (second < count) × (third < count) }
    ensures { IncludePass count inclusions.now
        (λ s. DoneRows count inclusions.now s done.now → IncludeAt count inclusions.now (in_row s) i)
        square.old square.new result }
{
    let mut covered = [idle[0], idle[1], idle[2]];
    cover(square, done, &mut covered, first, i);
    cover(square, done, &mut covered, second, i);
    cover(square, done, &mut covered, third, i);
    let a = scan_lefts(
        inclusions,
        chain,
        count,
        square,
        done,
        &mut covered,
        i,
        i,
        i + 1,
    );
    let b = scan_lefts(
        inclusions,
        chain,
        count,
        square,
        done,
        &mut covered,
        i,
        0,
        CONCEPTS,
    );
    a | b
}

// The id to look at in the n-th turn: as the order proposes, then all in line.
pub fn proposed(order: &[u16], count: usize, n: usize) -> usize
    requires order_len { length order.now ≡ 192 }
    requires count_bound { (count ≤ 192) × (n < count * 2) }
    ensures { Proposed count n result }
{
    if count <= n {
        return n - count;
    }
    let i = order[n] as usize;
    if i < count {
        return i;
    }
    0
}

// The first or the second member of an "and", as a hint; of any other row the row itself.
pub fn member(concepts: &[u16], i: usize, which: usize) -> usize
    requires i_bound { i < count_of concepts.now }
    requires which_bound { which < 3 }
    ensures { result < count_of concepts.now }
{
    let at = i * 3;
    if concepts[at] != CONJUNCTION {
        return i;
    }
    let inner = concepts[at + which] as usize;
    if inner < concepts.len() / 3 {
        return inner;
    }
    i
}
