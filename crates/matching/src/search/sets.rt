// Sets of ids as three words: walking through one, joining and meeting.
ghost use Rattle.std.specs.Prelude.{◌≡◌, ℕ, ◌+◌, ◌<◌, ◌≤◌, length};
ghost use Rattle.subsumption.specs.Tables.{both};
ghost use Rattle.matching.specs.Inner.Search.Problem.{fit_at};
ghost use Rattle.matching.specs.Inner.Search.Sets.{in_words, NextBit, NextIn, Same, Joined, Compared, PutAt};

use crate::limits::{FITS_LEFT, FITS_RIGHT};
use subsumption::helpers::Words;

// Where the existentials stand that fit one with a variable.
pub fn fit_at(right: bool, id: usize) -> usize
    requires { id < 192 }
    ensures { result ≡ fit_at right id }
{
    if right {
        return FITS_RIGHT + id * 3;
    }
    FITS_LEFT + id * 3
}

// The lowest one of the word from a place on, or 64.
pub fn next_bit(word: u64, from: usize) -> usize
    requires { from ≤ 64 }
    ensures { NextBit word from result }
{
    if from == 64 {
        return 64;
    }
    let rest = word >> from;
    if rest == 0 {
        return 64;
    }
    from + u64::trailing_zeros(rest) as usize
}

// The lowest id of a set from an id on, or 192. The set starts at that word.
pub fn next_in(sets: &[u64], at: usize, from: usize) -> usize
    requires at_in_bounds { at + 3 ≤ length sets.now }
    requires from_bound { from ≤ 192 }
    ensures { NextIn sets.now at from result }
{
    let mut start = from % 64;
    for w in from / 64..3 {
        let place = next_bit(sets[at + w], start);
        if place < 64 {
            return w * 64 + place;
        }
        start = 0;
    }
    192
}

// The set that starts at that word.
pub fn words_at(sets: &[u64], at: usize) -> Words
    requires { at + 3 ≤ length sets.now }
    ensures { Same result sets.now at }
{
    Words {
        first: sets[at],
        second: sets[at + 1],
        third: sets[at + 2],
    }
}

pub fn join(a: Words, b: Words) -> Words
    ensures { Joined a b result }
{
    Words {
        first: a.first | b.first,
        second: a.second | b.second,
        third: a.third | b.third,
    }
}

pub fn meet(a: Words, b: Words) -> Words
    ensures { (c : ℕ) → c < 192 → in_words result c ≡ both (in_words a c) (in_words b c) }
{
    Words {
        first: a.first & b.first,
        second: a.second & b.second,
        third: a.third & b.third,
    }
}

pub fn is_in(a: Words, c: usize) -> bool
    requires { c < 192 }
    ensures { result ≡ in_words a c }
{
    if c < 64 {
        return (a.first >> c) % 2 == 1;
    }
    if c < 128 {
        return (a.second >> (c - 64)) % 2 == 1;
    }
    (a.third >> (c - 128)) % 2 == 1
}

pub fn is_same(a: Words, b: Words) -> bool
    ensures { Compared a b result }
{
    if a.first != b.first {
        return false;
    }
    if a.second != b.second {
        return false;
    }
    a.third == b.third
}

pub fn put_words(values: &mut [u64], at: usize, a: Words)
    requires { at + 3 ≤ length values.old }
    ensures { PutAt values.old values.new at a }
{
    values[at] = a.first;
    values[at + 1] = a.second;
    values[at + 2] = a.third;
}
