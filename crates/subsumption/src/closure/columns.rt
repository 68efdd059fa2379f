// Columns of bits: column j is the set of ids known to be below j, three words of 64 bits. Each step answers whether it changed one.
ghost use Rattle.std.specs.Prelude.{◌≡◌, ℕ, ◌<◌, true, length};
ghost use mathlib.Core.List.{Memᴰ};
ghost use Rattle.subsumption.specs.Atoms.{pick};
ghost use Rattle.subsumption.specs.Inner.Columns.{has, Absorbs, Takes, InThree, Known, Common};
ghost use Rattle.subsumption.specs.Inner.Sizes.{columns_size};

use crate::limits::WORDS;

const ALL: u64 = 18446744073709551615;

// The one place that changes a column.
fn absorb(columns: &mut [u64], at: usize, add: u64) -> bool
    requires { at < length columns.old }
    ensures { Absorbs columns.old columns.new at add result }
{
    let old = columns[at];
    let new = old | add;
    columns[at] = new;
    old != new
}

pub fn take(columns: &mut [u64; WORDS], to: usize, first: u64, second: u64, third: u64) -> bool
    requires to_bound { to < 192 }
    ensures { Takes columns.old columns.new (λ j. j ≡ to) (InThree first second third) result }
{
    let a = absorb(columns, to * 3, first);
    let b = absorb(columns, to * 3 + 1, second);
    let c = absorb(columns, to * 3 + 2, third);
    a | b | c
}

// Everything known to be below `from` is below `to`.
pub fn flow(columns: &mut [u64; WORDS], from: usize, to: usize) -> bool
    requires from_bound { (from < 192) × (to < 192) }
    ensures { Takes columns.old columns.new (λ j. j ≡ to) (λ i. has columns.old i from ≡ true) result }
{
    let first = columns[from * 3];
    let second = columns[from * 3 + 1];
    let third = columns[from * 3 + 2];
    take(columns, to, first, second, third)
}

// Everything known to be below both `left` and `right` is below `to`.
pub fn meet(columns: &mut [u64; WORDS], left: usize, right: usize, to: usize) -> bool
    requires left_bound { (left < 192) × (right < 192) × (to < 192) }
    ensures { Takes columns.old columns.new (λ j. j ≡ to)
        (λ i. (has columns.old i left ≡ true) × (has columns.old i right ≡ true)) result }
{
    let first = columns[left * 3] & columns[right * 3];
    let second = columns[left * 3 + 1] & columns[right * 3 + 1];
    let third = columns[left * 3 + 2] & columns[right * 3 + 2];
    take(columns, to, first, second, third)
}

// Every id is below `to`.
pub fn fill(columns: &mut [u64; WORDS], to: usize) -> bool
    requires to_bound { to < 192 }
    ensures { Takes columns.old columns.new (λ j. j ≡ to) (λ i. Unit {0}) result }
{
    take(columns, to, ALL, ALL, ALL)
}

// An id is below itself.
pub fn mark(columns: &mut [u64; WORDS], id: usize) -> bool
    requires id_bound { id < 192 }
    ensures { Takes columns.old columns.new (λ j. j ≡ id) (λ i. i ≡ id) result }
{
    absorb(columns, id * 3 + id / 64, 1 << (id % 64))
}

// Whether i is known to be below j.
pub fn below(columns: &[u64; WORDS], i: usize, j: usize) -> bool
    requires i_bound { (i < 192) × (j < 192) }
    ensures { result ≡ has columns.now i j }
{
    (columns[j * 3 + i / 64] >> (i % 64)) % 2 == 1
}

// A set of ids, as a column is one: three words of 64.
#[derive(Clone, Copy)]
pub struct Words {
    pub first: u64,
    pub second: u64,
    pub third: u64,
}

// The bits that the columns of all chosen atoms have.
fn common(atoms: &[u16], choice: u64, columns: &[u64; WORDS]) -> Words
    requires known { Known atoms.now }
    ensures common { Common (length atoms.now) atoms.now choice columns.now 0 result.first }
    ensures common_2 { Common (length atoms.now) atoms.now choice columns.now 1 result.second }
    ensures common_3 { Common (length atoms.now) atoms.now choice columns.now 2 result.third }
{
    let mut first = ALL;
    let mut second = ALL;
    let mut third = ALL;
    for q in 0..atoms.len() {
        let at = atoms[q] as usize * 3;
        let picked = (choice >> q) % 2;
        if picked == 0 {
            continue;
        }
        first = first & columns[at];
        second = second & columns[at + 1];
        third = third & columns[at + 2];
    }
    Words {
        first,
        second,
        third,
    }
}

// Everything known to be below all chosen atoms is below the variable `to`.
pub fn gather(atoms: &[u16], choice: u64, columns: &mut [u64; WORDS], to: usize) -> bool
    requires known { Known atoms.now }
    requires to_bound { to < 192 }
    ensures { Takes columns.old columns.new (λ j. j ≡ to)
        (λ i. (p : ℕ) → Memᴰ p (pick atoms.now choice) → has columns.old i p ≡ true) result }
{
    let words = common(atoms, choice, columns);
    take(columns, to, words.first, words.second, words.third)
}

// Everything known to be below the variable `from` is below all chosen atoms.
pub fn spread(atoms: &[u16], choice: u64, columns: &mut [u64; WORDS], from: usize) -> bool
    requires known { Known atoms.now }
    requires from_bound { from < 192 }
    ensures { Takes columns.old columns.new (λ p. Memᴰ p (pick atoms.now choice))
        (λ i. has columns.old i from ≡ true) result }
{
    let mut changed = false;
    for q in 0..atoms.len() {
        let atom = atoms[q] as usize;
        let picked = (choice >> q) % 2;
        if picked == 0 {
            continue;
        }
        let new = flow(columns, from, atom);
        changed = changed | new;
    }
    changed
}
