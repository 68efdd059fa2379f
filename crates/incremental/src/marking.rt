// The square of marks, held twice: as rows, what an id is below, and as columns, what is below an id. Three words of 64 bits a line, so
// that a line takes in another by three words. Each step answers whether it changed anything.
ghost use Rattle.std.specs.Prelude.{◌≡◌, ◌+◌, ◌<◌, ◌≤◌, true, length};
ghost use Rattle.subsumption.specs.Inner.Columns.{Absorbs};
ghost use Rattle.square.specs.Inner.Square.{in_row, Square};
ghost use Rattle.incremental.specs.Inner.Marking.{in_half, Base, Adds, InWord, InThree, Holding};

use square::helpers::COLUMNS;

pub const ROWS: usize = 0;

// The one place that changes a word.
fn absorb(square: &mut [u64], at: usize, add: u64) -> bool
    requires { at < length square.old }
    ensures { Absorbs square.old square.new at add result }
{
    let old = square[at];
    let new = old | add;
    square[at] = new;
    old != new
}

// Marks y on the line x of the half that starts at `base`, and x on the line y of the other half.
pub fn mark(square: &mut [u64], base: usize, x: usize, y: usize) -> bool
    requires square { Square square.old }
    requires base { Base base }
    requires x_bound { (x < 192) × (y < 192) }
    ensures { Adds (in_half base) square.old square.new (λ p q. (p ≡ x) × (q ≡ y)) result }
{
    let a = absorb(square, base + x * 3 + y / 64, 1 << (y % 64));
    let other = COLUMNS - base;
    let b = absorb(square, other + y * 3 + x / 64, 1 << (x % 64));
    a | b
}

// The line x takes in the bits of one word, bit by bit of those that it lacks.
fn take_word(square: &mut [u64], base: usize, x: usize, k: usize, add: u64) -> bool
    requires square { Square square.old }
    requires base { Base base }
    requires x_bound { (x < 192) × (k < 3) }
    ensures { Adds (in_half base) square.old square.new (λ p q. (p ≡ x) × InWord k add q) result }
{
    let old = square[base + x * 3 + k];
    let mut rest = (old | add) ^ old;
    let mut changed = false;
    while rest != 0 {
        let place = u64::trailing_zeros(rest) as usize;
        let new = mark(square, base, x, k * 64 + place);
        changed = changed | new;
        rest = rest & (rest - 1);
    }
    changed
}

// Whether the line that starts at that word has all of these bits. A no says nothing.
pub fn holds(square: &[u64], at: usize, first: u64, second: u64, third: u64) -> bool
    requires { at + 3 ≤ length square.now }
    ensures { Holding square.now at first second third result }
{
    if square[at] | first != square[at] {
        return false;
    }
    if square[at + 1] | second != square[at + 1] {
        return false;
    }
    square[at + 2] | third == square[at + 2]
}

// The line x takes in the bits of three words.
pub fn take(square: &mut [u64], base: usize, x: usize, first: u64, second: u64, third: u64) -> bool
    requires square { Square square.old }
    requires base { Base base }
    requires x_bound { x < 192 }
    ensures { Adds (in_half base) square.old square.new (λ p q. (p ≡ x) × InThree first second third q) result }
{
    if holds(square, base + x * 3, first, second, third) {
        return false;
    }
    let a = take_word(square, base, x, 0, first);
    let b = take_word(square, base, x, 1, second);
    let c = take_word(square, base, x, 2, third);
    a | b | c
}

// What `from` is below, `to` is below.
pub fn flow(square: &mut [u64], from: usize, to: usize) -> bool
    requires square { Square square.old }
    requires from_bound { (from < 192) × (to < 192) }
    ensures { Adds in_row square.old square.new (λ i j. (i ≡ to) × (in_row square.old from j ≡ true)) result }
{
    let at = from * 3;
    let first = square[at];
    let second = square[at + 1];
    let third = square[at + 2];
    take(square, ROWS, to, first, second, third)
}

// What is below both `left` and `right` is below `to`.
pub fn meet(square: &mut [u64], left: usize, right: usize, to: usize) -> bool
    requires square { Square square.old }
    requires left_bound { (left < 192) × (right < 192) × (to < 192) }
    ensures { Adds in_row square.old square.new
        (λ i j. (j ≡ to) × (in_row square.old i left ≡ true) × (in_row square.old i right ≡ true)) result }
{
    let a = COLUMNS + left * 3;
    let b = COLUMNS + right * 3;
    let first = square[a] & square[b];
    let second = square[a + 1] & square[b + 1];
    let third = square[a + 2] & square[b + 2];
    take(square, COLUMNS, to, first, second, third)
}
