// The rows of a written table as words. Only the bits of ids are loaded.
ghost use Rattle.std.specs.Prelude.{◌≡◌, ◌+◌, ◌*◌, ◌<◌, ◌≤◌, length};
ghost use Rattle.square.specs.Inner.Loading.{WordOf, Masked, RowLoaded, RowsLoaded, Loaded};

use crate::turning::turn;
use subsumption::limits::ROW_BYTES;

// The words of the square of marks: its rows and its columns.
pub const SQUARE: usize = 1152;

// Eight bytes as one word.
pub fn word_at(table: &[u8], at: usize) -> u64
    requires { at + 8 ≤ length table.now }
    ensures { WordOf table.now at result }
{
    let a = table[at] as u64;
    let b = table[at + 1] as u64;
    let c = table[at + 2] as u64;
    let d = table[at + 3] as u64;
    let e = table[at + 4] as u64;
    let f = table[at + 5] as u64;
    let g = table[at + 6] as u64;
    let h = table[at + 7] as u64;
    a | (b << 8) | (c << 16) | (d << 24) | (e << 32) | (f << 40) | (g << 48) | (h << 56)
}

// Of the k-th word of a row, the bits of ids.
fn masked(word: u64, k: usize, count: usize) -> u64
    requires { k < 3 }
    ensures { Masked count k word result }
{
    let from = k * 64;
    if from + 64 <= count {
        return word;
    }
    if count <= from {
        return 0;
    }
    word % (1 << (count - from))
}

fn load_row(table: &[u8], count: usize, i: usize, square: &mut [u64])
    requires square_len { length square.old ≡ 1152 }
    requires i_bound { (i < 192) × (i * 24 + 24 ≤ length table.now) }
    ensures { RowLoaded table.now count i square.old square.new }
{
    let at = i * ROW_BYTES;
    let first = masked(word_at(table, at), 0, count);
    let second = masked(word_at(table, at + 8), 1, count);
    let third = masked(word_at(table, at + 16), 2, count);
    square[i * 3] = first;
    square[i * 3 + 1] = second;
    square[i * 3 + 2] = third;
}

fn load_rows(table: &[u8], count: usize, square: &mut [u64])
    requires square_len { length square.old ≡ 1152 }
    requires count_bound { (count ≤ 192) × (count * 24 ≤ length table.now) }
    ensures { RowsLoaded table.now count square.new }
{
    for i in 0..count {
        load_row(table, count, i, square);
    }
}

// The marks of the table's rows.
pub fn load(table: &[u8], count: usize, square: &mut [u64])
    requires square_len { length square.old ≡ 1152 }
    requires count_bound { (count ≤ 192) × (count * 24 ≤ length table.now) }
    ensures { Loaded count table.now square.new }
{
    load_rows(table, count, square);
    turn(square);
}
