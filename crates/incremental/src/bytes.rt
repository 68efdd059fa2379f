// The marks of the rows are stored by adding them to the bytes of the held table, so that every other bit keeps its value.
ghost use Rattle.std.specs.Prelude.{◌≡◌, ◌+◌, ◌*◌, ◌<◌, ◌≤◌, length};
ghost use Rattle.incremental.specs.Inner.Bytes.{WordStored, RowStored, Stored};

use square::helpers::word_at;
use subsumption::limits::ROW_BYTES;

// Adds a word's bits to eight bytes.
fn add_word(word: u64, at: usize, table: &mut [u8])
    requires { at + 8 ≤ length table.old }
    ensures { WordStored word at table.old table.new }
{
    for m in 0..8 {
        let byte = (word >> (m * 8)) % 256;
        table[at + m] = table[at + m] | (byte as u8);
    }
}

// The same, and most often there is nothing to add.
fn store_word(word: u64, at: usize, table: &mut [u8])
    requires { at + 8 ≤ length table.old }
    ensures { WordStored word at table.old table.new }
{
    let old = word_at(table, at);
    if old | word == old {
        return;
    }
    add_word(word, at, table);
}

fn store_row(square: &[u64], i: usize, table: &mut [u8])
    requires square_len { length square.now ≡ 1152 }
    requires i_bound { (i < 192) × (i * 24 + 24 ≤ length table.old) }
    ensures { RowStored square.now i table.old table.new }
{
    let at = i * ROW_BYTES;
    store_word(square[i * 3], at, table);
    store_word(square[i * 3 + 1], at + 8, table);
    store_word(square[i * 3 + 2], at + 16, table);
}

// Adds the marks of the rows to the table.
pub fn store(square: &[u64], count: usize, table: &mut [u8])
    requires square_len { length square.now ≡ 1152 }
    requires count_bound { (count ≤ 192) × (count * 24 ≤ length table.old) }
    ensures { Stored square.now count table.old table.new }
{
    for i in 0..count {
        store_row(square, i, table);
    }
}
