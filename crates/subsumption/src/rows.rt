// Writing the rows of the subsumption table out of the columns. Private to the crate.
ghost use Rattle.std.specs.Prelude.{◌≡◌, ◌+◌, ◌*◌, ◌/◌, ◌<◌, ◌≤◌, length};
ghost use Rattle.subsumption.specs.Table.{row_start};
ghost use Rattle.subsumption.specs.Inner.Rows.{exchanged, Transposed, BlockOf, BandOf, Banded, RowWritten, Written};
ghost use Rattle.subsumption.specs.Inner.Sizes.{columns_size};

use crate::limits::{ROW_BYTES, WORDS};

fn row_start(i: usize) -> usize
    requires { i < 192 }
    ensures { result ≡ row_start i }
{
    i * ROW_BYTES
}

fn exchange(x: u64, by: usize, stay: u64, up: u64, down: u64) -> u64
    requires { by < 64 }
    ensures { result ≡ exchanged x by stay up down }
{
    (x & stay) | ((x >> by) & up) | ((x << by) & down)
}

// Transposes eight rows of eight bits: blocks of one, of two by two, of four by four are exchanged.
fn transpose(x: u64) -> u64
    ensures { Transposed x result }
{
    let ones = exchange(
        x,
        7,
        0xaa55aa55aa55aa55,
        0x00aa00aa00aa00aa,
        0x5500550055005500,
    );
    let twos = exchange(
        ones,
        14,
        0xcccc3333cccc3333,
        0x0000cccc0000cccc,
        0x3333000033330000,
    );
    exchange(
        twos,
        28,
        0xf0f0f0f00f0f0f0f,
        0x00000000f0f0f0f0,
        0x0f0f0f0f00000000,
    )
}

// Of the columns 8 a to 8 a + 7, the byte m of each.
fn block(columns: &[u64; WORDS], count: usize, m: usize, a: usize) -> u64
    requires m_bound { (m < 24) × (a < 24) }
    ensures { BlockOf columns.now count m a result }
{
    let mut word: u64 = 0;
    for b in 0..8 {
        let j = a * 8 + b;
        let place = b * 8;
        if count <= j {
            continue;
        }
        let byte = (columns[j * 3 + m / 8] >> (m % 8 * 8)) % 256;
        word = word | (byte << place);
    }
    word
}

fn fill_band(columns: &[u64; WORDS], count: usize, m: usize, band: &mut [u64; ROW_BYTES])
    requires m_bound { m < 24 }
    ensures { BandOf columns.now count m band.new }
{
    for a in 0..ROW_BYTES {
        let word = block(columns, count, m, a);
        let turned = transpose(word);
        band[a] = turned;
    }
}

// The band of row i: every eighth row starts a new one.
fn renew_band(columns: &[u64; WORDS], count: usize, i: usize, band: &mut [u64; ROW_BYTES])
    requires i_bound { i < 192 }
    requires banded { Banded columns.now count i band.old }
    ensures { BandOf columns.now count (i / 8) band.new }
{
    if i % 8 != 0 {
        return;
    }
    fill_band(columns, count, i / 8, band);
}

fn write_row(band: &[u64; ROW_BYTES], i: usize, out: &mut [u8])
    requires i_bound { (i < 192) × (i * 24 + 24 ≤ length out.old) }
    ensures { RowWritten band.now i out.old out.new }
{
    let start = row_start(i);
    let place = i % 8 * 8;
    for at in 0..ROW_BYTES {
        let byte = (band[at] >> place) % 256;
        out[start + at] = byte as u8;
    }
}

pub fn write_rows(columns: &[u64; WORDS], count: usize, out: &mut [u8])
    requires count_bound { (count ≤ 192) × (count * 24 ≤ length out.old) }
    ensures { Written columns.now count out.old out.new }
{
    let mut band = [0u64; ROW_BYTES];
    for i in 0..count {
        renew_band(columns, count, i, &mut band);
        write_row(&band, i, out);
    }
}
