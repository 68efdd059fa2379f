// The columns of the square out of its rows, by blocks of 64 by 64 bits. A block is transposed in six steps: words that stand 32, 16, 8,
// 4, 2, 1 apart exchange the places that differ in that digit.
ghost use Rattle.std.specs.Prelude.{◌≡◌, ◌<◌, length};
ghost use Rattle.square.specs.Inner.Turning.{Exchange, Staged, Turned, BlockOf, BlockSet, Transposed};

// Where the columns start.
pub const COLUMNS: usize = 576;

const BLOCK: usize = 64;

fn stage(block: &mut [u64], s: usize, by: usize, low: u64, high: u64)
    requires block_len { length block.old ≡ 64 }
    requires exchange { Exchange s by low high }
    ensures { Staged by block.old block.new }
{
    for p in 0..32 {
        let k = p + ((p >> s) << s);
        let a = block[k];
        let b = block[k + by];
        block[k] = (a & low) | ((b & low) << by);
        block[k + by] = ((a >> by) & low) | (b & high);
    }
}

fn transpose(block: &mut [u64])
    requires { length block.old ≡ 64 }
    ensures { Turned block.old block.new }
{
    stage(block, 5, 32, 0x00000000ffffffff, 0xffffffff00000000);
    stage(block, 4, 16, 0x0000ffff0000ffff, 0xffff0000ffff0000);
    stage(block, 3, 8, 0x00ff00ff00ff00ff, 0xff00ff00ff00ff00);
    stage(block, 2, 4, 0x0f0f0f0f0f0f0f0f, 0xf0f0f0f0f0f0f0f0);
    stage(block, 1, 2, 0x3333333333333333, 0xcccccccccccccccc);
    stage(block, 0, 1, 0x5555555555555555, 0xaaaaaaaaaaaaaaaa);
}

// Of the rows 64 a to 64 a + 63 the word b.
fn read_block(square: &[u64], a: usize, b: usize, block: &mut [u64])
    requires square_len { length square.now ≡ 1152 }
    requires block_len { length block.old ≡ 64 }
    requires a_bound { (a < 3) × (b < 3) }
    ensures { BlockOf square.now a b block.new }
{
    for k in 0..BLOCK {
        block[k] = square[(a * 64 + k) * 3 + b];
    }
}

// Into the columns 64 b to 64 b + 63, as their word a.
fn write_block(block: &[u64], a: usize, b: usize, square: &mut [u64])
    requires square_len { length square.old ≡ 1152 }
    requires block_len { length block.now ≡ 64 }
    requires a_bound { (a < 3) × (b < 3) }
    ensures { BlockSet block.now a b square.old square.new }
{
    for k in 0..BLOCK {
        square[COLUMNS + (b * 64 + k) * 3 + a] = block[k];
    }
}

pub fn turn(square: &mut [u64])
    requires { length square.old ≡ 1152 }
    ensures { Transposed square.old square.new }
{
    let mut block = [0u64; BLOCK];
    for n in 0..9 {
        let a = n / 3;
        let b = n % 3;
        read_block(square, a, b, &mut block);
        transpose(&mut block);
        write_block(&block, a, b, square);
    }
}
