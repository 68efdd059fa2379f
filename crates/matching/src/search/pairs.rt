// Sets of pairs of variable and position: eight numbers, a bit a pair.
ghost use Rattle.std.specs.Prelude.{◌≡◌, true, false, ◌<◌, length};
ghost use Rattle.matching.specs.Solving.{takes};
ghost use Rattle.matching.specs.Inner.Search.{Decided, Within};
ghost use Rattle.matching.specs.Inner.Search.Pairs.{Changed, Joined, Met};

pub fn with_pair(set: [u64; 8], k: usize, q: usize) -> [u64; 8]
    requires set_len { length set ≡ 8 }
    requires k_bound { (k < 8) × (q < 64) }
    ensures { Changed set result k q true }
{
    let mut more = set;
    more[k] = more[k] | (1 << q);
    more
}

pub fn without_pair(set: [u64; 8], k: usize, q: usize) -> [u64; 8]
    requires set_len { length set ≡ 8 }
    requires k_bound { (k < 8) × (q < 64) }
    requires q_value { takes set k q ≡ true }
    ensures { Changed set result k q false }
{
    let mut fewer = set;
    fewer[k] = fewer[k] ^ (1 << q);
    fewer
}

pub fn join(a: [u64; 8], b: [u64; 8]) -> [u64; 8]
    requires { (length a ≡ 8) × (length b ≡ 8) }
    ensures { Joined a b result }
{
    let mut sum = a;
    for k in 0..8 {
        sum[k] = sum[k] | b[k];
    }
    sum
}

pub fn meet(a: [u64; 8], b: [u64; 8]) -> [u64; 8]
    requires { (length a ≡ 8) × (length b ≡ 8) }
    ensures { Met a b result }
{
    let mut common = a;
    for k in 0..8 {
        common[k] = common[k] & b[k];
    }
    common
}

// Whether every pair of the one is in the other.
pub fn is_within(a: [u64; 8], b: [u64; 8]) -> bool
    requires { (length a ≡ 8) × (length b ≡ 8) }
    ensures { Decided (Within a b) result }
{
    a.iter().zip(b.iter()).all(|(x, y)| *x | *y == *y)
}
