// Largest counts. An interval of choices whose low side has reached the count of a variable is clamped: no further atom of that variable is
// open. A nogood found inside, an interval that holds no solution, goes back as one that names what the low side takes for that
// variable: so counts bring no nogoods of their own.
ghost use Rattle.std.specs.Prelude.{◌≡◌, length};
ghost use Rattle.settings.specs.Settings.{size};
ghost use Rattle.settings.specs.Inner.Counts.{Counted, Clamped, Unclamped};

// How many atoms a choice takes.
pub fn size_of(choice: u64) -> u32
    ensures { result ≡ size choice }
{
    u64::count_ones(choice)
}

// Whether no variable takes more than its largest count.
pub fn is_few(most: &[u16], choice: [u64; 8]) -> bool
    requires { (length most.now ≡ 8) × (length choice ≡ 8) }
    ensures { Counted most.now choice result }
{
    for k in 0..8 {
        if most[k] >= 64 {
            continue;
        }
        if size_of(choice[k]) > most[k] as u32 {
            return false;
        }
    }
    true
}

// The high side, without what a variable would take past its count.
pub fn clamp(most: &[u16], low: [u64; 8], high: [u64; 8]) -> [u64; 8]
    requires { (length most.now ≡ 8) × (length low ≡ 8) × (length high ≡ 8) }
    ensures { Clamped most.now low high result }
{
    let mut inner = high;
    for k in 0..8 {
        if size_of(low[k]) < most[k] as u32 {
            continue;
        }
        inner[k] = low[k];
    }
    inner
}

// The nogood of a clamped interval as one of the whole: where it leaves out an atom that clamping took away, it is about what the
// low side takes. The nogood's two sides are given and answered.
pub fn unclamp(
    full: [u64; 8],
    low: [u64; 8],
    high: [u64; 8],
    inner: [u64; 8],
    nogood_low: [u64; 8],
    nogood_high: [u64; 8],
) -> ([u64; 8], [u64; 8])
    requires full_len { (length full ≡ 8) × (length low ≡ 8) × (length high ≡ 8) × (length inner ≡ 8) }
    requires low_len { (length nogood_low ≡ 8) × (length nogood_high ≡ 8) }
    ensures { Unclamped full low high inner nogood_low nogood_high result.0 result.1 }
{
    let mut below = nogood_low;
    let mut above = nogood_high;
    for k in 0..8 {
        if inner[k] == high[k] {
            continue;
        }
        if (high[k] | above[k]) == above[k] {
            continue;
        }
        below[k] = low[k];
        above[k] = full[k];
    }
    (below, above)
}
