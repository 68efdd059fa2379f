// What the proposals of lines are found with: sets of numbers below 192, three words each, in one list of words. All this is a hint: a
// place past the end reads as zero and is not written, so that nothing is asked of the numbers. Private to the crate.
ghost use Rattle.std.specs.Prelude.{◌≤◌};

// For each left side the right sides found, and for each right side the left sides; the same without the last round.
pub const ABOVE: u16 = 0;

pub const BELOW: u16 = 576;

pub const OVER: u16 = 1152;

pub const UNDER: u16 = 1728;

// The members of an "and" and the choice of a variable, and for each member where it is one.
pub const MEMBERS: u16 = 2304;

pub const UPPER: u16 = 2880;

// The existentials of an inner id, the inclusions from a left side and to a right side, the ids of a name, the roles that count as one.
pub const OUTER: u16 = 3456;

pub const FROM: u16 = 4032;

pub const TO: u16 = 4608;

pub const NAMED: u16 = 5184;

pub const ROLES: u16 = 8184;

// The pairs that the asked one needs.
pub const WANTED: u16 = 8484;

// Concepts and inclusions, a row each.
pub const NODE: u16 = 9060;

pub const PAIR: u16 = 9636;

// All ids, no ids, and the number of lines.
pub const ALL: u16 = 10212;

pub const NONE: u16 = 10215;

pub const LINES: u16 = 10218;

// For each way the ids by which it leads on.
pub const USED: u16 = 10221;

// The lines.
pub const QUEUE: u16 = 10245;

// All of these words.
pub const WORK: usize = 47109;

// The word w of the set or row `id` of a sort.
pub fn word(work: &[u64], sort: u16, id: u16, w: u16) -> u64 {
    let at = sort as usize + id as usize * 3 + w as usize;
    if at < work.len() {
        return work[at];
    }
    0
}

pub fn store(work: &mut [u64], sort: u16, id: u16, w: u16, x: u64) {
    let at = sort as usize + id as usize * 3 + w as usize;
    if at < work.len() {
        work[at] = x;
    }
}

// A word as a number.
pub fn number(work: &[u64], sort: u16, id: u16, w: u16) -> u16 {
    (word(work, sort, id, w) % 65536) as u16
}

pub fn has(work: &[u64], sort: u16, id: u16, k: u16) -> bool {
    (word(work, sort, id, k / 64) >> (k % 64)) % 2 == 1
}

pub fn put(work: &mut [u64], sort: u16, id: u16, k: u16) {
    let bit: u64 = 1 << (k % 64);
    let old = word(work, sort, id, k / 64);
    store(work, sort, id, k / 64, old | bit);
}

// A word of one set without another.
fn fresh(work: &[u64], s: u16, a: u16, t: u16, b: u16, w: u16) -> u64 {
    let x = word(work, s, a, w);
    let y = word(work, t, b, w);
    x & (x ^ y)
}

pub fn is_within(work: &[u64], s: u16, a: u16, t: u16, b: u16) -> bool {
    let x = fresh(work, s, a, t, b, 0);
    let y = fresh(work, s, a, t, b, 1);
    let z = fresh(work, s, a, t, b, 2);
    x | y | z == 0
}

// The lowest number from `from` on that is in the one set and not in the other, or 192.
pub fn next(work: &[u64], s: u16, a: u16, t: u16, b: u16, from: u16) -> u16
    requires { from ≤ 192 }
    ensures { from ≤ result }
{
    let mut low = from % 64;
    for w in from / 64..3 {
        let rest = fresh(work, s, a, t, b, w) >> low;
        if rest != 0 {
            return w * 64 + low + u64::trailing_zeros(rest) as u16;
        }
        low = 0;
    }
    192
}
