// Proposals of lines: from the pairs that need no premise, round by round, each new pair with its line, until the asked pair is
// found; of these lines, those that it needs. So it is of least depth. All this is a hint: every line is tested before it is
// written. Private to the crate.
use crate::writer::load::{load_pairs, load_roles, load_rows};
use crate::writer::sets::{
    ABOVE, ALL, BELOW, FROM, LINES, MEMBERS, NAMED, NODE, NONE, OUTER, OVER, PAIR, QUEUE, ROLES,
    TO, UNDER, UPPER, USED, WANTED, has, is_within, next, number, put, store, word,
};
use subsumption::kinds::{NAME, TOP, VARIABLE};
use subsumption::limits::ROLE_WORDS;

// The lines are found by: 1 names, 2 top, 3 a member on the left, 4 all members on the right, 5 inner ids, 6 and 7 an inclusion, 8 an empty
// choice. With 4, 5 and 6 the left side is given and the right side is new; with the others it is the other way round.
fn is_left(way: u16) -> bool {
    if way < 4 {
        return false;
    }
    way < 7
}

pub fn line_at(work: &[u64], k: u16) -> u64 {
    let at = QUEUE as usize + k as usize;
    if at < work.len() {
        return work[at];
    }
    0
}

fn put_line(work: &mut [u64], k: u16, line: u64) {
    let at = QUEUE as usize + k as usize;
    if at < work.len() {
        work[at] = line;
    }
}

fn packed(rule: u16, left: u16, right: u16, extra: u16) -> u64 {
    ((rule as u64 * 65536 + left as u64) * 65536 + right as u64) * 65536 + extra as u64
}

pub fn rule_of(line: u64) -> u16 {
    (line / 281474976710656) as u16
}

pub fn left_of(line: u64) -> u16 {
    (line / 4294967296 % 65536) as u16
}

pub fn right_of(line: u64) -> u16 {
    (line / 65536 % 65536) as u16
}

pub fn extra_of(line: u64) -> u16 {
    (line % 65536) as u16
}

// A new pair with its line.
fn push(work: &mut [u64], way: u16, left: u16, right: u16, extra: u16) {
    let n = number(work, LINES, 0, 0);
    put(work, ABOVE, left, right);
    put(work, BELOW, right, left);
    put_line(work, n, packed(way, left, right, extra));
    store(work, LINES, 0, 0, n as u64 + 1);
}

// What the way asks of a new id beside the given one, more than that it is in a set.
fn fits(work: &[u64], way: u16, id: u16, new: u16) -> bool {
    if way == 4 {
        return is_within(work, MEMBERS, new, OVER, id);
    }
    if way == 5 {
        let narrow = number(work, NODE, id, 1);
        let wide = number(work, NODE, new, 1);
        return has(work, ROLES, wide, narrow);
    }
    true
}

// New pairs of the given id and those of a set.
fn push_each(work: &mut [u64], s: u16, a: u16, way: u16, id: u16, extra: u16) {
    let left = is_left(way);
    let known = if left { ABOVE } else { BELOW };
    let mut k = 0;
    while k < 192 {
        let new = next(work, s, a, known, id, k);
        if 192 <= new {
            return;
        }
        k = new + 1;
        if !fits(work, way, id, new) {
            continue;
        }
        if left {
            push(work, way, id, new, extra);
            continue;
        }
        push(work, way, new, id, extra);
    }
}

// The same by a member.
fn push_up(work: &mut [u64], member: u16, way: u16, id: u16, extra: u16) {
    if has(work, USED, way, member) {
        push_each(work, UPPER, member, way, id, extra);
    }
}

// The same by an existential or an inclusion m, beside the other id of a pair.
fn push_by(work: &mut [u64], way: u16, m: u16, other: u16) {
    if way == 5 {
        push_each(work, OUTER, other, 5, m, 0);
        return;
    }
    if way == 6 {
        let right = number(work, PAIR, m, 1);
        push_each(work, OVER, right, 6, other, m);
        return;
    }
    let left = number(work, PAIR, m, 0);
    push_each(work, UNDER, left, 7, other, m);
}

// The same by all of a set.
fn push_all(work: &mut [u64], s: u16, a: u16, way: u16, other: u16) {
    if !has(work, USED, way, a) {
        return;
    }
    let mut k = 0;
    while k < 192 {
        let m = next(work, s, a, NONE, 0, k);
        if 192 <= m {
            return;
        }
        k = m + 1;
        push_by(work, way, m, other);
    }
}

// What follows from a pair, and from it and pairs of this round and earlier ones.
fn follow(work: &mut [u64], left: u16, right: u16) {
    push_up(work, left, 3, right, left);
    push_up(work, right, 4, left, 0);
    push_all(work, OUTER, left, 5, right);
    push_all(work, FROM, right, 6, left);
    push_all(work, TO, left, 7, right);
}

// A new round: the pairs of the last one may be used.
fn settle(work: &mut [u64], from: u16, to: u16) {
    for k in from..to {
        let line = line_at(work, k);
        let left = left_of(line);
        let right = right_of(line);
        put(work, OVER, left, right);
        put(work, UNDER, right, left);
    }
}

// Where the round ends.
fn begin(work: &mut [u64], k: u16, end: u16, n: u16) -> u16 {
    if k == end {
        settle(work, k, n);
        return n;
    }
    end
}

// Rounds, until the asked pair is found.
fn find_lines(work: &mut [u64], left: u16, right: u16) {
    let mut end = 0;
    for k in 0..36864 {
        let n = number(work, LINES, 0, 0);
        if n <= k {
            return;
        }
        if has(work, ABOVE, left, right) {
            return;
        }
        end = begin(work, k, end, n);
        let line = line_at(work, k);
        follow(work, left_of(line), right_of(line));
    }
}

// What follows from nothing, for one right side.
fn start_at(work: &mut [u64], right: u16) {
    push(work, 1, right, right, 0);
    let kind = number(work, NODE, right, 0);
    if kind == TOP {
        push_each(work, ALL, 0, 2, right, 0);
        return;
    }
    if kind == NAME {
        let name = number(work, NODE, right, 1);
        push_each(work, NAMED, name, 1, right, 0);
        return;
    }
    if kind == VARIABLE {
        if is_within(work, MEMBERS, right, NONE, 0) {
            push_each(work, ALL, 0, 8, right, 0);
        }
    }
}

fn start(work: &mut [u64]) {
    for k in 0..192 {
        if has(work, ALL, 0, k) {
            start_at(work, k);
        }
    }
}

// The left id is wanted below every member of the right one.
fn want_members(work: &mut [u64], left: u16, right: u16) {
    for w in 0..3 {
        let x = word(work, WANTED, left, w);
        let y = word(work, MEMBERS, right, w);
        store(work, WANTED, left, w, x | y);
    }
}

// The premises of a line are wanted.
fn want(work: &mut [u64], way: u16, left: u16, right: u16, extra: u16) {
    if way == 3 {
        put(work, WANTED, extra, right);
        return;
    }
    if way == 4 {
        want_members(work, left, right);
        return;
    }
    if way == 5 {
        let a = number(work, NODE, left, 2);
        let b = number(work, NODE, right, 2);
        put(work, WANTED, a, b);
        return;
    }
    if way == 6 {
        let a = number(work, PAIR, extra, 0);
        let b = number(work, PAIR, extra, 1);
        put(work, WANTED, left, a);
        put(work, WANTED, b, right);
    }
}

// The line as it is written: its way is the rule but for these.
fn proposed(work: &[u64], way: u16, left: u16, right: u16, extra: u16) -> u64 {
    if way == 3 {
        if number(work, NODE, left, 0) == 4 {
            return packed(7, left, right, extra);
        }
        if number(work, NODE, left, 1) == extra {
            return packed(3, left, right, 0);
        }
        return packed(3, left, right, 1);
    }
    if way == 4 {
        if number(work, NODE, right, 0) == 4 {
            return packed(8, left, right, 0);
        }
    }
    packed(way, left, right, extra)
}

// Backwards from the asked pair, the wanted lines are moved to the end; answers where they begin.
fn keep_wanted(work: &mut [u64], left: u16, right: u16) -> u16 {
    put(work, WANTED, left, right);
    let count = number(work, LINES, 0, 0);
    let mut to = count;
    for k in (0..count).rev() {
        let line = line_at(work, k);
        let i = left_of(line);
        let j = right_of(line);
        if !has(work, WANTED, i, j) {
            continue;
        }
        let found = rule_of(line);
        let way = if found == 7 { 6 } else { found };
        let extra = extra_of(line);
        want(work, way, i, j, extra);
        to -= 1;
        let new = proposed(work, way, i, j, extra);
        put_line(work, to, new);
    }
    to
}

// Fills the list with proposals, the first at the answer, the last at the end.
pub fn propose(
    concepts: &[u16],
    inclusions: &[u16],
    into: &[u64; ROLE_WORDS],
    atoms: &[u16],
    assignment: &[u64],
    left: u16,
    right: u16,
    work: &mut [u64],
) -> u16 {
    load_roles(into, work);
    load_pairs(inclusions, work);
    load_rows(concepts, atoms, assignment, work);
    start(work);
    find_lines(work, left, right);
    keep_wanted(work, left, right)
}
