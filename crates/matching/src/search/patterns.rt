// Whether a question holds under an assignment, by the values of its pattern. The value of an id with a variable is a set of
// variable-free ids: on the right side of a question those below it, on the left side those above it. Below and above among
// variable-free ids do not depend on the assignment, so that one subsumption table tells them all. Inner ids are smaller, so a
// rising walk through the ids of the pattern that hold a variable, its cone, has each value made before it is read.
ghost use Rattle.std.specs.Prelude.{◌≡◌, true, false, ◌*◌, ◌+◌, ◌<◌, ◌≤◌, length};
ghost use Rattle.matching.specs.Inner.Search.Problem.{Numbers, Shaped, line_at};
ghost use Rattle.matching.specs.Inner.Search.Patterns.{ValueRead, BelowAll, AboveSome, Linked, Members, ClosedOnce, ClosedUp, Valued, ValuedIn, AllValued, Tested};

use crate::limits::{ATOM_IDS, CLOSERS, COLUMNS, CONES, HELD, SIDES};
use crate::search::sets::{
    fit_at, is_in, is_same, join, meet, next_bit, next_in, put_words, words_at,
};
use square::helpers::has;
use subsumption::helpers::{Node, Words, node_at};

const ALL: u64 = 18446744073709551615;

// Where the line of a variable-free id starts: on the right its column, on the left its row.
fn line_at(right: bool, id: usize) -> usize
    requires { id < 192 }
    ensures { result ≡ line_at right id }
{
    if right {
        return COLUMNS + id * 3;
    }
    id * 3
}

// The value of an id: what was made for one with a variable, else its line.
fn value_of(sets: &[u64], problem: &[u16], values: &[u64], right: bool, id: usize) -> Words
    requires shaped { Shaped sets.now problem.now }
    requires in_bounds { (576 ≤ length values.now) × (id < 192) }
    ensures { ValueRead sets.now problem.now values.now right id result }
{
    if problem[HELD + id] == 1 {
        return words_at(values, id * 3);
    }
    words_at(sets, line_at(right, id))
}

// What is below every chosen atom.
fn below_all(sets: &[u64], problem: &[u16], choice: u64) -> Words
    requires { Shaped sets.now problem.now }
    ensures { BelowAll sets.now problem.now choice result }
{
    let mut common = Words {
        first: ALL,
        second: ALL,
        third: ALL,
    };
    let mut q = next_bit(choice, 0);
    while q < 64 {
        let atom = problem[ATOM_IDS + q] as usize;
        common = meet(common, words_at(sets, COLUMNS + atom * 3));
        q = next_bit(choice, q + 1);
    }
    common
}

// What is above some chosen atom.
fn above_some(sets: &[u64], problem: &[u16], choice: u64) -> Words
    requires { Shaped sets.now problem.now }
    ensures { AboveSome sets.now problem.now choice result }
{
    let mut sum = Words {
        first: 0,
        second: 0,
        third: 0,
    };
    let mut q = next_bit(choice, 0);
    while q < 64 {
        let atom = problem[ATOM_IDS + q] as usize;
        sum = join(sum, words_at(sets, atom * 3));
        q = next_bit(choice, q + 1);
    }
    sum
}

// The lines of the existentials that fit the existential j and whose inner id is in the set.
fn linked(sets: &[u64], problem: &[u16], inner: Words, right: bool, j: usize) -> Words
    requires shaped { Shaped sets.now problem.now }
    requires j_bound { j < 192 }
    ensures { Linked sets.now problem.now inner right j result }
{
    let fits = fit_at(right, j);
    let mut sum = Words {
        first: 0,
        second: 0,
        third: 0,
    };
    let mut e = next_in(sets, fits, 0);
    while e < 192 {
        let f = e;
        e = next_in(sets, fits, f + 1);
        if is_in(inner, problem[f * 3 + 2] as usize) {
            sum = join(sum, words_at(sets, line_at(right, f)));
            continue;
        }
    }
    sum
}

// The id is top, or a conjunction of ids in the set.
fn has_members(problem: &[u16], x: Words, e: usize) -> bool
    requires numbers { Numbers problem.now }
    requires e_bound { e < 192 }
    ensures { Members problem.now x e result }
{
    match node_at(problem, e) {
        Node::Top => true,
        Node::Name(_) | Node::Exists(_, _) | Node::Variable(_) => false,
        Node::And(i, j) => is_in(x, i as usize) && is_in(x, j as usize),
    }
}

// One walk through the tops and conjunctions that stand at a word.
fn close_once(sets: &[u64], problem: &[u16], at: usize, x: Words) -> Words
    requires shaped { Shaped sets.now problem.now }
    requires at_bound { at + 3 ≤ 2496 }
    ensures { ClosedOnce sets.now problem.now at x result }
{
    let mut sum = x;
    let mut e = next_in(sets, at, 0);
    while e < 192 {
        let f = e;
        e = next_in(sets, at, f + 1);
        if has_members(problem, sum, f) {
            sum = join(sum, words_at(sets, f * 3));
            continue;
        }
    }
    sum
}

// What follows from a set of variable-free ids by the tops and conjunctions that stand at a word.
fn close_up(sets: &[u64], problem: &[u16], at: usize, x: Words) -> Words
    requires shaped { Shaped sets.now problem.now }
    requires at_bound { at + 3 ≤ 2496 }
    ensures { ClosedUp sets.now problem.now at x result }
{
    let mut sum = x;
    // until nothing is added: nothing says beforehand how often
    loop {
        let more = close_once(sets, problem, at, sum);
        if is_same(more, sum) {
            return sum;
        }
        sum = more;
    }
}

// The value of an id with a variable on the right side: the variable-free ids below it.
fn right_value(sets: &[u64], problem: &[u16], values: &[u64], choice: [u64; 8], j: usize) -> Words
    requires shaped { Shaped sets.now problem.now }
    requires in_bounds { (576 ≤ length values.now) × (j < 192) }
    ensures { Valued sets.now problem.now values.now choice true j result }
{
    match node_at(problem, j) {
        Node::Variable(k) => below_all(sets, problem, choice[k as usize]),
        Node::And(first, second) => {
            let a = value_of(sets, problem, values, true, first as usize);
            let b = value_of(sets, problem, values, true, second as usize);
            meet(a, b)
        }
        _ => {
            let own = words_at(values, problem[j * 3 + 2] as usize * 3);
            linked(sets, problem, own, true, j)
        }
    }
}

// The value of an id with a variable on the left side: variable-free ids above it, from which the others follow. Only under an existential
// and at the end what follows is wanted.
fn left_value(
    sets: &[u64],
    problem: &[u16],
    values: &[u64],
    choice: [u64; 8],
    m: usize,
    j: usize,
) -> Words
    requires shaped { Shaped sets.now problem.now }
    requires in_bounds { (576 ≤ length values.now) × (j < 192) × (m < 32) }
    ensures { ValuedIn sets.now problem.now values.now choice m false j result }
{
    match node_at(problem, j) {
        Node::Variable(k) => above_some(sets, problem, choice[k as usize]),
        Node::And(first, second) => {
            let a = value_of(sets, problem, values, false, first as usize);
            let b = value_of(sets, problem, values, false, second as usize);
            join(a, b)
        }
        _ => {
            let inner = words_at(values, problem[j * 3 + 2] as usize * 3);
            let own = close_up(sets, problem, CLOSERS + m * 3, inner);
            linked(sets, problem, own, false, j)
        }
    }
}

// The values of the cone of question m.
fn make_values(
    sets: &[u64],
    problem: &[u16],
    values: &mut [u64],
    choice: [u64; 8],
    m: usize,
    right: bool,
)
    requires shaped { Shaped sets.now problem.now }
    requires in_bounds { (576 ≤ length values.old) × (m < 32) }
    ensures { AllValued sets.now problem.now values.new choice m right }
{
    let cone = CONES + m * 3;
    let mut j = next_in(sets, cone, 0);
    while j < 192 {
        let i = j;
        j = next_in(sets, cone, i + 1);
        if right {
            let a = right_value(sets, problem, values, choice, i);
            put_words(values, i * 3, a);
            continue;
        }
        let b = left_value(sets, problem, values, choice, m, i);
        put_words(values, i * 3, b);
    }
}

// Whether question m holds under the choice.
pub fn question_holds(
    sets: &[u64],
    problem: &[u16],
    values: &mut [u64],
    m: usize,
    choice: [u64; 8],
) -> bool
    requires shaped { Shaped sets.now problem.now }
    requires in_bounds { (576 ≤ length values.old) × (m < 32) }
    ensures { Tested sets.now problem.now m choice result }
{
    let left = problem[SIDES + m * 2] as usize;
    let right = problem[SIDES + m * 2 + 1] as usize;
    if problem[HELD + right] == 1 {
        make_values(sets, problem, values, choice, m, true);
        return has(values, right * 3, left);
    }
    if problem[HELD + left] == 1 {
        make_values(sets, problem, values, choice, m, false);
        let all = close_up(sets, problem, CLOSERS + m * 3, words_at(values, left * 3));
        return is_in(all, right);
    }
    has(sets, left * 3, right)
}
