// What tests read, made once from the tables: sets of ids, three words each, and numbers. The sets are the rows and columns of one
// subsumption table, written by the operation for it under the assignment that chooses nothing; for each existential with a
// variable the variable-free ones that fit it by their roles; the cone of each question, the ids of its sides that hold a variable;
// and the variable-free tops and conjunctions that bring what is asked of its left values. The search knows neither inclusions nor
// pairs of roles.
ghost use Rattle.subsumption.specs.Refusal.{Done};
ghost use Rattle.std.specs.Prelude.{◌≡◌, true, false, ℕ, ◌+◌, ◌<◌, ◌≤◌, ltb, length, replicate};
ghost use Rattle.subsumption.specs.Lent.{lent};
ghost use Rattle.subsumption.specs.Inner.Lent.{given};
ghost use Rattle.subsumption.specs.Tables.{both, node};
ghost use Rattle.subsumption.specs.Check.{table_fault};
ghost use Rattle.subsumption.specs.Inner.Atoms.{Layered};
ghost use Rattle.subsumption.specs.Inner.Listing.{Accepted};
ghost use Rattle.subsumption.specs.Inner.Tables.{Rising};
ghost use Rattle.subsumption.specs.Inner.Sizes.{roles_size};
ghost use Rattle.square.specs.Inner.Square.{on_line};
ghost use Rattle.matching.specs.Inner.Search.Problem.{fit_at, cone_at, closers_at, question_count, Numbers, Shaped, Covered, Problem};
ghost use Rattle.matching.specs.Inner.Search.Making.{CopiedAt, HeldNoted, HintsNoted, NumbersOf, LinesOf, Readable, kind_at, fits_by, is_closer, held_id, held_inside, Filled, FitsNoted, ConeNoted, NoCones, ConesNoted, Grew, WantsInner, AskedFor, NewAt, NextNew, Kept, KeptAll, ClosersNoted, NoClosers, AllClosers};
ghost use Rattle.matching.specs.Inner.Sizes.{problem_size};

use crate::limits::{
    ATOM_IDS, CLOSERS, CONES, FITS_LEFT, HELD, HOLDS, QUESTION_COUNT, SIDES, TABLE,
};
use crate::search::sets::{fit_at, is_same, join, meet, next_in, words_at};
use square::helpers::{has, insert, load};
use subsumption::helpers::{Node, Words, counts, mark_variables, node_at, note_roles};
use subsumption::kinds::{CONJUNCTION, EXISTENTIAL, VARIABLE};
use subsumption::limits::{CONCEPTS, ROLE_WORDS};
use subsumption::{Tables, write_table};

// ---- the numbers
pub fn copy_at(from: &[u16], to: &mut [u16], at: usize)
    requires { at + length from.now ≤ length to.old }
    ensures { CopiedAt from.now at to.old to.new }
{
    for p in 0..from.len() {
        to[at + p] = from[p];
    }
}

// A 1 for each id that holds a variable.
fn note_held(concepts: &[u16], problem: &mut [u16])
    requires layered { Layered concepts.now }
    requires problem_len { length problem.old ≡ problem_size }
    ensures { HeldNoted concepts.now problem.old problem.new }
{
    let mut marks = [false; CONCEPTS];
    mark_variables(concepts, &mut marks);
    for (i, &mark) in marks.iter().enumerate() {
        problem[HELD + i] = mark as u16;
    }
}

// The variables of an id, a bit each, given those of smaller ids.
fn variables_of(problem: &[u16], sets: &[u16], i: usize) -> u16
    requires { (length problem.now ≡ problem_size) × (length sets.now ≡ 192) × (i < 192) }
{
    let kind = problem[i * 3];
    let a = problem[i * 3 + 1] as usize;
    let b = problem[i * 3 + 2] as usize;
    if kind == VARIABLE {
        if a < 8 {
            return 1 << a;
        }
        return 0;
    }
    if a >= CONCEPTS {
        return 0;
    }
    if b >= CONCEPTS {
        return 0;
    }
    if kind == CONJUNCTION {
        return sets[a] | sets[b];
    }
    if kind == EXISTENTIAL {
        return sets[b];
    }
    0
}

fn note_variables(problem: &[u16], sets: &mut [u16])
    requires { (length problem.now ≡ problem_size) × (length sets.old ≡ 192) }
{
    for i in 0..CONCEPTS {
        sets[i] = variables_of(problem, sets, i);
    }
}

// The variables of each question, a hint for narrowing and widening.
fn note_holds(problem: &mut [u16])
    requires { length problem.old ≡ problem_size }
    ensures { HintsNoted problem.old problem.new }
{
    let mut sets = [0u16; CONCEPTS];
    note_variables(problem, &mut sets);
    for m in 0..32 {
        let left = problem[SIDES + m * 2] as usize;
        let right = problem[SIDES + m * 2 + 1] as usize;
        if left >= CONCEPTS {
            continue;
        }
        if right >= CONCEPTS {
            continue;
        }
        problem[HOLDS + m] = sets[left] | sets[right];
    }
}

fn note_numbers(concepts: &[u16], questions: &[u16], ids: &[u16], problem: &mut [u16])
    requires layered { Layered concepts.now }
    requires questions_len_bound { (length questions.now ≤ 64) × (length ids.now ≤ 64) }
    requires problem_value { problem.old ≡ replicate problem_size 0 }
    ensures { NumbersOf concepts.now questions.now ids.now problem.new }
{
    copy_at(concepts, problem, 0);
    note_held(concepts, problem);
    copy_at(ids, problem, ATOM_IDS);
    copy_at(questions, problem, SIDES);
    problem[QUESTION_COUNT] = (questions.len() / 2) as u16;
    note_holds(problem);
}

// ---- the sets
// The rows and columns, of the subsumption table under the assignment that chooses nothing.
fn note_lines(tables: Tables, square: &mut [u64])
    requires variables_value { table_fault (given tables) ≡ Done }
    requires square_len { length square.old ≡ 1152 }
    ensures { LinesOf (lent tables) square.new }
{
    let mut table = [0u8; TABLE];
    let nothing = [0u64; 8];
    let n = tables.variables as usize;
    // the tables passed, so this refuses nothing
    let _ = write_table(tables, &nothing[..n], &mut table);
    load(&table, tables.concepts.len() / 3, square);
}

// Whether the existential e holds no variable and fits the existential j.
fn is_fitting(
    problem: &[u16],
    into: &[u64; ROLE_WORDS],
    count: usize,
    right: bool,
    j: usize,
    e: usize,
) -> bool
    requires readable { Readable problem.now count }
    requires j_lt_count { (j < count) × (e < count) × (kind_at problem.now j ≡ 2) }
    ensures { result ≡ fits_by problem.now into.now right j e }
{
    if problem[e * 3] != 2 {
        return false;
    }
    if problem[HELD + e] == 1 {
        return false;
    }
    let own = problem[j * 3 + 1] as usize;
    let free = problem[e * 3 + 1] as usize;
    if right {
        return counts(into, free, own);
    }
    counts(into, own, free)
}

fn note_fit(
    problem: &[u16],
    into: &[u64; ROLE_WORDS],
    count: usize,
    right: bool,
    j: usize,
    sets: &mut [u64],
)
    requires readable { Readable problem.now count }
    requires j_lt_count { (j < count) × (kind_at problem.now j ≡ 2) }
    requires sets_len { length sets.old ≡ 2496 }
    ensures { Filled (fit_at right j) (λ q. both (ltb q count) (fits_by problem.now into.now right j q))
        sets.old sets.new }
{
    let at = fit_at(right, j);
    for e in 0..count {
        if is_fitting(problem, into, count, right, j, e) {
            insert(sets, at, e);
        }
    }
}

fn note_fits(problem: &[u16], into: &[u64; ROLE_WORDS], count: usize, right: bool, sets: &mut [u64])
    requires readable { Readable problem.now count }
    requires sets_len { length sets.old ≡ 2496 }
    ensures { FitsNoted problem.now into.now count right sets.old sets.new }
{
    for j in 0..count {
        if problem[j * 3] != 2 {
            continue;
        }
        if problem[HELD + j] == 1 {
            note_fit(problem, into, count, right, j, sets);
        }
    }
}

fn is_closer(problem: &[u16], e: usize) -> bool
    requires problem_len { length problem.now ≡ problem_size }
    requires e_bound { e < 192 }
    ensures { result ≡ is_closer problem.now e }
{
    if problem[HELD + e] == 1 {
        return false;
    }
    if problem[e * 3] == 0 {
        return true;
    }
    problem[e * 3] == 3
}

// The id comes to the cone if it holds a variable.
fn mark_held(problem: &[u16], sets: &mut [u64], at: usize, id: usize)
    requires problem_len { length problem.now ≡ problem_size }
    requires at_in_bounds { at + 3 ≤ length sets.old }
    requires id_bound { id < 192 }
    ensures { Filled at (held_id problem.now id) sets.old sets.new }
{
    if problem[HELD + id] == 1 {
        insert(sets, at, id);
    }
}

// The inner ids of an id of the cone.
fn mark_inside(problem: &[u16], sets: &mut [u64], at: usize, i: usize)
    requires problem_len { length problem.now ≡ problem_size }
    requires at_in_bounds { at + 3 ≤ length sets.old }
    requires i_bound { (i < 192) × Rising i (node problem.now i) }
    ensures { Filled at (held_inside problem.now i) sets.old sets.new }
{
    match node_at(problem, i) {
        Node::Top | Node::Name(_) | Node::Variable(_) => {}
        Node::Exists(_, j) => {
            mark_held(problem, sets, at, j as usize);
        }
        Node::And(j, k) => {
            mark_held(problem, sets, at, j as usize);
            mark_held(problem, sets, at, k as usize);
        }
    }
}

// Inner ids are smaller, so one walk down reaches all.
fn note_cone(problem: &[u16], count: usize, m: usize, sets: &mut [u64])
    requires readable { Readable problem.now count }
    requires m_bound { m < question_count problem.now }
    requires sets_len { length sets.old ≡ 2496 }
    requires by_index { (q : ℕ) → q < 192 → on_line sets.old (cone_at m) q ≡ false }
    ensures { ConeNoted problem.now count m sets.old sets.new }
{
    let at = CONES + m * 3;
    mark_held(problem, sets, at, problem[SIDES + m * 2] as usize);
    mark_held(problem, sets, at, problem[SIDES + m * 2 + 1] as usize);
    for i in (0..count).rev() {
        if has(sets, at, i) {
            mark_inside(problem, sets, at, i);
        }
    }
}

fn note_cones(problem: &[u16], count: usize, sets: &mut [u64])
    requires readable { Readable problem.now count }
    requires sets_len { length sets.old ≡ 2496 }
    requires no_cones { NoCones sets.old }
    ensures { ConesNoted problem.now count sets.old sets.new }
{
    let rows = problem[QUESTION_COUNT] as usize;
    for m in 0..rows {
        note_cone(problem, count, m, sets);
    }
}

// ---- the tops and conjunctions by which left values are closed
// The inner ids of the existentials that fit j on the left are wanted.
fn want_inner(sets: &[u64], problem: &[u16], j: usize, wanted: &mut [u64])
    requires shaped { Shaped sets.now problem.now }
    requires j_bound { (j < 192) × (length wanted.old ≡ 3) }
    ensures grew { Grew wanted.old wanted.new }
    ensures wants_inner { WantsInner sets.now problem.now j wanted.new }
{
    let at = FITS_LEFT + j * 3;
    let mut e = next_in(sets, at, 0);
    while e < CONCEPTS {
        let f = e;
        e = next_in(sets, at, f + 1);
        insert(wanted, 0, problem[f * 3 + 2] as usize);
    }
}

// What is asked of closed values of question m.
fn want_asked(sets: &[u64], problem: &[u16], m: usize, wanted: &mut [u64])
    requires shaped { Shaped sets.now problem.now }
    requires m_bound { (m < 32) × (length wanted.old ≡ 3) }
    ensures { AskedFor sets.now problem.now m wanted.new }
{
    insert(wanted, 0, problem[SIDES + m * 2 + 1] as usize);
    let cone = CONES + m * 3;
    let mut j = next_in(sets, cone, 0);
    while j < CONCEPTS {
        let i = j;
        j = next_in(sets, cone, i + 1);
        want_inner(sets, problem, i, wanted);
    }
}

// Whether the row of e brings nothing wanted that the rows of its members do not bring.
fn is_covered(sets: &[u64], problem: &[u16], wanted: &[u64], e: usize) -> bool
    requires shaped { Shaped sets.now problem.now }
    requires e_bound { (e < 192) × (length wanted.now ≡ 3) }
    ensures { result ≡ true → Covered sets.now problem.now (on_line wanted.now 0) e }
{
    let row = words_at(sets, e * 3);
    let asked = meet(row, words_at(wanted, 0));
    if let Node::And(i, j) = node_at(problem, e) {
        let a = words_at(sets, i as usize * 3);
        let b = words_at(sets, j as usize * 3);
        let own = join(a, b);
        return is_same(join(own, asked), own);
    }
    let nothing = Words {
        first: 0,
        second: 0,
        third: 0,
    };
    is_same(asked, nothing)
}

// Whether e is to be kept and is not yet.
fn is_new(sets: &[u64], problem: &[u16], at: usize, wanted: &[u64], e: usize) -> bool
    requires shaped { Shaped sets.now problem.now }
    requires e_bound { (e < 192) × (length wanted.now ≡ 3) }
    requires at_bound { at + 3 ≤ 2496 }
    ensures { NewAt sets.now problem.now at wanted.now e result }
{
    if has(sets, at, e) {
        return false;
    }
    if is_closer(problem, e) {
        if is_covered(sets, problem, wanted, e) {
            return false;
        }
        return true;
    }
    false
}

// The lowest id from an id on that is to be kept and is not yet, or the number of ids.
fn next_new(
    sets: &[u64],
    problem: &[u16],
    count: usize,
    at: usize,
    wanted: &[u64],
    from: usize,
) -> usize
    requires shaped { Shaped sets.now problem.now }
    requires count_bound { (count ≤ 192) × (from ≤ count) × (length wanted.now ≡ 3) }
    requires at_bound { at + 3 ≤ 2496 }
    ensures { NextNew sets.now problem.now count at wanted.now from result }
{
    for e in from..count {
        if is_new(sets, problem, at, wanted, e) {
            return e;
        }
    }
    count
}

// The members of a conjunction that is kept are wanted.
fn keep(sets: &mut [u64], problem: &[u16], at: usize, wanted: &mut [u64], e: usize)
    requires numbers { Numbers problem.now }
    requires e_bound { (e < 192) × (length wanted.old ≡ 3) }
    requires at_in_bounds { at + 3 ≤ length sets.old }
    ensures { Kept problem.now at e sets.old sets.new wanted.old wanted.new }
{
    insert(sets, at, e);
    if let Node::And(i, j) = node_at(problem, e) {
        insert(wanted, 0, i as usize);
        insert(wanted, 0, j as usize);
    }
}

// Keeps until a walk from the first id on finds nothing to keep.
fn keep_all(sets: &mut [u64], problem: &[u16], count: usize, at: usize, wanted: &mut [u64])
    requires shaped { Shaped sets.old problem.now }
    requires count_bound { (count ≤ 192) × (length wanted.old ≡ 3) }
    requires at_bound { (at + 3 ≤ 2496) × (2400 ≤ at) }
    requires by_index { (q : ℕ) → q < 192 → on_line sets.old at q ≡ false }
    ensures { KeptAll problem.now count at sets.old sets.new wanted.old wanted.new }
{
    let mut from: usize = 0;
    // what is kept makes more wanted, so the search begins anew until there is none
    loop {
        let e = next_new(sets, problem, count, at, wanted, from);
        if e < count {
            keep(sets, problem, at, wanted, e);
            from = e + 1;
            continue;
        }
        if from == 0 {
            return;
        }
        from = 0;
    }
}

// Of one question, whose cone is made.
fn note_closers_of(sets: &mut [u64], problem: &[u16], count: usize, m: usize)
    requires shaped { Shaped sets.old problem.now }
    requires count_bound { (count ≤ 192) × (m < 32) }
    requires by_index { (q : ℕ) → q < 192 → on_line sets.old (closers_at m) q ≡ false }
    ensures { ClosersNoted problem.now count m sets.old sets.new }
{
    let mut wanted = [0u64; 3];
    want_asked(sets, problem, m, &mut wanted);
    keep_all(sets, problem, count, CLOSERS + m * 3, &mut wanted);
}

fn note_closers(problem: &[u16], count: usize, sets: &mut [u64])
    requires shaped { Shaped sets.old problem.now }
    requires count_bound { count ≤ 192 }
    requires no_closers { NoClosers sets.old }
    ensures { AllClosers problem.now count sets.old sets.new }
{
    let rows = problem[QUESTION_COUNT] as usize;
    for m in 0..rows {
        note_closers_of(sets, problem, count, m);
    }
}

// All of it. The ids are the atoms.
pub fn make_problem(tables: Tables, ids: &[u16], sets: &mut [u64], problem: &mut [u16])
    requires accepted { Accepted (given tables) ids.now }
    requires sets_value { sets.old ≡ replicate 2496 0 }
    requires problem_value { problem.old ≡ replicate problem_size 0 }
    ensures shaped { Shaped sets.new problem.new }
    ensures problem { Problem (lent tables) sets.new problem.new }
{
    note_numbers(tables.concepts, tables.questions, ids, problem);
    note_lines(tables, &mut sets[..1152]);
    let mut into = [0u64; ROLE_WORDS];
    note_roles(tables.roles, &mut into);
    let count = tables.concepts.len() / 3;
    note_fits(problem, &into, count, true, sets);
    note_fits(problem, &into, count, false, sets);
    note_cones(problem, count, sets);
    note_closers(problem, count, sets);
}
