// Which ids are atoms: the lowest twins of those in inclusions and variable-free right sides and of all that stands in them, of
// kinds 1 and 2.
ghost use Rattle.std.specs.Prelude.{◌≡◌, false, ℕ, ◌<◌, ◌≤◌, eqb, length, replicate};
ghost use Rattle.subsumption.specs.Tables.{or, both, node, exists_at, count_of};
ghost use Rattle.subsumption.specs.Atoms.{inside, is_atomic};
ghost use Rattle.subsumption.specs.Inner.Tables.{Rising};
ghost use Rattle.subsumption.specs.Inner.Atoms.{Layered, Known, mark_at, held_by, VariableMarks, VariableSets, MarkedBy, on_side, on_ground_right, Spread, Narrowed, StandingMarks, AtomMarks, marked_ids, in_front};

use crate::limits::CONCEPTS;
use crate::tables::{Node, node_at, pair_at};
use crate::twins::{keep_lowest, note_twins};

#[tactic(auto, unfolding(crate::specs::Inner::Atoms::held_by, crate::specs::Tables::or))]
fn holds_variable(marks: &[bool], node: Node) -> bool
    requires { Rising (length marks.now) node }
    ensures { result ≡ held_by (mark_at marks.now) node }
{
    match node {
        Node::Top | Node::Name(_) => false,
        Node::Exists(_, j) => marks[j as usize],
        Node::And(i, j) => marks[i as usize] || marks[j as usize],
        Node::Variable(_) => true,
    }
}

// Which ids hold a variable.
pub fn mark_variables(concepts: &[u16], marks: &mut [bool; CONCEPTS])
    requires layered { Layered concepts.now }
    ensures { VariableMarks concepts.now marks.new }
{
    let count = concepts.len() / 3;
    for i in 0..count {
        let held = holds_variable(marks, node_at(concepts, i));
        marks[i] = held;
    }
}

fn mark_sides(count: usize, pairs: &[u16], marks: &mut [bool; CONCEPTS])
    requires known { Known count pairs.now }
    requires count_bound { count ≤ 192 }
    ensures { MarkedBy (on_side pairs.now) marks.old marks.new }
{
    let rows = pairs.len() / 2;
    for m in 0..rows {
        let pair = pair_at(pairs, m);
        let left = pair.left as usize;
        let right = pair.right as usize;
        marks[left] = true;
        marks[right] = true;
    }
}

fn mark_ground_rights(
    count: usize,
    questions: &[u16],
    sets: &[u8; CONCEPTS],
    marks: &mut [bool; CONCEPTS],
)
    requires known { Known count questions.now }
    requires count_bound { count ≤ 192 }
    ensures { MarkedBy (on_ground_right questions.now sets.now) marks.old marks.new }
{
    let rows = questions.len() / 2;
    for m in 0..rows {
        let pair = pair_at(questions, m);
        let right = pair.right as usize;
        if sets[right] != 0 {
            continue;
        }
        marks[right] = true;
    }
}

fn mark_inner(marks: &mut [bool; CONCEPTS], node: Node)
    requires rising { Rising 192 node }
    ensures { MarkedBy (λ q. inside (λ j. eqb q j) node) marks.old marks.new }
{
    match node {
        Node::Top | Node::Name(_) | Node::Variable(_) => {}
        Node::Exists(_, j) => {
            marks[j as usize] = true;
        }
        Node::And(i, j) => {
            marks[i as usize] = true;
            marks[j as usize] = true;
        }
    }
}

// Inner ids are smaller, so one pass from the highest id down reaches all that stands in a marked id.
fn spread(concepts: &[u16], marks: &mut [bool; CONCEPTS])
    requires layered { Layered concepts.now }
    ensures { Spread concepts.now marks.old marks.new }
{
    for i in (0..concepts.len() / 3).rev() {
        if marks[i] {
            mark_inner(marks, node_at(concepts, i));
        }
    }
}

#[tactic(auto, unfolding(crate::specs::Atoms::is_atomic))]
fn is_atomic(node: Node) -> bool
    ensures { result ≡ is_atomic node }
{
    matches!(node, Node::Name(_) | Node::Exists(_, _))
}

pub fn and_also(x: bool, y: bool) -> bool
    ensures { result ≡ both x y }
{
    if x {
        return y;
    }
    false
}

pub fn either(x: bool, y: bool) -> bool
    ensures { result ≡ or x y }
{
    if x {
        return true;
    }
    y
}

fn keep_atomic(concepts: &[u16], marks: &mut [bool; CONCEPTS])
    requires concepts_bound { count_of concepts.now ≤ 192 }
    ensures { Narrowed concepts.now marks.old marks.new }
{
    let count = concepts.len() / 3;
    for p in 0..count {
        let atomic = is_atomic(node_at(concepts, p));
        let mark = and_also(atomic, marks[p]);
        marks[p] = mark;
    }
}

// Marks the names and existentials that stand in an inclusion or a variable-free right side.
fn mark_standing(
    concepts: &[u16],
    inclusions: &[u16],
    questions: &[u16],
    sets: &[u8; CONCEPTS],
    marks: &mut [bool; CONCEPTS],
)
    requires layered { Layered concepts.now }
    requires known { Known (count_of concepts.now) inclusions.now }
    requires known_2 { Known (count_of concepts.now) questions.now }
    requires variable_sets { VariableSets concepts.now sets.now }
    requires marks_value { marks.old ≡ replicate 192 false }
    ensures { StandingMarks concepts.now inclusions.now questions.now marks.new }
{
    let count = concepts.len() / 3;
    mark_sides(count, inclusions, marks);
    mark_ground_rights(count, questions, sets, marks);
    spread(concepts, marks);
    keep_atomic(concepts, marks);
}

// Marks exactly the atoms.
pub fn mark_atoms(
    concepts: &[u16],
    inclusions: &[u16],
    questions: &[u16],
    sets: &[u8; CONCEPTS],
    marks: &mut [bool; CONCEPTS],
)
    requires layered { Layered concepts.now }
    requires by_index { (i r j : ℕ) → node concepts.now i ≡ exists_at r j → r < 100 }
    requires known { Known (count_of concepts.now) inclusions.now }
    requires known_2 { Known (count_of concepts.now) questions.now }
    requires variable_sets { VariableSets concepts.now sets.now }
    requires marks_value { marks.old ≡ replicate 192 false }
    ensures { AtomMarks concepts.now inclusions.now questions.now marks.new }
{
    mark_standing(concepts, inclusions, questions, sets, marks);
    let mut firsts = [0u16; CONCEPTS];
    note_twins(concepts, &mut firsts);
    keep_lowest(&firsts, concepts.len() / 3, marks);
}

pub fn count_marks(marks: &[bool], count: usize) -> usize
    requires { count ≤ length marks.now }
    ensures { result ≡ length (marked_ids marks.now count) }
{
    let mut marked: usize = 0;
    for p in 0..count {
        if marks[p] {
            marked += 1;
        }
    }
    marked
}

// Lists the marked ids in front of the buffer and answers how many.
pub fn list_marks(marks: &[bool], count: usize, out: &mut [u16]) -> usize
    requires count_bound { count ≤ 192 }
    requires count_in_bounds { count ≤ length marks.now }
    requires count_in_bounds_2 { length (marked_ids marks.now count) ≤ length out.old }
    ensures value { result ≡ length (marked_ids marks.now count) }
    ensures out_value { out.new ≡ in_front (marked_ids marks.now count) out.old }
{
    let mut listed: usize = 0;
    for p in 0..count {
        if marks[p] {
            out[listed] = p as u16;
            listed += 1;
        }
    }
    listed
}
