// Membership of an element in a concept, and the walk over its links, which call each other. What falls is the id, plus 192 where the
// concept holds a variable. A memo of every element and id keeps the walk from being exponential.
ghost use Rattle.std.specs.Prelude.{◌≡◌, ◌<◌, length, set};
ghost use Rattle.subsumption.specs.Tables.{count_of, exists, tree};
ghost use Rattle.countermodel.specs.Inner.Membership.{LowRows, Stretches, Walkable, Right, noted, Remembers, Walked, IsIn, IsInAll, Bears};

use crate::membership::stretches::note_stretches;
use subsumption::helpers::{Node, node_at};
use subsumption::limits::CONCEPTS;

// Both ends of an element's names and of its links.
const ENDS: usize = 768;

// A cell of the memo for each element and id.
const CELLS: usize = 36_864;

// The element bears the name.
fn bears(rows: &[u16], ends: &[usize], element: u16, name: u16) -> bool
    requires low_rows { LowRows rows.now }
    requires stretches { Stretches rows.now ends.now }
    requires element_bound { element < 192 }
    ensures { Right result (Bears rows.now element name) }
{
    let own = element as usize * 4;
    let past = ends[own + 1];
    for p in ends[own]..past {
        let at = p * 4;
        if rows[at + 1] != element {
            continue;
        }
        if rows[at] != 0 {
            continue;
        }
        if rows[at + 2] == name {
            return true;
        }
    }
    false
}

// Keeps an answer: 1 is yes and 2 is no, 0 is none yet.
fn note(memo: &mut [u8], cell: usize, answer: bool) -> bool
    requires { cell < length memo.old }
    ensures { (result ≡ answer) × (memo.new ≡ set memo.old cell (noted answer)) }
{
    if answer {
        memo[cell] = 1;
        return true;
    }
    memo[cell] = 2;
    false
}

// The element is a member of the concept.
#[cycle(in_all_member_at_some_link)]
fn member_at(
    concepts: &[u16],
    ids: &[u16],
    assignment: &[u64],
    rows: &[u16],
    ends: &[usize],
    memo: &mut [u8],
    element: u16,
    id: u16,
) -> bool
    requires walkable { Walkable concepts.now ids.now assignment.now rows.now }
    requires stretches { Stretches rows.now ends.now }
    requires remembers { Remembers concepts.now ids.now assignment.now rows.now memo.old }
    requires element_bound { (element < 192) × (id < count_of concepts.now) }
    ensures { Walked concepts.now ids.now assignment.now rows.now
        (IsIn concepts.now ids.now assignment.now rows.now (tree concepts.now id) element) memo.new result }
{
    let cell = element as usize * CONCEPTS + id as usize;
    let known = memo[cell];
    if known == 1 {
        return true;
    }
    if known == 2 {
        return false;
    }
    match node_at(concepts, id as usize) {
        Node::Top => true,
        Node::Name(name) => {
            let named = bears(rows, ends, element, name);
            note(memo, cell, named)
        }
        Node::Exists(role, inner) => {
            let linked = some_link(
                concepts, ids, assignment, rows, ends, memo, element, role, inner,
            );
            note(memo, cell, linked)
        }
        Node::And(a, b) => {
            let first = member_at(concepts, ids, assignment, rows, ends, memo, element, a);
            if !first {
                return note(memo, cell, false);
            }
            let second = member_at(concepts, ids, assignment, rows, ends, memo, element, b);
            note(memo, cell, second)
        }
        Node::Variable(k) => {
            let choice = assignment[k as usize];
            let chosen = in_all(concepts, ids, assignment, rows, ends, memo, element, choice);
            note(memo, cell, chosen)
        }
    }
}

// Some link of the element by the role leads to a member of the inner concept.
#[cycle(in_all_member_at_some_link)]
fn some_link(
    concepts: &[u16],
    ids: &[u16],
    assignment: &[u64],
    rows: &[u16],
    ends: &[usize],
    memo: &mut [u8],
    element: u16,
    role: u16,
    inner: u16,
) -> bool
    requires walkable { Walkable concepts.now ids.now assignment.now rows.now }
    requires stretches { Stretches rows.now ends.now }
    requires remembers { Remembers concepts.now ids.now assignment.now rows.now memo.old }
    requires element_bound { (element < 192) × (inner < count_of concepts.now) }
    ensures { Walked concepts.now ids.now assignment.now rows.now
        (IsIn concepts.now ids.now assignment.now rows.now (exists role (tree concepts.now inner)) element)
        memo.new result }
{
    let own = element as usize * 4;
    let past = ends[own + 3];
    for p in ends[own + 2]..past {
        let at = p * 4;
        if rows[at + 1] != element {
            continue;
        }
        if rows[at] != 1 {
            continue;
        }
        if rows[at + 2] != role {
            continue;
        }
        let to = rows[at + 3];
        if member_at(concepts, ids, assignment, rows, ends, memo, to, inner) {
            return true;
        }
    }
    false
}

// The element is a member of every atom that is chosen.
#[cycle(in_all_member_at_some_link)]
fn in_all(
    concepts: &[u16],
    ids: &[u16],
    assignment: &[u64],
    rows: &[u16],
    ends: &[usize],
    memo: &mut [u8],
    element: u16,
    choice: u64,
) -> bool
    requires walkable { Walkable concepts.now ids.now assignment.now rows.now }
    requires stretches { Stretches rows.now ends.now }
    requires remembers { Remembers concepts.now ids.now assignment.now rows.now memo.old }
    requires element_bound { element < 192 }
    ensures { Walked concepts.now ids.now assignment.now rows.now
        (IsInAll concepts.now ids.now assignment.now rows.now choice element) memo.new result }
{
    for (q, &atom) in ids.iter().enumerate() {
        let picked = (choice >> q) % 2;
        if picked == 0 {
            continue;
        }
        if !member_at(concepts, ids, assignment, rows, ends, memo, element, atom) {
            return false;
        }
    }
    true
}

// The same, with a memo that has no answer yet.
pub fn is_member(
    concepts: &[u16],
    ids: &[u16],
    assignment: &[u64],
    rows: &[u16],
    element: u16,
    id: u16,
) -> bool
    requires walkable { Walkable concepts.now ids.now assignment.now rows.now }
    requires element_bound { (element < 192) × (id < count_of concepts.now) }
    ensures { Right result (IsIn concepts.now ids.now assignment.now rows.now (tree concepts.now id) element) }
{
    let mut ends = [0usize; ENDS];
    note_stretches(rows, &mut ends);
    let mut memo = [0u8; CELLS];
    member_at(
        concepts, ids, assignment, rows, &ends, &mut memo, element, id,
    )
}
