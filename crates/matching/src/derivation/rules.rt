// The eight rules of a derivation line, tested against marked pairs. Private to the crate.
ghost use Rattle.std.specs.Prelude.{◌≡◌, ◌<◌, ◌≤◌, eqb, ltb, length, get_or};
ghost use Rattle.subsumption.specs.Tables.{or, both, count_of, pairs_of, left_of, right_of};
ghost use Rattle.subsumption.specs.Atoms.{pick};
ghost use Rattle.subsumption.specs.Inner.Atoms.{Known};
ghost use Rattle.subsumption.specs.Inner.Tables.{Rising};
ghost use Rattle.subsumption.specs.Inner.Closure.{Ready};
ghost use Rattle.subsumption.specs.Rules.{every, contains, same_name, is_top, on_picked, on_both, on_inner, on_variable};
ghost use Rattle.matching.specs.Inner.Derivation.{Square, seen, KnownAtoms, Numbered, LowRole, ByRule};
ghost use Rattle.subsumption.specs.Inner.Roles.{in_set};
ghost use Rattle.subsumption.specs.Inner.Sizes.{roles_size};

use crate::derivation::marks::has_mark;
use subsumption::helpers::{Node, counts, node_at, pair_at};
use subsumption::limits::ROLE_WORDS;

// Rule 1.
#[tactic(auto, unfolding(subsumption::specs::Rules::same_name, subsumption::specs::Tables::or))]
fn by_name(left: usize, right: usize, l: Node, r: Node) -> bool
    ensures { result ≡ or (eqb left right) (same_name l r) }
{
    if left == right {
        return true;
    }
    match (l, r) {
        (Node::Name(a), Node::Name(b)) => a == b,
        _ => false,
    }
}

// Rule 2.
#[tactic(auto, unfolding(subsumption::specs::Rules::is_top))]
fn by_top(r: Node) -> bool
    ensures { result ≡ is_top r }
{
    matches!(r, Node::Top)
}

// Rule 3.
#[tactic(auto, unfolding(subsumption::specs::Rules::on_picked))]
fn by_member(marks: &[bool], count: usize, l: Node, right: usize, extra: usize) -> bool
    requires square { Square count marks.now }
    requires rising { Rising count l }
    requires right_lt_count { right < count }
    ensures { result ≡ on_picked extra (λ i. seen count marks.now i right) l }
{
    match (l, extra) {
        (Node::And(a, _), 0) => has_mark(marks, count, a as usize, right),
        (Node::And(_, b), 1) => has_mark(marks, count, b as usize, right),
        _ => false,
    }
}

// Rule 4.
#[tactic(auto, unfolding(subsumption::specs::Rules::on_both, subsumption::specs::Tables::both))]
fn by_both(marks: &[bool], count: usize, left: usize, r: Node) -> bool
    requires square { Square count marks.now }
    requires rising { Rising count r }
    requires left_lt_count { left < count }
    ensures { result ≡ on_both (λ j. seen count marks.now left j) r }
{
    let Node::And(a, b) = r else {
        return false;
    };
    has_mark(marks, count, left, a as usize) && has_mark(marks, count, left, b as usize)
}

// Rule 5.
#[tactic(auto, unfolding(subsumption::specs::Rules::on_inner, subsumption::specs::Tables::both))]
fn by_inner(into: &[u64; ROLE_WORDS], marks: &[bool], count: usize, l: Node, r: Node) -> bool
    requires low_role { LowRole l }
    requires low_role_2 { LowRole r }
    requires square { Square count marks.now }
    requires rising { Rising count l }
    requires rising_2 { Rising count r }
    ensures { result ≡ on_inner (in_set into.now) (seen count marks.now) l r }
{
    match (l, r) {
        (Node::Exists(narrow, i), Node::Exists(wide, j)) => {
            counts(into, narrow as usize, wide as usize)
                && has_mark(marks, count, i as usize, j as usize)
        }
        _ => false,
    }
}

// Rule 6.
fn by_inclusion(
    inclusions: &[u16],
    marks: &[bool],
    count: usize,
    left: usize,
    right: usize,
    extra: usize,
) -> bool
    requires square { Square count marks.now }
    requires known { Known count inclusions.now }
    requires left_lt_count { (left < count) × (right < count) }
    ensures { result ≡ both (ltb extra (pairs_of inclusions.now))
        (both (seen count marks.now left (left_of inclusions.now extra))
        (seen count marks.now (right_of inclusions.now extra) right)) }
{
    if inclusions.len() / 2 <= extra {
        return false;
    }
    let pair = pair_at(inclusions, extra);
    if has_mark(marks, count, left, pair.left as usize) {
        return has_mark(marks, count, pair.right as usize, right);
    }
    false
}

// Whether the choice takes that id.
fn is_chosen(atoms: &[u16], choice: u64, id: usize) -> bool
    requires { length atoms.now ≤ 64 }
    ensures { result ≡ contains id (pick atoms.now choice) }
{
    for (q, &atom) in atoms.iter().enumerate() {
        let picked = (choice >> q) % 2;
        if picked == 0 {
            continue;
        }
        if atom as usize == id {
            return true;
        }
    }
    false
}

// Rule 7.
#[tactic(auto, unfolding(subsumption::specs::Rules::on_variable, subsumption::specs::Tables::both))]
fn by_choice(
    atoms: &[u16],
    assignment: &[u64],
    marks: &[bool],
    count: usize,
    l: Node,
    right: usize,
    extra: usize,
) -> bool
    requires square { Square count marks.now }
    requires known_atoms { KnownAtoms count atoms.now }
    requires numbered { Numbered assignment.now l }
    requires right_lt_count { right < count }
    ensures { result ≡ on_variable
        (λ k. both (contains extra (pick atoms.now (get_or assignment.now k 0))) (seen count marks.now extra right))
        l }
{
    let Node::Variable(k) = l else {
        return false;
    };
    if count <= extra {
        return false;
    }
    if has_mark(marks, count, extra, right) {
        return is_chosen(atoms, assignment[k as usize], extra);
    }
    false
}

// Whether every id that the choice takes is marked above `left`.
fn all_marked(atoms: &[u16], choice: u64, marks: &[bool], count: usize, left: usize) -> bool
    requires square { Square count marks.now }
    requires known_atoms { KnownAtoms count atoms.now }
    requires left_lt_count { left < count }
    ensures { result ≡ every (λ p. seen count marks.now left p) (pick atoms.now choice) }
{
    for (q, &atom) in atoms.iter().enumerate() {
        let picked = (choice >> q) % 2;
        if picked == 0 {
            continue;
        }
        if !has_mark(marks, count, left, atom as usize) {
            return false;
        }
    }
    true
}

// Rule 8.
#[tactic(auto, unfolding(subsumption::specs::Rules::on_variable))]
fn by_all(
    atoms: &[u16],
    assignment: &[u64],
    marks: &[bool],
    count: usize,
    left: usize,
    r: Node,
) -> bool
    requires square { Square count marks.now }
    requires known_atoms { KnownAtoms count atoms.now }
    requires numbered { Numbered assignment.now r }
    requires left_lt_count { left < count }
    ensures { result ≡ on_variable
        (λ k. every (λ p. seen count marks.now left p) (pick atoms.now (get_or assignment.now k 0))) r }
{
    let Node::Variable(k) = r else {
        return false;
    };
    all_marked(atoms, assignment[k as usize], marks, count, left)
}

// What the rule asks of a line whose left and right are ids. A rule reads only the rows that it needs: with both read for every line the
// check of a long list took half as much time again.
pub fn by_rule(
    concepts: &[u16],
    inclusions: &[u16],
    into: &[u64; ROLE_WORDS],
    atoms: &[u16],
    assignment: &[u64],
    marks: &[bool],
    rule: usize,
    left: usize,
    right: usize,
    extra: usize,
) -> bool
    requires ready { Ready concepts.now inclusions.now atoms.now assignment.now }
    requires square { Square (count_of concepts.now) marks.now }
    requires left_bound { (left < count_of concepts.now) × (right < count_of concepts.now) }
    ensures { ByRule concepts.now inclusions.now into.now atoms.now assignment.now
        marks.now rule left right extra result }
{
    let count = concepts.len() / 3;
    if rule == 3 {
        let l = node_at(concepts, left);
        return by_member(marks, count, l, right, extra);
    }
    if rule == 6 {
        return by_inclusion(inclusions, marks, count, left, right, extra);
    }
    if rule == 7 {
        let l = node_at(concepts, left);
        return by_choice(atoms, assignment, marks, count, l, right, extra);
    }
    if extra != 0 {
        return false;
    }
    if rule == 1 {
        let l = node_at(concepts, left);
        let r = node_at(concepts, right);
        return by_name(left, right, l, r);
    }
    if rule == 2 {
        let r = node_at(concepts, right);
        return by_top(r);
    }
    if rule == 4 {
        let r = node_at(concepts, right);
        return by_both(marks, count, left, r);
    }
    if rule == 5 {
        let l = node_at(concepts, left);
        let r = node_at(concepts, right);
        return by_inner(into, marks, count, l, r);
    }
    if rule == 8 {
        let r = node_at(concepts, right);
        return by_all(atoms, assignment, marks, count, left, r);
    }
    false
}
