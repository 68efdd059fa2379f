// The search for a pair that follows from marked pairs, with its rule and extra. Private to the crate.
ghost use Rattle.std.specs.Prelude.{◌<◌, ◌≤◌, ◌≡◌, length};
ghost use Rattle.subsumption.specs.Tables.{count_of, pairs_of};
ghost use Rattle.subsumption.specs.Inner.Sizes.{roles_size};
ghost use Rattle.matching.specs.Inner.Derivation.{Square};
ghost use Rattle.matching.specs.Inner.Writer.{Grounds};
ghost use Rattle.matching.specs.Inner.Writer.Explain.{ExtraBound, Tried, Explained, Tested, Found};

use crate::derivation::marks::has_mark;
use crate::derivation::rules::by_rule;
use crate::writer::propose::{extra_of, left_of, right_of, rule_of};
use subsumption::helpers::{Node, node_at};
use subsumption::limits::ROLE_WORDS;

// The rule gives the pair of left and right, with the extra.
#[derive(Clone, Copy)]
pub struct Line {
    pub rule: usize,
    pub left: usize,
    pub right: usize,
    pub extra: usize,
}

// How many extras the rule may have.
fn extras(concepts: &[u16], inclusions: &[u16], rule: usize, left: usize) -> usize
    requires concepts_bound { (count_of concepts.now ≤ 192) × (pairs_of inclusions.now ≤ 192) }
    requires left_bound { left < count_of concepts.now }
    ensures { ExtraBound concepts.now inclusions.now rule left result }
{
    if rule == 3 {
        return 2;
    }
    if rule == 6 {
        return inclusions.len() / 2;
    }
    if rule == 7 {
        let Node::Variable(_) = node_at(concepts, left) else {
            return 0;
        };
        return concepts.len() / 3;
    }
    1
}

// The lowest extra with which the rule gives the pair.
fn try_rule(
    concepts: &[u16],
    inclusions: &[u16],
    into: &[u64; ROLE_WORDS],
    atoms: &[u16],
    assignment: &[u64],
    marks: &[bool],
    rule: usize,
    left: usize,
    right: usize,
) -> Option<usize>
    requires grounds { Grounds concepts.now inclusions.now atoms.now assignment.now }
    requires square { Square (count_of concepts.now) marks.now }
    requires left_bound { (left < count_of concepts.now) × (right < count_of concepts.now) }
    requires rule_bound { rule < 9 }
    ensures { Tried concepts.now inclusions.now into.now atoms.now assignment.now
        marks.now rule left right result }
{
    let bound = extras(concepts, inclusions, rule, left);
    for extra in 0..bound {
        if by_rule(
            concepts, inclusions, into, atoms, assignment, marks, rule, left, right, extra,
        ) {
            return Some(extra);
        }
    }
    None
}

// The lowest rule that gives the pair, and the extra.
fn explain(
    concepts: &[u16],
    inclusions: &[u16],
    into: &[u64; ROLE_WORDS],
    atoms: &[u16],
    assignment: &[u64],
    marks: &[bool],
    left: usize,
    right: usize,
) -> Option<(usize, usize)>
    requires grounds { Grounds concepts.now inclusions.now atoms.now assignment.now }
    requires square { Square (count_of concepts.now) marks.now }
    requires left_bound { (left < count_of concepts.now) × (right < count_of concepts.now) }
    ensures { Explained concepts.now inclusions.now into.now atoms.now assignment.now
        marks.now left right result }
{
    for rule in 1..9 {
        let tried = try_rule(
            concepts, inclusions, into, atoms, assignment, marks, rule, left, right,
        );
        if let Some(extra) = tried {
            return Some((rule, extra));
        }
    }
    None
}

// The proposed line, if its pair is not marked and follows from the marks.
pub fn test_line(
    concepts: &[u16],
    inclusions: &[u16],
    into: &[u64; ROLE_WORDS],
    atoms: &[u16],
    assignment: &[u64],
    marks: &[bool],
    line: u64,
) -> Option<Line>
    requires grounds { Grounds concepts.now inclusions.now atoms.now assignment.now }
    requires square { Square (count_of concepts.now) marks.now }
    ensures { Tested concepts.now inclusions.now into.now atoms.now assignment.now marks.now result }
{
    let count = concepts.len() / 3;
    let rule = rule_of(line) as usize;
    let left = left_of(line) as usize;
    let right = right_of(line) as usize;
    let extra = extra_of(line) as usize;
    if 9 <= rule {
        return None;
    }
    if count <= left {
        return None;
    }
    if count <= right {
        return None;
    }
    if 192 <= extra {
        return None;
    }
    if has_mark(marks, count, left, right) {
        return None;
    }
    if by_rule(
        concepts, inclusions, into, atoms, assignment, marks, rule, left, right, extra,
    ) {
        return Some(Line {
            rule,
            left,
            right,
            extra,
        });
    }
    None
}

// The first pair from a cell on that is not marked and follows from the marks.
pub fn next_line(
    concepts: &[u16],
    inclusions: &[u16],
    into: &[u64; ROLE_WORDS],
    atoms: &[u16],
    assignment: &[u64],
    marks: &[bool],
    from: usize,
) -> Option<Line>
    requires grounds { Grounds concepts.now inclusions.now atoms.now assignment.now }
    requires square { Square (count_of concepts.now) marks.now }
    ensures { Found concepts.now inclusions.now into.now atoms.now assignment.now marks.now from result }
{
    let count = concepts.len() / 3;
    let size = count * count;
    for p in from..size {
        let left = p / count;
        let right = p % count;
        if has_mark(marks, count, left, right) {
            continue;
        }
        let why = explain(
            concepts, inclusions, into, atoms, assignment, marks, left, right,
        );
        if let Some((rule, extra)) = why {
            return Some(Line {
                rule,
                left,
                right,
                extra,
            });
        }
    }
    None
}
