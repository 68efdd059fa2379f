// The checks 1 to 9, in 01's order. Each scan answers the lowest place at fault.
ghost use Rattle.std.specs.Prelude.{◌≡◌, not, false, ◌<◌, ◌≤◌, ◌^◌, ltb, replicate};
ghost use Rattle.subsumption.specs.Lent.{lent};
ghost use Rattle.subsumption.specs.Inner.Lent.{given};
ghost use Rattle.subsumption.specs.Tables.{count_of};
ghost use Rattle.subsumption.specs.Refusal.{reply_of, Done};
ghost use Rattle.subsumption.specs.Check.{unfit, limit_fault, malformed_row, malformed_fault, forward, forward_fault, no_concept, pairs_fault, alone_fault, buffer_fault, concept_fault, id_fault, inclusion_fault, sides_fault, roles_fault, table_fault, assignment_fault_at};
ghost use Rattle.subsumption.specs.Inner.Atoms.{VariableSets, Known};
ghost use Rattle.subsumption.specs.Inner.Check.{Used};

use crate::atoms::{and_also, count_marks, either, mark_atoms};
use crate::kinds::{CONJUNCTION, EXISTENTIAL, NAME, TOP, VARIABLE};
use crate::limits::{
    ATOMS, CONCEPTS, INCLUSIONS, LAST_NAME, LAST_ROLE, QUESTIONS, ROLE_PAIRS, VARIABLES,
};
use crate::refusal::Refusal;
use crate::tables::{Node, Tables, node_at, pair_at, row_at};
use crate::variables::write_sets;

// A table's length is no multiple of its row's width, or has too many rows.
fn is_unfit(numbers: &[u16], width: usize, limit: usize) -> bool
    requires { 0 < width }
    ensures { result ≡ unfit width limit numbers.now }
{
    numbers.len() % width != 0 || limit < numbers.len() / width
}

fn check_limits(tables: Tables) -> Result<(), Refusal>
    ensures { result ≡ limit_fault (lent tables) }
{
    if is_unfit(tables.concepts, 3, CONCEPTS) {
        return Err(Refusal::Limit(0));
    }
    if is_unfit(tables.inclusions, 2, INCLUSIONS) {
        return Err(Refusal::Limit(1));
    }
    if is_unfit(tables.questions, 2, QUESTIONS) {
        return Err(Refusal::Limit(2));
    }
    if VARIABLES < tables.variables {
        return Err(Refusal::Limit(3));
    }
    if is_unfit(tables.roles, 2, ROLE_PAIRS) {
        return Err(Refusal::Limit(4));
    }
    Ok(())
}

#[tactic(auto, unfolding(crate::specs::Check::malformed_row, crate::specs::Tables::or))]
fn is_malformed(variables: u16, kind: u16, a: u16, b: u16) -> bool
    ensures { result ≡ malformed_row variables kind a b }
{
    match kind {
        TOP => a != 0 || b != 0,
        NAME => LAST_NAME < a || b != 0,
        EXISTENTIAL => LAST_ROLE < a,
        CONJUNCTION => false,
        VARIABLE => variables <= a || b != 0,
        _ => true,
    }
}

fn check_rows(concepts: &[u16], variables: u16) -> Result<(), Refusal>
    ensures { result ≡ malformed_fault concepts.now variables }
{
    let count = concepts.len() / 3;
    for i in 0..count {
        let row = row_at(concepts, i);
        if is_malformed(variables, row.kind, row.a, row.b) {
            return Err(Refusal::Malformed(i));
        }
    }
    Ok(())
}

#[tactic(auto, unfolding(crate::specs::Check::forward, crate::specs::Tables::or))]
fn is_forward(i: usize, node: Node) -> bool
    ensures { result ≡ forward i node }
{
    match node {
        Node::Top | Node::Name(_) | Node::Variable(_) => false,
        Node::Exists(_, j) => i <= j as usize,
        Node::And(j, k) => i <= j as usize || i <= k as usize,
    }
}

fn check_inner(concepts: &[u16]) -> Result<(), Refusal>
    ensures { result ≡ forward_fault concepts.now }
{
    let count = concepts.len() / 3;
    for i in 0..count {
        if is_forward(i, node_at(concepts, i)) {
            return Err(Refusal::ForwardId(i));
        }
    }
    Ok(())
}

fn is_no_concept(count: usize, left: u16, right: u16) -> bool
    ensures { result ≡ no_concept count left right }
{
    count <= left as usize || count <= right as usize
}

// `passed` pairs are counted already.
fn check_pairs(passed: usize, count: usize, pairs: &[u16]) -> Result<(), Refusal>
    requires { passed ≤ 96 }
    ensures { result ≡ pairs_fault passed count pairs.now }
{
    let rows = pairs.len() / 2;
    for m in 0..rows {
        let pair = pair_at(pairs, m);
        if is_no_concept(count, pair.left, pair.right) {
            return Err(Refusal::NoConcept(passed + m));
        }
    }
    Ok(())
}

// Check 4 of a pair given alone.
pub fn check_alone(concepts: &[u16], left: u16, right: u16) -> Result<(), Refusal>
    ensures { result ≡ alone_fault concepts.now left right }
{
    if is_no_concept(concepts.len() / 3, left, right) {
        return Err(Refusal::NoConcept(0));
    }
    Ok(())
}

// Check 8.
pub fn check_buffer(wanted: usize, size: usize) -> Result<(), Refusal>
    ensures { result ≡ buffer_fault wanted size }
{
    if size < wanted {
        return Err(Refusal::BufferTooShort(wanted));
    }
    Ok(())
}

// Checks 1 to 3.
pub fn check_concepts(tables: Tables) -> Result<(), Refusal>
    ensures { result ≡ concept_fault (lent tables) }
{
    check_limits(tables)?;
    check_rows(tables.concepts, tables.variables)?;
    check_inner(tables.concepts)
}

// Check 4 of the tables.
pub fn check_ids(tables: Tables) -> Result<(), Refusal>
    requires { concept_fault (given tables) ≡ Done }
    ensures { result ≡ id_fault (lent tables) }
{
    let count = tables.concepts.len() / 3;
    check_pairs(0, count, tables.inclusions)?;
    check_pairs(tables.inclusions.len() / 2, count, tables.questions)
}

// Check 5, by the sets of the variables.
fn check_inclusions(
    concepts: &[u16],
    inclusions: &[u16],
    sets: &[u8; CONCEPTS],
) -> Result<(), Refusal>
    requires variable_sets { VariableSets concepts.now sets.now }
    requires concepts_bound { count_of concepts.now ≤ 192 }
    requires known { Known (count_of concepts.now) inclusions.now }
    ensures { result ≡ inclusion_fault concepts.now inclusions.now }
{
    let rows = inclusions.len() / 2;
    for m in 0..rows {
        let pair = pair_at(inclusions, m);
        let left = pair.left as usize;
        let right = pair.right as usize;
        if either(sets[left] != 0, sets[right] != 0) {
            return Err(Refusal::VariableInInclusion(m));
        }
    }
    Ok(())
}

// Check 6.
fn check_sides(concepts: &[u16], questions: &[u16], sets: &[u8; CONCEPTS]) -> Result<(), Refusal>
    requires variable_sets { VariableSets concepts.now sets.now }
    requires concepts_bound { count_of concepts.now ≤ 192 }
    requires known { Known (count_of concepts.now) questions.now }
    ensures { result ≡ sides_fault concepts.now questions.now }
{
    let rows = questions.len() / 2;
    for m in 0..rows {
        let pair = pair_at(questions, m);
        let left = pair.left as usize;
        let right = pair.right as usize;
        if and_also(sets[left] != 0, sets[right] != 0) {
            return Err(Refusal::VariablesOnBothSides(m));
        }
    }
    Ok(())
}

// Check 16: a role over 99.
fn check_roles(roles: &[u16]) -> Result<(), Refusal>
    ensures { result ≡ roles_fault roles.now }
{
    let rows = roles.len() / 2;
    for m in 0..rows {
        let pair = pair_at(roles, m);
        if either(LAST_ROLE < pair.left, LAST_ROLE < pair.right) {
            return Err(Refusal::BadRole(m));
        }
    }
    Ok(())
}

// Checks 5, 6, 16 and 7. The atoms are marked on the way, for whoever lists them.
pub fn check_use(tables: Tables, marks: &mut [bool; CONCEPTS]) -> Result<(), Refusal>
    requires variables_value { concept_fault (given tables) ≡ Done }
    requires variables_value_2 { id_fault (given tables) ≡ Done }
    requires marks_value { marks.old ≡ replicate 192 false }
    ensures { Used (lent tables) marks.new result }
{
    let mut sets = [0u8; CONCEPTS];
    write_sets(tables.concepts, &mut sets);
    check_inclusions(tables.concepts, tables.inclusions, &sets)?;
    check_sides(tables.concepts, tables.questions, &sets)?;
    check_roles(tables.roles)?;
    mark_atoms(
        tables.concepts,
        tables.inclusions,
        tables.questions,
        &sets,
        marks,
    );
    if ATOMS < count_marks(marks, tables.concepts.len() / 3) {
        return Err(Refusal::TooManyAtoms);
    }
    Ok(())
}

// Checks the tables: 1 to 7.
pub fn check_tables(tables: Tables) -> Result<(), Refusal>
    ensures { reply_of result ≡ reply_of (table_fault (lent tables)) }
{
    check_concepts(tables)?;
    check_ids(tables)?;
    let mut marks = [false; CONCEPTS];
    check_use(tables, &mut marks)
}

// A choice has a bit past the atoms.
pub fn is_past(choice: u64, atoms: usize) -> bool
    requires { atoms ≤ 64 }
    ensures { result ≡ not (ltb choice (2 ^ atoms)) }
{
    atoms != ATOMS && (choice >> atoms) != 0
}

// Check 9, given the number of atoms.
pub fn check_assignment(assignment: &[u64], variables: u16, atoms: usize) -> Result<(), Refusal>
    requires { atoms ≤ 64 }
    ensures { result ≡ assignment_fault_at atoms variables assignment.now }
{
    let count = variables as usize;
    if assignment.len() != count {
        return Err(Refusal::BadAssignment(count));
    }
    for k in 0..count {
        if is_past(assignment[k], atoms) {
            return Err(Refusal::BadAssignment(k));
        }
    }
    Ok(())
}
