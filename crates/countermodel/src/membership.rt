// Whether an element of a given interpretation is a member of a concept.
mod check;
mod stretches;
mod walk;

ghost use Rattle.subsumption.specs.Lent.{lent};
ghost use Rattle.subsumption.specs.Decide.{decision_reply};
ghost use Rattle.countermodel.specs.Membership.{DecidesMember};
ghost use Rattle.countermodel.specs.Inner.Membership.{Listing, ForListing};

use crate::membership::check::{check_element, check_rows, check_size};
use crate::membership::walk::is_member;
use subsumption::helpers::check_assignment;
use subsumption::limits::ATOMS;
use subsumption::refusal::Refusal;
use subsumption::{Tables, list_atoms};

// Check 9 and those of the given interpretation, and then the answer: what is left where the tables passed.
fn decide_known(
    concepts: &[u16],
    ids: &[u16],
    variables: u16,
    assignment: &[u64],
    size: u16,
    rows: &[u16],
    concept: u16,
    element: u16,
) -> Result<bool, Refusal>
    requires { Listing concepts.now variables ids.now }
    ensures { ForListing concepts.now variables ids.now
        (λ t. DecidesMember t assignment.now size rows.now concept element (decision_reply result)) }
{
    check_assignment(assignment, variables, ids.len())?;
    check_size(size, rows)?;
    check_rows(size, rows)?;
    check_element(concepts.len() / 3, size, concept, element)?;
    if is_member(concepts, ids, assignment, rows, element, concept) {
        return Ok(true);
    }
    Ok(false)
}

// Tells whether the element is a member of the concept, under an assignment.
pub fn decide_member(
    tables: Tables,
    assignment: &[u64],
    size: u16,
    rows: &[u16],
    concept: u16,
    element: u16,
) -> Result<bool, Refusal>
    ensures { DecidesMember (lent tables) assignment.now size
        rows.now concept element (decision_reply result) }
{
    let mut ids = [0u16; ATOMS];
    let count = list_atoms(tables, &mut ids)?;
    decide_known(
        tables.concepts,
        &ids[..count],
        tables.variables,
        assignment,
        size,
        rows,
        concept,
        element,
    )
}
