// Deciding one pair.
ghost use Rattle.std.specs.Prelude.{◌<◌};
ghost use Rattle.subsumption.specs.Lent.{lent};
ghost use Rattle.subsumption.specs.Tables.{count_of};
ghost use Rattle.subsumption.specs.Inner.Listing.{ForAccepted, Prepared};
ghost use Rattle.subsumption.specs.Decide.{decision_reply, Decides};

use crate::check::check_assignment;
use crate::closure::close;
use crate::closure::columns::below;
use crate::limits::{ATOMS, WORDS};
use crate::listing::list_asked;
use crate::refusal::Refusal;
use crate::tables::Tables;

// Check 9, and then the answer. The atoms were listed when the tables and the pair passed, so no question is read again.
pub fn decide_known(
    concepts: &[u16],
    inclusions: &[u16],
    roles: &[u16],
    atoms: &[u16],
    variables: u16,
    assignment: &[u64],
    left: u16,
    right: u16,
) -> Result<bool, Refusal>
    requires prepared { Prepared concepts.now inclusions.now roles.now variables atoms.now }
    requires left_bound { (left < count_of concepts.now) × (right < count_of concepts.now) }
    ensures { ForAccepted concepts.now inclusions.now roles.now variables atoms.now
        (λ t. Decides t assignment.now left right (decision_reply result)) }
{
    check_assignment(assignment, variables, atoms.len())?;
    let mut columns = [0u64; WORDS];
    close(concepts, inclusions, roles, atoms, assignment, &mut columns);
    if below(&columns, left as usize, right as usize) {
        return Ok(true);
    }
    Ok(false)
}

// Decides one pair under an assignment.
pub fn decide_pair(
    tables: Tables,
    assignment: &[u64],
    left: u16,
    right: u16,
) -> Result<bool, Refusal>
    ensures { Decides (lent tables) assignment.now left right (decision_reply result) }
{
    let mut ids = [0u16; ATOMS];
    let count = list_asked(tables, left, right, &mut ids)?;
    decide_known(
        tables.concepts,
        tables.inclusions,
        tables.roles,
        &ids[..count],
        tables.variables,
        assignment,
        left,
        right,
    )
}
