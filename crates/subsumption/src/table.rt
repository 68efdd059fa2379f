// Writing the subsumption table, and counting its marks.
ghost use Rattle.subsumption.specs.Refusal.{value_reply};
ghost use Rattle.subsumption.specs.Lent.{lent};
ghost use Rattle.subsumption.specs.Inner.Listing.{ForAccepted, Prepared};
ghost use Rattle.subsumption.specs.Table.{Wrote};

use crate::check::{check_assignment, check_buffer};
use crate::closure::close;
use crate::counting::count_pairs;
use crate::limits::{ATOMS, ROW_BYTES, WORDS};
use crate::listing::list_atoms;
use crate::refusal::Refusal;
use crate::rows::write_rows;
use crate::tables::Tables;

// Checks 9 and 8, and then the table. The atoms were listed when the tables passed, so no question is read again.
fn put_table(
    concepts: &[u16],
    inclusions: &[u16],
    roles: &[u16],
    atoms: &[u16],
    variables: u16,
    assignment: &[u64],
    out: &mut [u8],
) -> Result<usize, Refusal>
    requires { Prepared concepts.now inclusions.now roles.now variables atoms.now }
    ensures { ForAccepted concepts.now inclusions.now roles.now variables atoms.now
        (λ t. Wrote t assignment.now out.old out.new (value_reply result)) }
{
    check_assignment(assignment, variables, atoms.len())?;
    let count = concepts.len() / 3;
    check_buffer(count * ROW_BYTES, out.len())?;
    let mut columns = [0u64; WORDS];
    close(concepts, inclusions, roles, atoms, assignment, &mut columns);
    write_rows(&columns, count, out);
    Ok(count_pairs(&columns, count))
}

// Writes the subsumption table under an assignment.
pub fn write_table(tables: Tables, assignment: &[u64], out: &mut [u8]) -> Result<usize, Refusal>
    ensures { Wrote (lent tables) assignment.now out.old out.new
        (value_reply result) }
{
    let mut ids = [0u16; ATOMS];
    let count = list_atoms(tables, &mut ids)?;
    put_table(
        tables.concepts,
        tables.inclusions,
        tables.roles,
        &ids[..count],
        tables.variables,
        assignment,
        out,
    )
}
