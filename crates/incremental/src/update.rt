// Updating a held subsumption table.
ghost use Rattle.subsumption.specs.Lent.{lent};
ghost use Rattle.subsumption.specs.Refusal.{reply_of};
ghost use Rattle.subsumption.specs.Inner.Listing.{ForAccepted, Prepared};
ghost use Rattle.incremental.specs.Update.{Updates};

use crate::bytes::store;
use crate::closing::close;
use crate::told::{check_told, read_told};
use square::helpers::{SQUARE, load};
use subsumption::limits::{ATOMS, ROW_BYTES};
use subsumption::refusal::Refusal;
use subsumption::{Tables, list_atoms};

const MOST_VARIABLES: usize = 8;

// Checks 9 and 8, and then the closing, with the atoms that were listed when the tables passed.
fn put_update(
    concepts: &[u16],
    inclusions: &[u16],
    roles: &[u16],
    atoms: &[u16],
    variables: u16,
    told: &[u16],
    table: &mut [u8],
) -> Result<(), Refusal>
    requires { Prepared concepts.now inclusions.now roles.now variables atoms.now }
    ensures { ForAccepted concepts.now inclusions.now roles.now variables atoms.now
        (λ t. Updates t told.now table.old table.new (reply_of result)) }
{
    check_told(atoms, variables, told)?;
    let count = concepts.len() / 3;
    if table.len() < count * ROW_BYTES {
        return Err(Refusal::BufferTooShort(count * ROW_BYTES));
    }
    let mut choices = [0u64; MOST_VARIABLES];
    read_told(atoms, told, &mut choices);
    let mut square = [0u64; SQUARE];
    load(table, count, &mut square);
    close(concepts, inclusions, roles, atoms, &choices, &mut square);
    store(&square, count, table);
    Ok(())
}

// Makes the held table the smallest one that holds its own marks and is closed under the rules.
pub fn update_table(tables: Tables, told: &[u16], table: &mut [u8]) -> Result<(), Refusal>
    ensures { Updates (lent tables) told.now table.old table.new (reply_of result) }
{
    let mut ids = [0u16; ATOMS];
    let count = list_atoms(tables, &mut ids)?;
    put_update(
        tables.concepts,
        tables.inclusions,
        tables.roles,
        &ids[..count],
        tables.variables,
        told,
        table,
    )
}
