// Listing the atoms. The list is what every other operation starts from, so that atoms are marked once an operation.
ghost use Rattle.subsumption.specs.Refusal.{Done, value_reply};
ghost use Rattle.std.specs.Prelude.{◌≡◌, length};
ghost use Rattle.subsumption.specs.Lent.{lent};
ghost use Rattle.subsumption.specs.Inner.Lent.{given};
ghost use Rattle.subsumption.specs.Check.{concept_fault, id_fault};
ghost use Rattle.subsumption.specs.Listing.{ListedBy, Lists};
ghost use Rattle.subsumption.specs.Inner.Listing.{used_fault, asked_fault};

use crate::atoms::list_marks;
use crate::check::{check_alone, check_concepts, check_ids, check_use};
use crate::limits::{ATOMS, CONCEPTS};
use crate::refusal::Refusal;
use crate::tables::Tables;

// Checks 5 to 8 of tables that passed the others, and the atoms' ids.
fn list_used(tables: Tables, out: &mut [u16]) -> Result<usize, Refusal>
    requires variables_value { concept_fault (given tables) ≡ Done }
    requires variables_value_2 { id_fault (given tables) ≡ Done }
    ensures { ListedBy (lent tables) out.old out.new
        (used_fault (lent tables) (length out.old)) (value_reply result) }
{
    let mut marks = [false; CONCEPTS];
    check_use(tables, &mut marks)?;
    if out.len() < ATOMS {
        return Err(Refusal::BufferTooShort(ATOMS));
    }
    Ok(list_marks(&marks, tables.concepts.len() / 3, out))
}

// Lists the atoms' ids, rising, and gives their number.
pub fn list_atoms(tables: Tables, out: &mut [u16]) -> Result<usize, Refusal>
    ensures { Lists (lent tables) out.old out.new (value_reply result) }
{
    check_concepts(tables)?;
    check_ids(tables)?;
    list_used(tables, out)
}

// The same with a pair given alone, which check 4 judges at place 0.
pub fn list_asked(tables: Tables, left: u16, right: u16, out: &mut [u16]) -> Result<usize, Refusal>
    ensures { ListedBy (lent tables) out.old out.new
        (asked_fault (lent tables) left right (length out.old)) (value_reply result) }
{
    check_concepts(tables)?;
    check_alone(tables.concepts, left, right)?;
    check_ids(tables)?;
    list_used(tables, out)
}
