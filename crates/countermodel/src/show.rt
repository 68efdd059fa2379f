// Showing an interpretation where a pair fails.
ghost use Rattle.subsumption.specs.Refusal.{value_reply};
ghost use Rattle.std.specs.Prelude.{◌≡◌, length};
ghost use Rattle.subsumption.specs.Lent.{lent};
ghost use Rattle.subsumption.specs.Table.{marked};
ghost use Rattle.subsumption.specs.Inner.Roles.{LowRoles};
ghost use Rattle.subsumption.specs.Inner.Sizes.{table_size};
ghost use Rattle.countermodel.specs.Countermodel.{shown_rows};
ghost use Rattle.countermodel.specs.Show.{Shows};
ghost use Rattle.countermodel.specs.Inner.Show.{Checked, Judged, Laid};

use crate::elements::put_rows;
use crate::limits::TABLE_BYTES;
use crate::marks::is_marked;
use subsumption::helpers::list_asked;
use subsumption::limits::ATOMS;
use subsumption::refusal::Refusal;
use subsumption::{Tables, write_table};

// The checks of an asked pair and an assignment, and that the pair fails; the table then holds the marks.
pub fn judge_pair(
    tables: Tables,
    assignment: &[u64],
    left: u16,
    right: u16,
    table: &mut [u8; TABLE_BYTES],
) -> Result<(), Refusal>
    ensures { Judged (lent tables) assignment.now left right table.new result }
{
    let mut ids = [0u16; ATOMS];
    list_asked(tables, left, right, &mut ids)?;
    write_table(tables, assignment, table)?;
    if is_marked(table, left as usize, right as usize) {
        return Err(Refusal::NoCountermodel);
    }
    Ok(())
}

// The rows of the marks, counted before they are put.
fn show_known(
    concepts: &[u16],
    roles: &[u16],
    table: &[u8; TABLE_BYTES],
    out: &mut [u16],
) -> Result<usize, Refusal>
    requires checked { Checked concepts.now }
    requires low_roles { LowRoles roles.now }
    ensures { Laid (shown_rows concepts.now roles.now (marked table.now)) out.old out.new (value_reply result) }
{
    let mut none = [0u16; 0];
    let wanted = put_rows(concepts, roles, table, &mut none);
    if out.len() < wanted {
        return Err(Refusal::BufferTooShort(wanted));
    }
    put_rows(concepts, roles, table, out);
    Ok(wanted / 4)
}

// Shows an interpretation where the pair fails under the assignment, in rows of four numbers.
pub fn show_countermodel(
    tables: Tables,
    assignment: &[u64],
    left: u16,
    right: u16,
    out: &mut [u16],
) -> Result<usize, Refusal>
    ensures { Shows (lent tables) assignment.now left right
        out.old out.new (value_reply result) }
{
    let mut table = [0u8; TABLE_BYTES];
    judge_pair(tables, assignment, left, right, &mut table)?;
    show_known(tables.concepts, tables.roles, &table, out)
}
