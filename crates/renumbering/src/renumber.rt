// Renumbering tables into a second set of buffers.
ghost use Rattle.std.specs.Prelude.{◌≡◌, length};
ghost use Rattle.subsumption.specs.Lent.{lent};
ghost use Rattle.subsumption.specs.Refusal.{reply_of};
ghost use Rattle.renumbering.specs.Renumber.{renumbering_fault, Renumbers};

use crate::moving::{check_rising, put_ids, put_rows};
use crate::order::{check_order, invert};
use subsumption::limits::CONCEPTS;
use subsumption::refusal::Refusal;
use subsumption::{Tables, check_tables};

// All checks, before anything is written. The sizes are those of the buffers.
fn check_renumbering(
    tables: Tables,
    order: &[u16],
    concepts_size: usize,
    inclusions_size: usize,
    questions_size: usize,
) -> Result<(), Refusal>
    ensures { result ≡ renumbering_fault (lent tables)
        order.now concepts_size inclusions_size questions_size }
{
    check_tables(tables)?;
    check_order(order, tables.concepts.len() / 3)?;
    check_rising(tables.concepts, order)?;
    if concepts_size < tables.concepts.len() {
        return Err(Refusal::BufferTooShort(tables.concepts.len()));
    }
    if inclusions_size < tables.inclusions.len() {
        return Err(Refusal::BufferTooShort(tables.inclusions.len()));
    }
    if questions_size < tables.questions.len() {
        return Err(Refusal::BufferTooShort(tables.questions.len()));
    }
    Ok(())
}

// Writes the renumbered concepts, inclusions and questions, each into its buffer.
pub fn renumber_tables(
    tables: Tables,
    order: &[u16],
    concepts_out: &mut [u16],
    inclusions_out: &mut [u16],
    questions_out: &mut [u16],
) -> Result<(), Refusal>
    ensures { Renumbers (lent tables) order.now concepts_out.old
        concepts_out.new inclusions_out.old inclusions_out.new questions_out.old questions_out.new
        (reply_of result) }
{
    check_renumbering(
        tables,
        order,
        concepts_out.len(),
        inclusions_out.len(),
        questions_out.len(),
    )?;
    let mut back = [0u16; CONCEPTS];
    invert(order, &mut back);
    put_rows(tables.concepts, order, &back, concepts_out);
    put_ids(order, tables.inclusions, inclusions_out);
    put_ids(order, tables.questions, questions_out);
    Ok(())
}
