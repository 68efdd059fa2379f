// Answers in the numbers of the C interface: those of the operations that keep a catalogue, its table updated, its concepts
// renumbered, its text read.
#![tactic(auto)]

ghost use Rattle.std.specs.Prelude.{◌≡◌};
ghost use Rattle.incremental.specs.Update.{Updates};
ghost use Rattle.renumbering.specs.Renumber.{Renumbers};
ghost use Rattle.owl.specs.Read.{catalogue_reply, ReadsCatalogue};
ghost use Rattle.answers.specs.Answer.{replied};
ghost use Rattle.catalogue_answers.specs.Answer.{replied_tables};
ghost use Rattle.subsumption.specs.Lent.{lent};

use answers::{Answer, answer_of};
use owl::Catalogue;
use subsumption::Tables;
use subsumption::refusal::{Refusal, code_of};

// number 0: so many entries and inclusions were read; else the refusal's number, with its place and zeros.
#[repr(C)]
#[derive(Clone, Copy)]
pub struct CatalogueAnswer {
    pub number: u16,
    pub place: u64,
    pub entries: u64,
    pub inclusions: u64,
}

// Closes a held table under the rules, with the assignment told as pairs.
pub fn update_table(tables: Tables, told: &[u16], table: &mut [u8]) -> Answer
    ensures { Updates (lent tables) told.now table.old table.new (replied result) }
{
    let updated = incremental::update_table(tables, told, table);
    answer_of(updated.map(|()| 0))
}

// Gives each concept the new id that the list says, in a second set of buffers.
pub fn renumber(
    tables: Tables,
    order: &[u16],
    concepts_out: &mut [u16],
    inclusions_out: &mut [u16],
    questions_out: &mut [u16],
) -> Answer
    ensures { Renumbers (lent tables) order.now concepts_out.old
        concepts_out.new inclusions_out.old inclusions_out.new questions_out.old questions_out.new
        (replied result) }
{
    let renumbered = renumbering::renumber_tables(
        tables,
        order,
        concepts_out,
        inclusions_out,
        questions_out,
    );
    answer_of(renumbered.map(|()| 0))
}

// What was read, in the header's numbers.
fn catalogue_of(read: Result<Catalogue, Refusal>) -> CatalogueAnswer
    ensures { replied_tables result ≡ catalogue_reply read }
{
    match read {
        Ok(catalogue) => CatalogueAnswer {
            number: 0,
            place: 0,
            entries: catalogue.concepts as u64,
            inclusions: catalogue.inclusions as u64,
        },
        Err(r) => {
            let code = code_of(r);
            let number = code.number;
            let place = code.place as u64;
            CatalogueAnswer {
                number,
                place,
                entries: 0,
                inclusions: 0,
            }
        }
    }
}

// Reads a catalogue in OWL functional syntax.
pub fn read_owl(text: &[u8], concepts: &mut [u16], inclusions: &mut [u16]) -> CatalogueAnswer
    ensures { ReadsCatalogue text.now concepts.old concepts.new inclusions.old inclusions.new
        (replied_tables result) }
{
    let read = owl::read_catalogue(text, concepts, inclusions);
    catalogue_of(read)
}
