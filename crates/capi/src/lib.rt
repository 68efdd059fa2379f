// The operations for C and Rust. No logic of its own: each export passes on the answer in numbers that the crates of answers give.
#![tactic(auto)]

ghost use Rattle.std.specs.Prelude.{◌≡◌};
ghost use Rattle.subsumption.specs.Lent.{lent_singly};
ghost use Rattle.subsumption.specs.Tables.{tree, variables_of};
ghost use Rattle.subsumption.specs.Refusal.{reply_with, reply_of};
ghost use Rattle.subsumption.specs.Check.{table_fault, pair_fault};
ghost use Rattle.subsumption.specs.Listing.{Lists};
ghost use Rattle.subsumption.specs.Table.{Wrote};
ghost use Rattle.subsumption.specs.Decide.{Decides};
ghost use Rattle.matching.specs.Derivation.{checking_fault};
ghost use Rattle.settings.specs.Settings.{settings_lent_singly};
ghost use Rattle.matching.specs.Find.{Finds};
ghost use Rattle.matching.specs.Within.{FindsWithin};
ghost use Rattle.matching.specs.Chosen.{Chooses};
ghost use Rattle.matching.specs.Writer.{Derives};
ghost use Rattle.allowance.specs.Find.{FindsCounted};
ghost use Rattle.groups.specs.Find.{FindsGroup};
ghost use Rattle.batches.specs.Find.{FindsBatch};
ghost use Rattle.countermodel.specs.Show.{Shows};
ghost use Rattle.countermodel.specs.Membership.{DecidesMember};
ghost use Rattle.incremental.specs.Update.{Updates};
ghost use Rattle.renumbering.specs.Renumber.{Renumbers};
ghost use Rattle.owl.specs.Read.{ReadsCatalogue};
ghost use Rattle.answers.specs.Answer.{replied};
ghost use Rattle.catalogue_answers.specs.Answer.{replied_tables};

use answers::Answer;
use batches::Batch;
use catalogue_answers::CatalogueAnswer;
use settings::Settings;
use subsumption::Tables;

// Checks the tables.
#[unsafe(no_mangle)]
pub extern "C" fn hc_check(
    concepts: &[u16],
    inclusions: &[u16],
    questions: &[u16],
    roles: &[u16],
    variables: u16,
) -> Answer
    ensures { replied result ≡ reply_of (table_fault (lent_singly concepts inclusions questions roles variables)) }
{
    let tables = Tables {
        concepts,
        inclusions,
        questions,
        roles,
        variables,
    };
    answers::check(tables)
}

// Lists the atoms' ids; value: how many.
#[unsafe(no_mangle)]
pub extern "C" fn hc_atoms(
    concepts: &[u16],
    inclusions: &[u16],
    questions: &[u16],
    roles: &[u16],
    variables: u16,
    out: &mut [u16],
) -> Answer
    ensures { Lists (lent_singly concepts inclusions questions roles variables) out.old out.new (replied result) }
{
    let tables = Tables {
        concepts,
        inclusions,
        questions,
        roles,
        variables,
    };
    answers::atoms(tables, out)
}

// The set of the variables in a concept; value: the set, bit k for variable k.
#[unsafe(no_mangle)]
pub extern "C" fn hc_blanks(
    concepts: &[u16],
    inclusions: &[u16],
    questions: &[u16],
    roles: &[u16],
    variables: u16,
    id: u16,
) -> Answer
    ensures { replied result ≡ reply_with (pair_fault (lent_singly concepts inclusions questions roles variables) id id)
        (variables_of (tree (lent_singly concepts inclusions questions roles variables).concepts id)) }
{
    let tables = Tables {
        concepts,
        inclusions,
        questions,
        roles,
        variables,
    };
    answers::blanks(tables, id)
}

// Writes the subsumption table under an assignment; value: how many marks.
#[unsafe(no_mangle)]
pub extern "C" fn hc_subsumption_table(
    concepts: &[u16],
    inclusions: &[u16],
    questions: &[u16],
    roles: &[u16],
    variables: u16,
    assignment: &[u64],
    out: &mut [u8],
) -> Answer
    ensures { Wrote (lent_singly concepts inclusions questions roles variables) assignment.now out.old out.new (replied result) }
{
    let tables = Tables {
        concepts,
        inclusions,
        questions,
        roles,
        variables,
    };
    answers::subsumption_table(tables, assignment, out)
}

// Decides one pair under an assignment; value: 1 or 0.
#[unsafe(no_mangle)]
pub extern "C" fn hc_subsumed(
    concepts: &[u16],
    inclusions: &[u16],
    questions: &[u16],
    roles: &[u16],
    variables: u16,
    assignment: &[u64],
    left: u16,
    right: u16,
) -> Answer
    ensures { Decides (lent_singly concepts inclusions questions roles variables) assignment.now left right (replied result) }
{
    let tables = Tables {
        concepts,
        inclusions,
        questions,
        roles,
        variables,
    };
    answers::subsumed(tables, assignment, left, right)
}

// Finds the first assignment that makes every question hold; refusal 10: no substitution does.
#[unsafe(no_mangle)]
pub extern "C" fn hc_match(
    concepts: &[u16],
    inclusions: &[u16],
    questions: &[u16],
    roles: &[u16],
    variables: u16,
    out: &mut [u64],
) -> Answer
    ensures { Finds (lent_singly concepts inclusions questions roles variables) out.old out.new (replied result) }
{
    let tables = Tables {
        concepts,
        inclusions,
        questions,
        roles,
        variables,
    };
    matching_answers::find(tables, out)
}

// The same within settings; refusal 10: no assignment within them does.
#[unsafe(no_mangle)]
pub extern "C" fn hc_match_within(
    concepts: &[u16],
    inclusions: &[u16],
    questions: &[u16],
    roles: &[u16],
    variables: u16,
    permitted: &[u64],
    largest: &[u16],
    out: &mut [u64],
) -> Answer
    ensures { FindsWithin (lent_singly concepts inclusions questions roles variables) (settings_lent_singly permitted largest) out.old
        out.new (replied result) }
{
    let tables = Tables {
        concepts,
        inclusions,
        questions,
        roles,
        variables,
    };
    let settings = Settings { permitted, largest };
    matching_answers::find_within(tables, settings, out)
}

// The same on an allowance of decisions; value: their count, with 10 and 14 too; refusal 14: the count is over the allowance.
#[unsafe(no_mangle)]
pub extern "C" fn hc_match_counted(
    concepts: &[u16],
    inclusions: &[u16],
    questions: &[u16],
    roles: &[u16],
    variables: u16,
    permitted: &[u64],
    largest: &[u16],
    allowance: u32,
    out: &mut [u64],
) -> Answer
    ensures { FindsCounted (lent_singly concepts inclusions questions roles variables) (settings_lent_singly permitted largest) allowance
        out.old out.new (replied result) }
{
    let tables = Tables {
        concepts,
        inclusions,
        questions,
        roles,
        variables,
    };
    let settings = Settings { permitted, largest };
    finder_answers::find_counted(tables, settings, allowance, out)
}

// The same of the group of one question, without an allowance; refusal 10: no assignment within the settings makes the group's
// questions hold.
#[unsafe(no_mangle)]
pub extern "C" fn hc_match_group(
    concepts: &[u16],
    inclusions: &[u16],
    questions: &[u16],
    roles: &[u16],
    variables: u16,
    permitted: &[u64],
    largest: &[u16],
    question: u16,
    out: &mut [u64],
) -> Answer
    ensures { FindsGroup (lent_singly concepts inclusions questions roles variables) (settings_lent_singly permitted largest) question
        out.old out.new (replied result) }
{
    let tables = Tables {
        concepts,
        inclusions,
        questions,
        roles,
        variables,
    };
    let settings = Settings { permitted, largest };
    finder_answers::find_group(tables, settings, question, out)
}

// The same for each of several question tables, which lie one after another, on its share and what the ones before it left over.
#[unsafe(no_mangle)]
pub extern "C" fn hc_match_cards(
    concepts: &[u16],
    inclusions: &[u16],
    questions: &[u16],
    roles: &[u16],
    variables: u16,
    lengths: &[u16],
    shares: &[u32],
    out: &mut [u64],
) -> Batch
    ensures { FindsBatch (lent_singly concepts inclusions questions roles variables) lengths.now shares.now out.old
        out.new result }
{
    let tables = Tables {
        concepts,
        inclusions,
        questions,
        roles,
        variables,
    };
    batches::find_batch(tables, lengths, shares, out)
}

// Lists one variable's chosen ids; value: how many.
#[unsafe(no_mangle)]
pub extern "C" fn hc_chosen(
    concepts: &[u16],
    inclusions: &[u16],
    questions: &[u16],
    roles: &[u16],
    variables: u16,
    assignment: &[u64],
    variable: u16,
    out: &mut [u16],
) -> Answer
    ensures { Chooses (lent_singly concepts inclusions questions roles variables) assignment.now variable out.old
        out.new (replied result) }
{
    let tables = Tables {
        concepts,
        inclusions,
        questions,
        roles,
        variables,
    };
    matching_answers::chosen(tables, assignment, variable, out)
}

// Writes the derivation of one pair under an assignment; value: how many lines.
#[unsafe(no_mangle)]
pub extern "C" fn hc_derive(
    concepts: &[u16],
    inclusions: &[u16],
    questions: &[u16],
    roles: &[u16],
    variables: u16,
    assignment: &[u64],
    left: u16,
    right: u16,
    out: &mut [u16],
) -> Answer
    ensures { Derives (lent_singly concepts inclusions questions roles variables) assignment.now left right out.old
        out.new (replied result) }
{
    let tables = Tables {
        concepts,
        inclusions,
        questions,
        roles,
        variables,
    };
    derivation_answers::derive(tables, assignment, left, right, out)
}

// Checks a derivation of one pair under an assignment.
#[unsafe(no_mangle)]
pub extern "C" fn hc_check_derivation(
    concepts: &[u16],
    inclusions: &[u16],
    questions: &[u16],
    roles: &[u16],
    variables: u16,
    assignment: &[u64],
    left: u16,
    right: u16,
    lines: &[u16],
) -> Answer
    ensures { replied result ≡ reply_of
        (checking_fault (lent_singly concepts inclusions questions roles variables) assignment.now left right lines.now) }
{
    let tables = Tables {
        concepts,
        inclusions,
        questions,
        roles,
        variables,
    };
    derivation_answers::check_derivation(tables, assignment, left, right, lines)
}

// Shows an interpretation where one pair fails under an assignment; value: how many rows. Its elements are the concepts.
#[unsafe(no_mangle)]
pub extern "C" fn hc_show(
    concepts: &[u16],
    inclusions: &[u16],
    questions: &[u16],
    roles: &[u16],
    variables: u16,
    assignment: &[u64],
    left: u16,
    right: u16,
    out: &mut [u16],
) -> Answer
    ensures { Shows (lent_singly concepts inclusions questions roles variables) assignment.now left right out.old
        out.new (replied result) }
{
    let tables = Tables {
        concepts,
        inclusions,
        questions,
        roles,
        variables,
    };
    countermodel_answers::show(tables, assignment, left, right, out)
}

// Tells whether an element of a given interpretation is a member of a concept under an assignment; value: 1 for yes, 0 for no.
#[unsafe(no_mangle)]
pub extern "C" fn hc_belongs(
    concepts: &[u16],
    inclusions: &[u16],
    questions: &[u16],
    roles: &[u16],
    variables: u16,
    assignment: &[u64],
    size: u16,
    rows: &[u16],
    concept: u16,
    element: u16,
) -> Answer
    ensures { DecidesMember (lent_singly concepts inclusions questions roles variables) assignment.now size
        rows.now concept element (replied result) }
{
    let tables = Tables {
        concepts,
        inclusions,
        questions,
        roles,
        variables,
    };
    countermodel_answers::belongs(tables, assignment, size, rows, concept, element)
}

// Closes a held table under the rules, with the assignment told as pairs.
#[unsafe(no_mangle)]
pub extern "C" fn hc_update_table(
    concepts: &[u16],
    inclusions: &[u16],
    questions: &[u16],
    roles: &[u16],
    variables: u16,
    told: &[u16],
    table: &mut [u8],
) -> Answer
    ensures { Updates (lent_singly concepts inclusions questions roles variables) told.now table.old table.new (replied result) }
{
    let tables = Tables {
        concepts,
        inclusions,
        questions,
        roles,
        variables,
    };
    catalogue_answers::update_table(tables, told, table)
}

// Gives each concept the new id that the list says, in a second set of buffers.
#[unsafe(no_mangle)]
pub extern "C" fn hc_renumber(
    concepts: &[u16],
    inclusions: &[u16],
    questions: &[u16],
    roles: &[u16],
    variables: u16,
    order: &[u16],
    concepts_out: &mut [u16],
    inclusions_out: &mut [u16],
    questions_out: &mut [u16],
) -> Answer
    ensures { Renumbers (lent_singly concepts inclusions questions roles variables) order.now concepts_out.old
        concepts_out.new inclusions_out.old inclusions_out.new questions_out.old questions_out.new
        (replied result) }
{
    let tables = Tables {
        concepts,
        inclusions,
        questions,
        roles,
        variables,
    };
    catalogue_answers::renumber(tables, order, concepts_out, inclusions_out, questions_out)
}

// Reads a catalogue in OWL functional syntax.
#[unsafe(no_mangle)]
pub extern "C" fn hc_read_owl(
    text: &[u8],
    concepts: &mut [u16],
    inclusions: &mut [u16],
) -> CatalogueAnswer
    ensures { ReadsCatalogue text.now concepts.old concepts.new inclusions.old inclusions.new
        (replied_tables result) }
{
    catalogue_answers::read_owl(text, concepts, inclusions)
}
