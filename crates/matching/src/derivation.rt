// Checking a derivation. The pairs of the lines passed are marked, so that a premise is one look.
pub mod marks;
pub mod rules;

ghost use Rattle.std.specs.Prelude.{◌≡◌, length, ◌<◌};
ghost use Rattle.subsumption.specs.Lent.{lent};
ghost use Rattle.subsumption.specs.declared.refusal.Refusal.TheVariants.{BadDerivation};
ghost use Rattle.subsumption.specs.Tables.{count_of};
ghost use Rattle.subsumption.specs.Refusal.{reply_of, refuse_if, Done};
ghost use Rattle.subsumption.specs.Inner.Closure.{Ready};
ghost use Rattle.subsumption.specs.Inner.Listing.{Prepared, ForAccepted};
ghost use Rattle.subsumption.specs.Inner.Sizes.{roles_size};
ghost use Rattle.matching.specs.Derivation.{lines_of, no_lines, last_fault, checking_fault};
ghost use Rattle.matching.specs.Inner.Derivation.{MarksOf, LineTest, RulesTest};

use crate::derivation::marks::{mark_pair, number_at};
use crate::derivation::rules::by_rule;
use crate::limits::SQUARE;
use subsumption::Tables;
use subsumption::helpers::{check_assignment, list_asked, note_roles};
use subsumption::limits::{ATOMS, ROLE_WORDS};
use subsumption::refusal::Refusal;

fn line_follows(
    concepts: &[u16],
    inclusions: &[u16],
    into: &[u64; ROLE_WORDS],
    atoms: &[u16],
    assignment: &[u64],
    marks: &[bool],
    lines: &[u16],
    k: usize,
) -> bool
    requires ready { Ready concepts.now inclusions.now atoms.now assignment.now }
    requires marks_of { MarksOf (count_of concepts.now) marks.now lines.now k }
    requires k_bound { k < lines_of lines.now }
    ensures { LineTest concepts.now inclusions.now into.now atoms.now assignment.now lines.now k result }
{
    let count = concepts.len() / 3;
    let rule = number_at(lines, k * 4);
    let left = number_at(lines, k * 4 + 1);
    let right = number_at(lines, k * 4 + 2);
    let extra = number_at(lines, k * 4 + 3);
    if count <= left {
        return false;
    }
    if count <= right {
        return false;
    }
    by_rule(
        concepts, inclusions, into, atoms, assignment, marks, rule, left, right, extra,
    )
}

// The lowest line that breaks its rule.
fn check_lines(
    concepts: &[u16],
    inclusions: &[u16],
    into: &[u64; ROLE_WORDS],
    atoms: &[u16],
    assignment: &[u64],
    lines: &[u16],
    marks: &mut [bool],
) -> Result<(), Refusal>
    requires ready { Ready concepts.now inclusions.now atoms.now assignment.now }
    requires marks_of { MarksOf (count_of concepts.now) marks.old lines.now 0 }
    ensures { RulesTest concepts.now inclusions.now into.now atoms.now assignment.now lines.now result }
{
    let count = concepts.len() / 3;
    let total = lines.len() / 4;
    for k in 0..total {
        if !line_follows(
            concepts, inclusions, into, atoms, assignment, marks, lines, k,
        ) {
            return Err(Refusal::BadDerivation(k));
        }
        let left = number_at(lines, k * 4 + 1);
        let right = number_at(lines, k * 4 + 2);
        mark_pair(marks, count, left, right);
    }
    Ok(())
}

// The rules of all lines.
fn check_rules(
    concepts: &[u16],
    inclusions: &[u16],
    into: &[u64; ROLE_WORDS],
    atoms: &[u16],
    assignment: &[u64],
    lines: &[u16],
) -> Result<(), Refusal>
    requires ready { Ready concepts.now inclusions.now atoms.now assignment.now }
    ensures { RulesTest concepts.now inclusions.now into.now atoms.now assignment.now lines.now result }
{
    let mut marks = [false; SQUARE];
    let count = concepts.len() / 3;
    let size = count * count;
    check_lines(
        concepts,
        inclusions,
        into,
        atoms,
        assignment,
        lines,
        &mut marks[..size],
    )
}

// No lines, or a ragged list.
fn check_shape(lines: &[u16]) -> Result<(), Refusal>
    ensures { result ≡ refuse_if (no_lines lines.now) (BadDerivation 0) }
{
    if lines.len() == 0 {
        return Err(Refusal::BadDerivation(0));
    }
    if lines.len() % 4 != 0 {
        return Err(Refusal::BadDerivation(0));
    }
    Ok(())
}

// The last line is the asked pair.
fn check_last(left: u16, right: u16, lines: &[u16]) -> Result<(), Refusal>
    requires { refuse_if (no_lines lines.now) (BadDerivation 0) ≡ Done }
    ensures { result ≡ last_fault left right lines.now }
{
    let total = lines.len() / 4;
    let last = total - 1;
    if lines[last * 4 + 1] != left {
        return Err(Refusal::BadDerivation(total));
    }
    if lines[last * 4 + 2] != right {
        return Err(Refusal::BadDerivation(total));
    }
    Ok(())
}

// Checks 9 and 12. The tables and the pair have passed, and their atoms were listed with that, so no question is read again.
fn check_known(
    concepts: &[u16],
    inclusions: &[u16],
    roles: &[u16],
    atoms: &[u16],
    variables: u16,
    assignment: &[u64],
    left: u16,
    right: u16,
    lines: &[u16],
) -> Result<(), Refusal>
    requires prepared { Prepared concepts.now inclusions.now roles.now variables atoms.now }
    requires left_bound { (left < count_of concepts.now) × (right < count_of concepts.now) }
    ensures { ForAccepted concepts.now inclusions.now roles.now variables atoms.now
        (λ t. result ≡ checking_fault t assignment.now left right lines.now) }
{
    check_assignment(assignment, variables, atoms.len())?;
    check_shape(lines)?;
    let mut into = [0u64; ROLE_WORDS];
    note_roles(roles, &mut into);
    check_rules(concepts, inclusions, &into, atoms, assignment, lines)?;
    check_last(left, right, lines)
}

// Checks a derivation of one pair under an assignment.
pub fn check_derivation(
    tables: Tables,
    assignment: &[u64],
    left: u16,
    right: u16,
    lines: &[u16],
) -> Result<(), Refusal>
    ensures { reply_of result ≡ reply_of
        (checking_fault (lent tables) assignment.now left right lines.now) }
{
    let mut ids = [0u16; ATOMS];
    let count = list_asked(tables, left, right, &mut ids)?;
    check_known(
        tables.concepts,
        tables.inclusions,
        tables.roles,
        &ids[..count],
        tables.variables,
        assignment,
        left,
        right,
        lines,
    )
}
