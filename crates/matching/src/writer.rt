// Writing a derivation: lines that the asked pair needs are proposed, and each that the rules give is written.
pub mod explain;
pub mod load;
pub mod propose;
pub mod sets;

ghost use Rattle.subsumption.specs.Refusal.{value_reply};
ghost use Rattle.std.specs.Prelude.{◌≡◌, false, ◌+◌, ◌*◌, ◌<◌, ◌≤◌, eqb, length};
ghost use Rattle.subsumption.specs.Lent.{lent};
ghost use Rattle.subsumption.specs.Tables.{both, count_of};
ghost use Rattle.subsumption.specs.Inner.Listing.{Prepared, ForAccepted};
ghost use Rattle.subsumption.specs.Inner.Sizes.{roles_size};
ghost use Rattle.matching.specs.Writer.{Derives};
ghost use Rattle.matching.specs.Inner.Derivation.{seen};
ghost use Rattle.matching.specs.Inner.Writer.{Grounds, in_front, LineWritten, RestKept, Blank, Asked, Written, WrittenTo, Begun, WrittenFor};

use crate::derivation::marks::{has_mark, mark_pair};
use crate::limits::SQUARE;
use crate::writer::explain::{Line, next_line, test_line};
use crate::writer::propose::{line_at, propose};
use crate::writer::sets::{LINES, WORK, number};
use subsumption::Tables;
use subsumption::helpers::{check_assignment, decide_known, list_asked, note_roles};
use subsumption::limits::{ATOMS, ROLE_WORDS};
use subsumption::refusal::Refusal;

// A line in front of the part not yet written.
fn put_line(rest: &mut [u16], rule: u16, left: u16, right: u16, extra: u16)
    requires { 4 ≤ length rest.old }
    ensures { rest.new ≡ in_front rule left right extra rest.old }
{
    rest[0] = rule;
    rest[1] = left;
    rest[2] = right;
    rest[3] = extra;
}

// The unwritten rest is lent on for the next line.
fn write_line(out: &mut [u16], n: usize, rule: u16, left: u16, right: u16, extra: u16)
    requires { (n + 1) * 4 ≤ length out.old }
    ensures { LineWritten out.old out.new n rule left right extra }
{
    let at = n * 4;
    put_line(&mut out[at..], rule, left, right, extra);
}

fn is_pair(left: usize, right: usize, i: usize, j: usize) -> bool
    ensures { result ≡ both (eqb left i) (eqb right j) }
{
    if left != i {
        return false;
    }
    right == j
}

// Writes more lines, each from earlier ones, until the asked pair is found; answers their number. The proposals leave nothing to it;
// if they did, it would write more than the pair needs.
fn write_more(
    concepts: &[u16],
    inclusions: &[u16],
    into: &[u64; ROLE_WORDS],
    atoms: &[u16],
    assignment: &[u64],
    left: usize,
    right: usize,
    marks: &mut [bool],
    out: &mut [u16],
    written: usize,
) -> usize
    requires grounds { Grounds concepts.now inclusions.now atoms.now assignment.now }
    requires asked { Asked concepts.now inclusions.now into.now atoms.now assignment.now left right }
    requires written { Written concepts.now inclusions.now into.now atoms.now assignment.now marks.old out.old written }
    requires right_value { seen (count_of concepts.now) marks.old left right ≡ false }
    requires concepts_in_bounds { count_of concepts.now * count_of concepts.now * 4 ≤ length out.old }
    ensures written_to { WrittenTo concepts.now inclusions.now into.now atoms.now assignment.now left right
        marks.new out.new result }
    ensures rest_kept { RestKept out.old out.new written result }
{
    let count = concepts.len() / 3;
    let mut n = written;
    let mut from = 0;
    // until the asked pair is written: nothing says beforehand how many lines that takes
    loop {
        let next = next_line(concepts, inclusions, into, atoms, assignment, marks, from);
        if let Some(
            Line {
                rule,
                left: i,
                right: j,
                extra,
            },
        ) = next
        {
            write_line(out, n, rule as u16, i as u16, j as u16, extra as u16);
            mark_pair(marks, count, i, j);
            n += 1;
            from = i * count + j + 1;
            if is_pair(left, right, i, j) {
                return n;
            }
            continue;
        }
        // A whole scan without a new pair would mean that the marks are closed, and hold the asked pair.
        if from == 0 {
            return 0;
        }
        from = 0;
    }
}

// Writes the proposals that follow, until the asked pair is found; answers their number.
fn write_tested(
    concepts: &[u16],
    inclusions: &[u16],
    into: &[u64; ROLE_WORDS],
    atoms: &[u16],
    assignment: &[u64],
    left: usize,
    right: usize,
    work: &[u64],
    first: u16,
    marks: &mut [bool],
    out: &mut [u16],
) -> usize
    requires grounds { Grounds concepts.now inclusions.now atoms.now assignment.now }
    requires left_bound { (left < count_of concepts.now) × (right < count_of concepts.now) }
    requires blank { Blank (count_of concepts.now) marks.old }
    requires concepts_in_bounds { count_of concepts.now * count_of concepts.now * 4 ≤ length out.old }
    ensures begun { Begun concepts.now inclusions.now into.now atoms.now assignment.now left right
        marks.new out.new result }
    ensures rest_kept { RestKept out.old out.new 0 result }
{
    let count = concepts.len() / 3;
    let end = number(work, LINES, 0, 0);
    let mut n = 0;
    for k in first..end {
        let line = line_at(work, k);
        let next = test_line(concepts, inclusions, into, atoms, assignment, marks, line);
        if let Some(
            Line {
                rule,
                left: i,
                right: j,
                extra,
            },
        ) = next
        {
            write_line(out, n, rule as u16, i as u16, j as u16, extra as u16);
            mark_pair(marks, count, i, j);
            n += 1;
            if is_pair(left, right, i, j) {
                return n;
            }
            continue;
        }
    }
    n
}

fn write_proposed(
    concepts: &[u16],
    inclusions: &[u16],
    into: &[u64; ROLE_WORDS],
    atoms: &[u16],
    assignment: &[u64],
    left: usize,
    right: usize,
    marks: &mut [bool],
    out: &mut [u16],
) -> usize
    requires grounds { Grounds concepts.now inclusions.now atoms.now assignment.now }
    requires left_bound { (left < count_of concepts.now) × (right < count_of concepts.now) }
    requires blank { Blank (count_of concepts.now) marks.old }
    requires concepts_in_bounds { count_of concepts.now * count_of concepts.now * 4 ≤ length out.old }
    ensures begun { Begun concepts.now inclusions.now into.now atoms.now assignment.now left right
        marks.new out.new result }
    ensures rest_kept { RestKept out.old out.new 0 result }
{
    let mut work = [0u64; WORK];
    let first = propose(
        concepts,
        inclusions,
        into,
        atoms,
        assignment,
        left as u16,
        right as u16,
        &mut work,
    );
    write_tested(
        concepts, inclusions, into, atoms, assignment, left, right, &work, first, marks, out,
    )
}

// Writes lines, each from earlier ones, until the asked pair is found; answers their number.
fn write_lines(
    concepts: &[u16],
    inclusions: &[u16],
    into: &[u64; ROLE_WORDS],
    atoms: &[u16],
    assignment: &[u64],
    left: usize,
    right: usize,
    marks: &mut [bool],
    out: &mut [u16],
) -> usize
    requires grounds { Grounds concepts.now inclusions.now atoms.now assignment.now }
    requires asked { Asked concepts.now inclusions.now into.now atoms.now assignment.now left right }
    requires blank { Blank (count_of concepts.now) marks.old }
    requires concepts_in_bounds { count_of concepts.now * count_of concepts.now * 4 ≤ length out.old }
    ensures written_to { WrittenTo concepts.now inclusions.now into.now atoms.now assignment.now left right
        marks.new out.new result }
    ensures rest_kept { RestKept out.old out.new 0 result }
{
    let count = concepts.len() / 3;
    let n = write_proposed(
        concepts, inclusions, into, atoms, assignment, left, right, marks, out,
    );
    if has_mark(marks, count, left, right) {
        return n;
    }
    write_more(
        concepts, inclusions, into, atoms, assignment, left, right, marks, out, n,
    )
}

// The derivation of a pair that is subsumed, in a buffer that is long enough.
fn put_lines(
    concepts: &[u16],
    inclusions: &[u16],
    into: &[u64; ROLE_WORDS],
    atoms: &[u16],
    assignment: &[u64],
    left: u16,
    right: u16,
    out: &mut [u16],
) -> usize
    requires grounds { Grounds concepts.now inclusions.now atoms.now assignment.now }
    requires asked { Asked concepts.now inclusions.now into.now atoms.now assignment.now left right }
    requires concepts_in_bounds { count_of concepts.now * count_of concepts.now * 4 ≤ length out.old }
    ensures { WrittenFor concepts.now inclusions.now into.now atoms.now assignment.now left right
        out.old out.new result }
{
    let mut marks = [false; SQUARE];
    let count = concepts.len() / 3;
    let size = count * count;
    write_lines(
        concepts,
        inclusions,
        into,
        atoms,
        assignment,
        left as usize,
        right as usize,
        &mut marks[..size],
        out,
    )
}

// Checks 9 and 8, and then the lines. The tables and the pair have passed, so no question is read again.
fn derive_known(
    concepts: &[u16],
    inclusions: &[u16],
    roles: &[u16],
    atoms: &[u16],
    variables: u16,
    assignment: &[u64],
    left: u16,
    right: u16,
    out: &mut [u16],
) -> Result<usize, Refusal>
    requires prepared { Prepared concepts.now inclusions.now roles.now variables atoms.now }
    requires left_bound { (left < count_of concepts.now) × (right < count_of concepts.now) }
    ensures { ForAccepted concepts.now inclusions.now roles.now variables atoms.now
        (λ t. Derives t assignment.now left right out.old out.new (value_reply result)) }
{
    check_assignment(assignment, variables, atoms.len())?;
    let count = concepts.len() / 3;
    let wanted = count * count * 4;
    if out.len() < wanted {
        return Err(Refusal::BufferTooShort(wanted));
    }
    let below = decide_known(
        concepts, inclusions, roles, atoms, variables, assignment, left, right,
    )?;
    if !below {
        return Err(Refusal::NotSubsumed);
    }
    let mut into = [0u64; ROLE_WORDS];
    note_roles(roles, &mut into);
    Ok(put_lines(
        concepts, inclusions, &into, atoms, assignment, left, right, out,
    ))
}

// Writes the derivation of one pair under an assignment.
pub fn derive(
    tables: Tables,
    assignment: &[u64],
    left: u16,
    right: u16,
    out: &mut [u16],
) -> Result<usize, Refusal>
    ensures { Derives (lent tables) assignment.now left right
        out.old out.new (value_reply result) }
{
    let mut ids = [0u16; ATOMS];
    let count = list_asked(tables, left, right, &mut ids)?;
    derive_known(
        tables.concepts,
        tables.inclusions,
        tables.roles,
        &ids[..count],
        tables.variables,
        assignment,
        left,
        right,
        out,
    )
}
