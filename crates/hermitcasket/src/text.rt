// The whole text: counts and tables, section by section. Each reader takes the text's remaining part and the byte where that starts.
ghost use Rattle.std.specs.Prelude.{◌≡◌, ◌+◌, ◌*◌, ◌≤◌, length};
ghost use Rattle.numerals.specs.Lines.{concepts_key};
ghost use Rattle.hermitcasket.specs.Text.{row_at, pair_at, section_at, roles_at, judge};
ghost use Rattle.hermitcasket.specs.Inner.Text.{LinesRead, Counts, Sectioned, Ends, Last, judged_by, ReadFits, TablesRead};
ghost use Rattle.subsumption.specs.Inner.Lent.{given};

use crate::lines::{behind, number_line, pair_line, row_line};
use numerals::starts_with;
use subsumption::refusal::Refusal;

// What is asked of the tables: to solve them, or to show an interpretation where a pair fails.
#[derive(Clone, Copy)]
pub enum Ask {
    Fill,
    Show(u16, u16),
}

// What the text says: the variables, the counts of concepts, inclusions, questions and pairs of roles, and what is asked.
#[derive(Clone, Copy)]
pub struct Problem {
    pub variables: u16,
    pub concepts: usize,
    pub inclusions: usize,
    pub questions: usize,
    pub roles: usize,
    pub ask: Ask,
}

// So many lines of the concept table, three numbers each; their length.
fn read_rows(part: &[u8], at: usize, count: usize, out: &mut [u16]) -> Result<usize, Refusal>
    requires part_bound { at + length part.now ≤ 8192 }
    requires count_in_bounds { count * 3 ≤ length out.old }
    ensures { LinesRead row_at 3 count at part.now result out.new }
{
    let mut rest = part;
    let mut used: usize = 0;
    for i in 0..count {
        let Some(line) = row_line(rest) else {
            return Err(Refusal::BadText(at + used));
        };
        let m = i * 3;
        out[m] = line.kind;
        out[m + 1] = line.a;
        out[m + 2] = line.b;
        rest = behind(rest, line.length);
        used += line.length;
    }
    Ok(used)
}

// So many lines of two numbers each; their length.
fn read_pairs(
    part: &[u8],
    at: usize,
    key: &[u8],
    count: usize,
    out: &mut [u16],
) -> Result<usize, Refusal>
    requires part_bound { at + length part.now ≤ 8192 }
    requires key_len_bound { length key.now ≤ 16 }
    requires count_in_bounds { count * 2 ≤ length out.old }
    ensures { LinesRead (pair_at key.now) 2 count at part.now result out.new }
{
    let mut rest = part;
    let mut used: usize = 0;
    for i in 0..count {
        let Some(line) = pair_line(rest, key) else {
            return Err(Refusal::BadText(at + used));
        };
        let m = i * 2;
        out[m] = line.a;
        out[m + 1] = line.b;
        rest = behind(rest, line.length);
        used += line.length;
    }
    Ok(used)
}

// A count, or a section's count of lines, and the length used.
#[derive(Clone, Copy)]
pub struct Section {
    pub count: usize,
    pub length: usize,
}

// A count line. A count over its limit is refused with the table's place.
fn read_count(
    rest: &[u8],
    at: usize,
    key: &[u8],
    limit: u16,
    table: usize,
) -> Result<Section, Refusal>
    requires { length key.now ≤ 16 }
    ensures { Counts key.now limit table at rest.now result }
{
    let Some(found) = number_line(rest, key) else {
        return Err(Refusal::BadText(at));
    };
    if limit < found.value {
        return Err(Refusal::Limit(table));
    }
    Ok(Section {
        count: found.value as usize,
        length: found.length,
    })
}

// The concept table.
fn read_concepts(rest: &[u8], at: usize, out: &mut [u16]) -> Result<Section, Refusal>
    requires rest_bound { at + length rest.now ≤ 8192 }
    requires in_bounds { 192 * 3 ≤ length out.old }
    ensures { Sectioned (section_at concepts_key 192 0 row_at) 192 3 at rest.now result out.new }
{
    let counted = read_count(rest, at, b"entries=", 192, 0)?;
    let n = counted.length;
    let rows = behind(rest, n);
    let m = read_rows(rows, at + n, counted.count, out)?;
    Ok(Section {
        count: counted.count,
        length: n + m,
    })
}

// A table of pairs: the key of its count, and that of its lines.
fn read_section(
    rest: &[u8],
    at: usize,
    key: &[u8],
    line: &[u8],
    limit: u16,
    table: usize,
    out: &mut [u16],
) -> Result<Section, Refusal>
    requires rest_bound { at + length rest.now ≤ 8192 }
    requires key_len_bound { length key.now ≤ 16 }
    requires line_len_bound { length line.now ≤ 16 }
    requires limit_in_bounds { limit * 2 ≤ length out.old }
    ensures { Sectioned (section_at key.now limit table (pair_at line.now)) limit 2 at rest.now result out.new }
{
    let counted = read_count(rest, at, key, limit, table)?;
    let n = counted.length;
    let pairs = behind(rest, n);
    let m = read_pairs(pairs, at + n, line, counted.count, out)?;
    Ok(Section {
        count: counted.count,
        length: n + m,
    })
}

// The roles above roles. A text may lack the section and then has no such pairs.
fn read_roles(rest: &[u8], at: usize, out: &mut [u16]) -> Result<Section, Refusal>
    requires rest_bound { at + length rest.now ≤ 8192 }
    requires in_bounds { 32 * 2 ≤ length out.old }
    ensures { Sectioned roles_at 32 2 at rest.now result out.new }
{
    if !starts_with(rest, b"roles=") {
        return Ok(Section {
            count: 0,
            length: 0,
        });
    }
    read_section(rest, at, b"roles=", b"wider=", 32, 4, out)
}

// What stands behind the questions: nothing, or the line of a pair and nothing behind it.
fn read_end(rest: &[u8], at: usize) -> Result<Ask, Refusal>
    requires { at + length rest.now ≤ 8192 }
    ensures { Ends at rest.now result }
{
    if rest.len() == 0 {
        return Ok(Ask::Fill);
    }
    let Some(line) = pair_line(rest, b"show=") else {
        return Err(Refusal::BadText(at));
    };
    if line.length < rest.len() {
        return Err(Refusal::BadText(at + line.length));
    }
    Ok(Ask::Show(line.a, line.b))
}

// The count of the questions, and what is asked behind them.
#[derive(Clone, Copy)]
pub struct Asked {
    pub questions: usize,
    pub ask: Ask,
}

// The questions and the end.
fn read_questions(rest: &[u8], at: usize, out: &mut [u16]) -> Result<Asked, Refusal>
    requires rest_bound { at + length rest.now ≤ 8192 }
    requires in_bounds { 32 * 2 ≤ length out.old }
    ensures { Last at rest.now result out.new }
{
    let section = read_section(rest, at, b"questions=", b"below=", 32, 2, out)?;
    let last = behind(rest, section.length);
    let ask = read_end(last, at + section.length)?;
    Ok(Asked {
        questions: section.count,
        ask,
    })
}

// The tables behind the pairs of roles, into the caller's arrays.
fn read_tables(
    rest: &[u8],
    at: usize,
    variables: u16,
    pairs: usize,
    concepts: &mut [u16],
    inclusions: &mut [u16],
    questions: &mut [u16],
) -> Result<Problem, Refusal>
    requires rest_bound { at + length rest.now ≤ 8192 }
    requires variables_bound { variables ≤ 8 }
    requires pairs_bound { pairs ≤ 32 }
    requires in_bounds { 192 * 3 ≤ length concepts.old }
    requires in_bounds_2 { 96 * 2 ≤ length inclusions.old }
    requires in_bounds_3 { 32 * 2 ≤ length questions.old }
    ensures { TablesRead variables pairs at rest.now result concepts.new inclusions.new questions.new }
{
    let rows = read_concepts(rest, at, concepts)?;
    let second = behind(rest, rows.length);
    let b = at + rows.length;
    let given = read_section(second, b, b"inclusions=", b"below=", 96, 1, inclusions)?;
    let third = behind(second, given.length);
    let asked = read_questions(third, b + given.length, questions)?;
    Ok(Problem {
        variables,
        concepts: rows.count,
        inclusions: given.count,
        questions: asked.questions,
        roles: pairs,
        ask: asked.ask,
    })
}

// The whole text, into the caller's arrays.
pub fn read_text(
    text: &[u8],
    concepts: &mut [u16],
    inclusions: &mut [u16],
    questions: &mut [u16],
    roles: &mut [u16],
) -> Result<Problem, Refusal>
    requires in_bounds { 192 * 3 ≤ length concepts.old }
    requires in_bounds_2 { 96 * 2 ≤ length inclusions.old }
    requires in_bounds_3 { 32 * 2 ≤ length questions.old }
    requires in_bounds_4 { 32 * 2 ≤ length roles.old }
    ensures text_value { judge text.now ≡ judged_by result concepts.new inclusions.new questions.new roles.new }
    ensures read_fits { ReadFits result }
{
    if 8192 < text.len() {
        return Err(Refusal::BadText(8192));
    }
    let counted = read_count(text, 0, b"blanks=", 8, 3)?;
    let rest = behind(text, counted.length);
    let above = read_roles(rest, counted.length, roles)?;
    let tables = behind(rest, above.length);
    read_tables(
        tables,
        counted.length + above.length,
        counted.count as u16,
        above.count,
        concepts,
        inclusions,
        questions,
    )
}
