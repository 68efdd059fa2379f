// An interpretation that is shown, part by part: its size, the names of each element, the links of each element by each role.
ghost use Rattle.std.specs.Prelude.{◌≡◌, ◌+◌, ◌<◌, ◌≤◌, length};
ghost use Rattle.subsumption.specs.Tables.{Tables, count_of};
ghost use Rattle.subsumption.specs.Table.{marked};
ghost use Rattle.subsumption.specs.Inner.Atoms.{marked_ids};
ghost use Rattle.countermodel.specs.Countermodel.{names_at, name_rows};
ghost use Rattle.countermodel.specs.Inner.Show.{Checked};
ghost use Rattle.numerals.specs.Inner.Printing.{Wrote};
ghost use Rattle.numerals.specs.Printing.{Output};
ghost use Rattle.hermitcasket.specs.Printing.{rows_text, parts_of};
ghost use Rattle.hermitcasket.specs.Inner.Print.{mark_line, mark_lines, IsLinks};
ghost use Rattle.hermitcasket.specs.Answer.{Held, IsPart};

use crate::print::put_link;
use countermodel::helpers::{note_links, note_names};
use countermodel::limits::TABLE_BYTES;
use numerals::helpers::{put_line, put_pair};
use subsumption::limits::ROLE_WORDS;

// The line of a mark of an element: its name, or its link by the role to another.
fn put_mark(link: bool, i: usize, role: usize, mark: usize, at: usize, out: &mut [u8]) -> usize
    requires { at + length (mark_line link i role mark) ≤ length out.old }
    ensures { Wrote out.old at (mark_line link i role mark) result out.new }
{
    if link {
        return put_link(i, role, mark, at, out);
    }
    put_pair(b"is=", i, mark, at, out)
}

// A line for each of the first marks that is set.
fn put_marks(
    link: bool,
    i: usize,
    role: usize,
    marks: &[bool],
    count: usize,
    out: &mut [u8],
) -> usize
    requires count_in_bounds { count ≤ length marks.now }
    requires count_in_bounds_2 { 0 + length (mark_lines link i role (marked_ids marks.now count)) ≤ length out.old }
    ensures { Wrote out.old 0 (mark_lines link i role (marked_ids marks.now count)) result out.new }
{
    let mut end: usize = 0;
    for q in 0..count {
        if marks[q] {
            end = put_mark(link, i, role, q, end, out);
        }
    }
    end
}

// The names of the element i.
fn put_names(concepts: &[u16], table: &[u8; TABLE_BYTES], i: usize, out: &mut [u8]) -> usize
    requires checked { Checked concepts.now }
    requires i_bound { i < count_of concepts.now }
    requires in_bounds { 4096 ≤ length out.old }
    ensures { Wrote out.old 0 (rows_text (name_rows i (names_at concepts.now (marked table.now) i))) result out.new }
{
    let mut names = [false; 1000];
    note_names(concepts, table, i, &mut names);
    put_marks(false, i, 0, &names, 1000, out)
}

// The links of the element i by the role.
fn put_links(
    concepts: &[u16],
    into: &[u64; ROLE_WORDS],
    table: &[u8; TABLE_BYTES],
    i: usize,
    role: usize,
    out: &mut [u8],
) -> usize
    requires checked { Checked concepts.now }
    requires i_bound { (i < count_of concepts.now) × (role < 100) }
    requires in_bounds { 4096 ≤ length out.old }
    ensures { Output (IsLinks concepts.now into.now table.now i role) out.old result out.new }
{
    let mut links = [false; 192];
    note_links(concepts, into, table, i, role, &mut links);
    put_marks(true, i, role, &links, concepts.len() / 3, out)
}

// Part k, in front of the buffer; answers its length.
pub fn put_part(
    concepts: &[u16],
    into: &[u64; ROLE_WORDS],
    table: &[u8; TABLE_BYTES],
    k: usize,
    out: &mut [u8],
) -> usize
    requires held { (t : Tables) × Held t concepts.now into.now table.now }
    requires k_bound { k < parts_of concepts.now }
    requires in_bounds { 4096 ≤ length out.old }
    ensures { Output (IsPart concepts.now into.now table.now k) out.old result out.new }
{
    let count = concepts.len() / 3;
    if k == 0 {
        return put_line(b"things=", count, 0, out);
    }
    if k <= count {
        return put_names(concepts, table, k - 1, out);
    }
    let p = k - 1 - count;
    put_links(concepts, into, table, p / 100, p % 100, out)
}
