// The output, written to a buffer: each function answers the place behind what it wrote.
ghost use Rattle.std.specs.Prelude.{false, ◌+◌, ◌≤◌, length};
ghost use Rattle.numerals.specs.Inner.Printing.{Wrote};
ghost use Rattle.hermitcasket.specs.Printing.{id_text, ids_text, fill_text, none_line, link_text};

use numerals::helpers::{put_bytes, put_line, put_number, put_pair};

// The line of a link by a role.
pub fn put_link(from: usize, role: usize, to: usize, at: usize, out: &mut [u8]) -> usize
    requires { at + length (link_text from role to) ≤ length out.old }
    ensures { Wrote out.old at (link_text from role to) result out.new }
{
    let x = put_bytes(b"link=", at, out);
    let y = put_number(from, x, out);
    put_pair(b",", role, to, y, out)
}

// An id, after a comma if one went before it.
fn put_id(id: u16, later: bool, at: usize, out: &mut [u8]) -> usize
    requires { at + length (id_text later id) ≤ length out.old }
    ensures { Wrote out.old at (id_text later id) result out.new }
{
    if later {
        let a = put_bytes(b",", at, out);
        return put_number(id as usize, a, out);
    }
    put_number(id as usize, at, out)
}

// Ids with commas between them.
fn put_ids(ids: &[u16], at: usize, out: &mut [u8]) -> usize
    requires { at + length (ids_text false ids.now) ≤ length out.old }
    ensures { Wrote out.old at (ids_text false ids.now) result out.new }
{
    let mut end = at;
    for (i, &id) in ids.iter().enumerate() {
        end = put_id(id, 0 < i, end, out);
    }
    end
}

// The line of one variable.
pub fn put_fill(ids: &[u16], at: usize, out: &mut [u8]) -> usize
    requires { at + length (fill_text ids.now) ≤ length out.old }
    ensures { Wrote out.old at (fill_text ids.now) result out.new }
{
    let a = put_bytes(b"fill=", at, out);
    let b = put_ids(ids, a, out);
    put_bytes(b"\n", b, out)
}

pub fn put_none(out: &mut [u8]) -> usize
    requires { 12 ≤ length out.old }
    ensures { Wrote out.old 0 none_line result out.new }
{
    put_bytes(b"answer=none\n", 0, out)
}
