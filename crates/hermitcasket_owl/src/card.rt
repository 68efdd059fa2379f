// A card in house text, written to a buffer: each function answers the place behind what it wrote.
ghost use Rattle.std.specs.Prelude.{◌+◌, ◌≤◌, length};
ghost use Rattle.numerals.specs.Inner.Printing.{Wrote};
ghost use Rattle.hermitcasket_owl.specs.Card.{rows_text, pairs_text, entries_text, inclusions_text, card_text};

use numerals::helpers::{put_line, put_pair, put_row};

// A line for each row of the concept table.
fn put_rows(concepts: &[u16], at: usize, out: &mut [u8]) -> usize
    requires { at + length (rows_text concepts.now) ≤ length out.old }
    ensures { Wrote out.old at (rows_text concepts.now) result out.new }
{
    let count = concepts.len() / 3;
    let mut end = at;
    for i in 0..count {
        let kind = concepts[i * 3] as usize;
        let a = concepts[i * 3 + 1] as usize;
        let b = concepts[i * 3 + 2] as usize;
        end = put_row(kind, a, b, end, out);
    }
    end
}

// A line for each inclusion.
fn put_pairs(inclusions: &[u16], at: usize, out: &mut [u8]) -> usize
    requires { at + length (pairs_text inclusions.now) ≤ length out.old }
    ensures { Wrote out.old at (pairs_text inclusions.now) result out.new }
{
    let count = inclusions.len() / 2;
    let mut end = at;
    for i in 0..count {
        let left = inclusions[i * 2] as usize;
        let right = inclusions[i * 2 + 1] as usize;
        end = put_pair(b"below=", left, right, end, out);
    }
    end
}

fn put_entries(concepts: &[u16], at: usize, out: &mut [u8]) -> usize
    requires { at + length (entries_text concepts.now) ≤ length out.old }
    ensures { Wrote out.old at (entries_text concepts.now) result out.new }
{
    let a = put_line(b"entries=", concepts.len() / 3, at, out);
    put_rows(concepts, a, out)
}

fn put_inclusions(inclusions: &[u16], at: usize, out: &mut [u8]) -> usize
    requires { at + length (inclusions_text inclusions.now) ≤ length out.old }
    ensures { Wrote out.old at (inclusions_text inclusions.now) result out.new }
{
    let a = put_line(b"inclusions=", inclusions.len() / 2, at, out);
    put_pairs(inclusions, a, out)
}

pub fn put_card(concepts: &[u16], inclusions: &[u16], out: &mut [u8]) -> usize
    requires { 0 + length (card_text concepts.now inclusions.now) ≤ length out.old }
    ensures { Wrote out.old 0 (card_text concepts.now inclusions.now) result out.new }
{
    let a = put_line(b"blanks=", 0, 0, out);
    let b = put_entries(concepts, a, out);
    let c = put_inclusions(inclusions, b, out);
    put_line(b"questions=", 0, c, out)
}
