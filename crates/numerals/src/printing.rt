// Texts written to a buffer: each function answers the place behind what it wrote.
ghost use Rattle.std.specs.Prelude.{◌+◌, ◌≤◌, length};
ghost use Rattle.numerals.specs.Digits.{digits};
ghost use Rattle.numerals.specs.Printing.{number_text, pair_text, refused_text};
ghost use Rattle.numerals.specs.Lines.{row_text};
ghost use Rattle.numerals.specs.Inner.Printing.{Wrote};

use subsumption::refusal::Code;

pub fn put_bytes(bytes: &[u8], at: usize, out: &mut [u8]) -> usize
    requires { at + length bytes.now ≤ length out.old }
    ensures { Wrote out.old at bytes.now result out.new }
{
    let end = at + bytes.len();
    out[at..end].copy_from_slice(bytes);
    end
}

// The digits of a number, the highest first.
pub fn put_number(n: usize, at: usize, out: &mut [u8]) -> usize
    requires { at + length (digits n) ≤ length out.old }
    ensures { Wrote out.old at (digits n) result out.new }
{
    if n < 10 {
        out[at] = 48 + n as u8;
        return at + 1;
    }
    let next = put_number(n / 10, at, out);
    out[next] = 48 + (n % 10) as u8;
    next + 1
}

// A line of one number.
pub fn put_line(key: &[u8], n: usize, at: usize, out: &mut [u8]) -> usize
    requires { at + length (number_text key.now n) ≤ length out.old }
    ensures { Wrote out.old at (number_text key.now n) result out.new }
{
    let a = put_bytes(key, at, out);
    let b = put_number(n, a, out);
    put_bytes(b"\n", b, out)
}

// A line of two numbers.
pub fn put_pair(key: &[u8], a: usize, b: usize, at: usize, out: &mut [u8]) -> usize
    requires { at + length (pair_text key.now a b) ≤ length out.old }
    ensures { Wrote out.old at (pair_text key.now a b) result out.new }
{
    let x = put_bytes(key, at, out);
    let y = put_number(a, x, out);
    put_line(b",", b, y, out)
}

// The line of a row of the concept table.
pub fn put_row(kind: usize, a: usize, b: usize, at: usize, out: &mut [u8]) -> usize
    requires { at + length (row_text kind a b) ≤ length out.old }
    ensures { Wrote out.old at (row_text kind a b) result out.new }
{
    if kind == 0 {
        return put_bytes(b"top=0\n", at, out);
    }
    if kind == 1 {
        return put_line(b"name=", a, at, out);
    }
    if kind == 2 {
        return put_pair(b"some=", a, b, at, out);
    }
    if kind == 3 {
        return put_pair(b"and=", a, b, at, out);
    }
    if kind == 4 {
        return put_line(b"blank=", a, at, out);
    }
    at
}

pub fn put_refused(code: Code, out: &mut [u8]) -> usize
    requires { 0 + length (refused_text code) ≤ length out.old }
    ensures { Wrote out.old 0 (refused_text code) result out.new }
{
    let number = code.number;
    let place = code.place;
    let a = put_bytes(b"answer=refused\n", 0, out);
    let b = put_line(b"number=", number as usize, a, out);
    put_line(b"place=", place, b, out)
}
