// Lines of the house text, each read from the front of the text's remaining part; `behind` passes on the part behind it.
ghost use Rattle.std.specs.Prelude.{◌≡◌, ◌≤◌, ◌<◌, length, drop};
ghost use Rattle.hermitcasket.specs.Lines.{number, number_line, pair_line, row_line};

use numerals::{read_run, starts_with};

// A number and the length used, its end among it.
#[derive(Clone, Copy)]
pub struct Number {
    pub value: u16,
    pub length: usize,
}

#[derive(Clone, Copy)]
pub struct PairLine {
    pub a: u16,
    pub b: u16,
    pub length: usize,
}

// Kind and two numbers, as the concept table has them.
#[derive(Clone, Copy)]
pub struct RowLine {
    pub kind: u16,
    pub a: u16,
    pub b: u16,
    pub length: usize,
}

// The text that remains behind so many bytes.
pub fn behind<'a>(rest: &'a [u8], n: usize) -> &'a [u8]
    requires { n ≤ length rest.now }
    ensures { result.now ≡ drop n rest.now }
{
    &rest[n..]
}

// A number that the byte `stop` ends.
pub fn read_number(rest: &[u8], stop: u8) -> Option<Number>
    requires { stop < 48 }
    ensures { result ≡ number stop rest.now }
{
    let run = read_run(rest);
    let n = run.length;
    if n == 0 {
        return None;
    }
    if rest.len() <= n {
        return None;
    }
    if rest[n] != stop {
        return None;
    }
    Some(Number {
        value: run.value,
        length: n + 1,
    })
}

// A line of one number.
pub fn number_line(rest: &[u8], key: &[u8]) -> Option<Number>
    requires { length key.now ≤ 16 }
    ensures { result ≡ number_line key.now rest.now }
{
    if !starts_with(rest, key) {
        return None;
    }
    let k = key.len();
    let digits = behind(rest, k);
    let found = read_number(digits, 10)?;
    Some(Number {
        value: found.value,
        length: k + found.length,
    })
}

// A line of two numbers with a comma between them.
pub fn pair_line(rest: &[u8], key: &[u8]) -> Option<PairLine>
    requires { length key.now ≤ 16 }
    ensures { result ≡ pair_line key.now rest.now }
{
    if !starts_with(rest, key) {
        return None;
    }
    let k = key.len();
    let digits = behind(rest, k);
    let first = read_number(digits, 44)?;
    let more = behind(digits, first.length);
    let second = read_number(more, 10)?;
    Some(PairLine {
        a: first.value,
        b: second.value,
        length: k + first.length + second.length,
    })
}

// A line of the concept table: the key says the kind.
pub fn row_line(rest: &[u8]) -> Option<RowLine>
    ensures { result ≡ row_line rest.now }
{
    if starts_with(rest, b"top=0\n") {
        return Some(RowLine {
            kind: 0,
            a: 0,
            b: 0,
            length: 6,
        });
    }
    if let Some(name) = number_line(rest, b"name=") {
        return Some(RowLine {
            kind: 1,
            a: name.value,
            b: 0,
            length: name.length,
        });
    }
    if let Some(existential) = pair_line(rest, b"some=") {
        return Some(RowLine {
            kind: 2,
            a: existential.a,
            b: existential.b,
            length: existential.length,
        });
    }
    if let Some(conjunction) = pair_line(rest, b"and=") {
        return Some(RowLine {
            kind: 3,
            a: conjunction.a,
            b: conjunction.b,
            length: conjunction.length,
        });
    }
    let variable = number_line(rest, b"blank=")?;
    Some(RowLine {
        kind: 4,
        a: variable.value,
        b: 0,
        length: variable.length,
    })
}
