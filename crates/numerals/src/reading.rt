// Reading from the front of a text's remaining part.
ghost use Rattle.std.specs.Prelude.{◌≡◌, ◌≤◌};
ghost use Rattle.numerals.specs.Bytes.{starts};
ghost use Rattle.numerals.specs.Reading.{wrong_digit, run_of};

// A number and how many digits gave it; none gave it where there are none.
#[derive(Clone, Copy)]
pub struct Run {
    pub value: u16,
    pub length: usize,
}

// The remaining text starts with these bytes.
pub fn starts_with(rest: &[u8], key: &[u8]) -> bool
    ensures { result ≡ starts key.now rest.now }
{
    rest.starts_with(key)
}

// A byte that cannot go on a number of which so many digits are read.
fn is_wrong_digit(value: u32, count: usize, byte: u8) -> bool
    requires { value ≤ 65535 }
    ensures { result ≡ wrong_digit value count byte }
{
    if byte < 48 {
        return true;
    }
    if 57 < byte {
        return true;
    }
    let next = value * 10 + (byte - 48) as u32;
    if count == 0 {
        return 65535 < next;
    }
    if value == 0 {
        return true;
    }
    65535 < next
}

// The longest run of right digits in front.
pub fn read_run(rest: &[u8]) -> Run
    ensures { result ≡ run_of rest.now }
{
    let mut value: u32 = 0;
    for (n, &byte) in rest.iter().enumerate() {
        if is_wrong_digit(value, n, byte) {
            return Run {
                value: value as u16,
                length: n,
            };
        }
        value = value * 10 + (byte - 48) as u32;
    }
    Run {
        value: value as u16,
        length: rest.len(),
    }
}
