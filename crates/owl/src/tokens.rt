// Where tokens begin and end.
ghost use Rattle.std.specs.Prelude.{◌≡◌, ◌≤◌, ◌<◌, false, length, get_or};
ghost use Rattle.owl.specs.Tokens.{is_space, is_bracket};
ghost use Rattle.owl.specs.Inner.Tokens.{Skips, Ends};

fn is_space(b: u8) -> bool
    ensures { result ≡ is_space b }
{
    if b == 32 {
        return true;
    }
    if b == 10 {
        return true;
    }
    b == 13
}

fn is_bracket(b: u8) -> bool
    ensures { result ≡ is_bracket b }
{
    b == 40 || b == 41
}

// The first place from `at` on that is no space, or the end of the text.
pub fn skip_spaces(text: &[u8], at: usize) -> usize
    requires { at ≤ length text.now }
    ensures { Skips text.now at result }
{
    for p in at..text.len() {
        if !is_space(text[p]) {
            return p;
        }
    }
    text.len()
}

// The place behind the word that begins at `at`.
fn word_end(text: &[u8], at: usize) -> usize
    requires at_in_bounds { at < length text.now }
    requires at_value { is_space (get_or text.now at 0) ≡ false }
    requires at_value_2 { is_bracket (get_or text.now at 0) ≡ false }
    ensures { Ends text.now at result }
{
    for p in at + 1..text.len() {
        let b = text[p];
        if is_space(b) {
            return p;
        }
        if is_bracket(b) {
            return p;
        }
    }
    text.len()
}

// The place behind the token that begins at `at`.
pub fn token_end(text: &[u8], at: usize) -> usize
    requires at_in_bounds { at < length text.now }
    requires at_value { is_space (get_or text.now at 0) ≡ false }
    ensures { Ends text.now at result }
{
    if is_bracket(text[at]) {
        return at + 1;
    }
    word_end(text, at)
}
