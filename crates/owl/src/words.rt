// The words of the syntax: keywords, and names and roles with their numbers.
ghost use Rattle.std.specs.Prelude.{◌≡◌, ◌≤◌, length};
ghost use Rattle.owl.specs.Words.{is_text, is_numbered, read_word};
ghost use Rattle.owl.specs.Inner.Words.{read_numbered};

use numerals::{read_run, starts_with};

#[derive(Clone, Copy)]
pub enum Word {
    AxiomKey,
    TopKey,
    AndKey,
    SomeKey,
    NameOf(u16),
    RoleOf(u16),
    Other,
}

fn is_text(text: &[u8], word: &[u8]) -> bool
    ensures { result ≡ is_text text.now word.now }
{
    if word.len() != text.len() {
        return false;
    }
    starts_with(word, text)
}

fn is_numbered(key: &[u8], most: u16, word: &[u8]) -> bool
    requires { length key.now ≤ 16 }
    ensures { result ≡ is_numbered key.now most word.now }
{
    if !starts_with(word, key) {
        return false;
    }
    let run = read_run(&word[key.len()..]);
    if run.length == 0 {
        return false;
    }
    if key.len() + run.length != word.len() {
        return false;
    }
    run.value <= most
}

// A word that is no keyword.
fn read_numbered(word: &[u8]) -> Word
    ensures { result ≡ read_numbered word.now }
{
    if is_numbered(b":c", 999, word) {
        let run = read_run(&word[2..]);
        return Word::NameOf(run.value);
    }
    if is_numbered(b":r", 99, word) {
        let run = read_run(&word[2..]);
        return Word::RoleOf(run.value);
    }
    Word::Other
}

pub fn read_word(word: &[u8]) -> Word
    ensures { result ≡ read_word word.now }
{
    if is_text(b"SubClassOf", word) {
        return Word::AxiomKey;
    }
    if is_text(b"owl:Thing", word) {
        return Word::TopKey;
    }
    if is_text(b"ObjectIntersectionOf", word) {
        return Word::AndKey;
    }
    if is_text(b"ObjectSomeValuesFrom", word) {
        return Word::SomeKey;
    }
    read_numbered(word)
}
