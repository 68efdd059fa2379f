// The program: one catalogue in OWL functional syntax from standard input, its card in house text to standard output.
#![tactic(auto)]

mod answer;
mod card;

use std::io::Write;

// A reader that went away is told nothing more.
fn main(rt: HostRuntime) {
    let mut text = [0u8; 8193];
    let n = numerals::read_full(&mut rt.stdin(), &mut text);
    let mut out = [0u8; 4096];
    let size = answer::answer(&text[..n], &mut out);
    let _written = rt.stdout().write_all(&out[..size]).is_ok();
}
