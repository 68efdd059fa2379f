// Numbers and keys in texts, shared by all that read or print them, and the reading of a program's whole input.
// The reading, without a `requires`, is what the crate passes on here; `helpers` has the printing.
#![tactic(auto)]

pub mod helpers;
mod input;
mod printing;
mod reading;

pub use input::read_full;
pub use reading::{Run, read_run, starts_with};
