// Settings of the variables: the atoms that each may take, and how many of them at most. The check of settings, and what a search
// does about largest counts. No operations: all but the struct that they are lent
// is in `helpers`.
#![tactic(auto)]

mod check;
mod counts;
pub mod helpers;

pub use check::Settings;
