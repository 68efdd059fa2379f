// The marks of a written subsumption table as words: rows and columns, three words a line. What the crates above share; no operations:
// all is in `helpers`.
#![tactic(auto)]

pub mod helpers;
mod loading;
mod sets;
mod turning;
