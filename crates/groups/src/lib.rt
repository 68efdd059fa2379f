// Groups of questions: those that share a variable, directly or through others, are matched without the rest.
#![tactic(auto)]

mod find;
mod group;

pub use find::find_group;
