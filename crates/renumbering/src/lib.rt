// Renumbering the concepts of tables (02, A.12). The one operation, without a `requires`, is what the crate passes on.
#![tactic(auto)]

mod moving;
mod order;
mod renumber;

pub use renumber::renumber_tables;
