// Catalogues in OWL functional syntax (02, A.8). The one operation, without a `requires`, is what the crate passes on.
#![tactic(auto)]

mod frames;
mod judging;
mod read;
mod rows;
mod shutting;
mod tokens;
mod words;

pub use read::{Catalogue, read_catalogue};
