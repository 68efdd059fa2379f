// Matching under subsumption: the matcher, derivations and their checker. The matcher stands on the subsumption table's promise: it
// asks the operation `write_table` for one table and reads no columns of the closure. The operations, each without a `requires`,
// are what the crate passes on here.
#![tactic(auto)]

mod chosen;
mod derivation;
mod find;
pub mod helpers;
mod limits;
mod search;
mod within;
mod writer;

pub use chosen::{list_chosen, put_chosen};
pub use derivation::check_derivation;
pub use find::find_assignment;
pub use within::find_within;
pub use writer::derive;
