// The second finder: it counts its decisions and takes an allowance of them. A decision is an open partial choice that is met in
// the walk over all of them in their order; what is shut is skipped with all that extends it.
#![tactic(auto)]

mod find;
pub mod helpers;
mod kept;
mod place;
mod walk;

pub use find::{Counted, find_counted};
