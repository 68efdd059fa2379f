// What the crates above share with this one. These are no operations: nearly all have a `requires`.
pub use crate::find::all_atoms;
pub use crate::limits::{ASKED, MOST, PROBLEM, QUESTION_COUNT, SCRATCH, SETS};
pub use crate::search::interval::has_bit;
pub use crate::search::nogoods::{fetch, put};
pub use crate::search::pairs::{is_within, with_pair, without_pair};
pub use crate::search::problem::make_problem;
pub use crate::search::solve::failing_of;
pub use crate::within::{ALL, find_known, put_asked, put_counts, write_choice};
