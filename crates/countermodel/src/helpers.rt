// What the program shares with this crate. These are no operations: each has a `requires`, which asks what the checks have shown, or asks
// it by a type: `judge_pair` is lent a table of the length that they give.
pub use crate::marks::{is_marked, note_links, note_names};
pub use crate::show::judge_pair;
