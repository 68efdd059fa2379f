// What the crates above share with this one. These are no operations: each function has a `requires`, which asks for the words' room.
pub use crate::loading::{SQUARE, load, word_at};
pub use crate::sets::{has, insert};
pub use crate::turning::COLUMNS;
