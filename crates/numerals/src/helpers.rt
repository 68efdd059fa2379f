// What the programs share with this crate to print. These are no operations: each has a `requires`, which asks for room in the buffer.
pub use crate::printing::{put_bytes, put_line, put_number, put_pair, put_refused, put_row};
