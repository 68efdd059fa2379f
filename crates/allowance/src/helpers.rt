// What the crates above share with this one. These are no operations.
pub use crate::find::{find_known, refused};
