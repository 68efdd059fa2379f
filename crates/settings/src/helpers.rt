// What the crates above share with this one. These are no operations: each function has a `requires`.
pub use crate::check::{check_settings, load_permitted};
pub use crate::counts::{clamp, is_few, size_of, unclamp};
