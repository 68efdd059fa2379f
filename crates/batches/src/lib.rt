// Several question tables over one catalogue, one after another on one allowance of decisions: what a table leaves over of its
// share goes to the next.
#![tactic(auto)]

mod check;
mod find;

pub use find::{Batch, find_batch};
