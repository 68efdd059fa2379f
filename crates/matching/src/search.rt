// The search for an assignment that makes every question hold, and for the first one. Private to the crate.
pub mod interval;
pub mod lookup;
pub mod narrow;
pub mod needs;
pub mod nogoods;
pub mod order;
pub mod pairs;
pub mod patterns;
pub mod problem;
pub mod sets;
pub mod solve;
pub mod widen;
