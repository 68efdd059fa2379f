// A finite interpretation where a subsumption fails, and membership in a given one (02, A.5).
// The operations, each without a `requires`, are what the crate passes on here; `helpers` has what the program shares with it.
#![tactic(auto)]

mod elements;
pub mod helpers;
pub mod limits;
mod marks;
mod membership;
mod roles;
mod rows;
mod show;

pub use membership::decide_member;
pub use show::show_countermodel;
