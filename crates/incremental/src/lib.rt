// Keeping a subsumption table while inclusions are added (02, A.7). The one operation, without a `requires`, is what the crate passes on.
#![tactic(auto)]

mod bytes;
mod closing;
mod including;
mod links;
mod marking;
mod order;
mod rising;
mod rows;
mod settling;
mod start;
mod told;
mod update;

pub use update::update_table;
