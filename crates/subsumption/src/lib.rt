// Subsumption in EL under general inclusions: the checks of tables, atoms, the subsumption table, deciding a pair.
// The operations, each without a `requires`, are what the crate passes on here; `helpers` has what the crates above share with it.
#![tactic(auto)]

mod atoms;
mod check;
mod closure;
mod counting;
mod decide;
pub mod helpers;
pub mod kinds;
pub mod limits;
mod listing;
pub mod refusal;
mod roles;
mod rows;
mod table;
mod tables;
mod twins;
mod variables;

pub use check::check_tables;
pub use decide::decide_pair;
pub use listing::list_atoms;
pub use table::write_table;
pub use tables::Tables;
pub use variables::variables_in;
