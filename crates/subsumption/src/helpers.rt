// What the crates above share with this one. These are no operations: all but `check_concepts` and `list_asked` have a `requires`,
// which asks what the tables' checks have shown.
pub use crate::atoms::mark_variables;
pub use crate::check::{check_assignment, check_concepts, is_past};
pub use crate::closure::columns::Words;
pub use crate::decide::decide_known;
pub use crate::listing::list_asked;
pub use crate::roles::{counts, note_roles};
pub use crate::tables::{Node, Pair, Row, node_at, pair_at, row_at};
pub use crate::variables::write_sets;
