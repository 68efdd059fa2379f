// The sizes of the marks that are kept.
use subsumption::limits::{CONCEPTS, ROW_BYTES};

// Of the subsumption table, all bytes.
pub const TABLE_BYTES: usize = CONCEPTS * ROW_BYTES;

pub const ROLES: usize = 100;
