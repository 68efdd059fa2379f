// The limits of 01, and the sizes that follow from them.
pub const CONCEPTS: usize = 192;

pub const INCLUSIONS: usize = 96;

pub const QUESTIONS: usize = 32;

pub const VARIABLES: u16 = 8;

pub const ROLE_PAIRS: usize = 32;

pub const ATOMS: usize = 64;

pub const NAMES: usize = 1000;

pub const LAST_NAME: u16 = 999;

pub const LAST_ROLE: u16 = 99;

// Of the roles, the words: two a role.
pub const ROLE_WORDS: usize = (LAST_ROLE as usize + 1) * 2;

// Of the subsumption table, the bytes of a row.
pub const ROW_BYTES: usize = CONCEPTS / 8;

// Of all columns, the words: three a column.
pub const WORDS: usize = CONCEPTS * 3;

// A set of ids: three words of 64.
pub const SET_WORDS: usize = CONCEPTS / 64;

// For each role a set of ids.
pub const KIND_WORDS: usize = (LAST_ROLE as usize + 1) * SET_WORDS;
