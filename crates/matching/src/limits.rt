// Sizes that follow from the limits of 01.

// Pairs of a variable and a position.
pub const PAIRS: usize = 512;

// Pairs of ids.
pub const SQUARE: usize = 36864;

// The nogoods, sixteen words each, and their number.
pub const STORE: usize = 16385;

// The bytes of a subsumption table.
pub const TABLE: usize = 4608;

// The sets of ids that tests read, three words each, and where the kinds of them start (src/search/problem.rt).
pub const SETS: usize = 2496;

pub const COLUMNS: usize = 576;

pub const FITS_RIGHT: usize = 1152;

pub const FITS_LEFT: usize = 1728;

pub const CONES: usize = 2304;

pub const CLOSERS: usize = 2400;

// The numbers that tests read, and where the kinds of them start.
pub const PROBLEM: usize = 971;

pub const HELD: usize = 576;

pub const ATOM_IDS: usize = 768;

pub const SIDES: usize = 832;

pub const QUESTION_COUNT: usize = 897;

pub const HOLDS: usize = 899;

pub const MOST: usize = 931;

pub const ASKED: usize = 939;

// What a search writes beside the nogoods: the values of ids that hold a variable, three words each, and the masks of the look-up.
pub const SCRATCH: usize = 16977;

pub const MASKS: usize = 576;

pub const WANTED: usize = 16960;

pub const HINT: usize = 16976;
