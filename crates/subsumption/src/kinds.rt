// The kinds of a concept's row (01: top, name, some, and, blank).
pub const TOP: u16 = 0;

pub const NAME: u16 = 1;

pub const EXISTENTIAL: u16 = 2;

pub const CONJUNCTION: u16 = 3;

pub const VARIABLE: u16 = 4;
