//! The classes of words: the signs in the order of `Sign`, the reserved words in the order of `Keyword`,
//! names, numbers by their size, and a class that no alternative has.

pub const BECOMES: u8 = 0;

pub const EQUAL: u8 = 1;

pub const SEMICOLON: u8 = 4;

pub const COMMA: u8 = 5;

pub const OPEN_PAREN: u8 = 6;

pub const CLOSE_PAREN: u8 = 7;

pub const OPEN_BRACE: u8 = 8;

pub const CLOSE_BRACE: u8 = 9;

pub const PLUS: u8 = 10;

pub const MINUS: u8 = 11;

pub const STAR: u8 = 12;

pub const LESS: u8 = 13;

pub const AMPERSAND: u8 = 14;

/// How many signs there are.
const SIGNS: u8 = 17;

pub const SKIP: u8 = SIGNS;

pub const GOTO: u8 = SIGNS + 1;

pub const IF: u8 = SIGNS + 2;

pub const ELSE: u8 = SIGNS + 3;

pub const RETURN: u8 = SIGNS + 4;

pub const NEW: u8 = SIGNS + 5;

pub const VAR: u8 = SIGNS + 6;

pub const NAME: u8 = SIGNS + 7;

pub const INDEX: u8 = SIGNS + 8;

pub const SIZE: u8 = SIGNS + 9;

pub const LEAST: u8 = SIGNS + 10;

pub const OTHER: u8 = SIGNS + 11;
