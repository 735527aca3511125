//! The classes of words: the signs in the order of `Sign`, the words of the grammar, other names, numbers.

pub const BECOMES: u8 = 0;

pub const EQUAL: u8 = 1;

pub const DIFFER: u8 = 2;

pub const ARROW: u8 = 3;

pub const SEMICOLON: u8 = 4;

pub const COMMA: u8 = 5;

pub const OPEN_PAREN: u8 = 6;

pub const CLOSE_PAREN: u8 = 7;

pub const OPEN_BRACE: u8 = 8;

pub const CLOSE_BRACE: u8 = 9;

pub const PLUS: u8 = 10;

pub const MINUS: u8 = 11;

pub const STAR: u8 = 12;

pub const LESS: u8 = 13;

pub const AMPERSAND: u8 = 14;

pub const AT: u8 = 15;

pub const UNDERSCORE: u8 = 16;

pub const RHODIUM: u8 = 17;

pub const FACT: u8 = 18;

pub const MEANS: u8 = 19;

pub const AND: u8 = 20;

pub const NUMBER_OF: u8 = 21;

pub const POINTER: u8 = 22;

pub const UNALIASED: u8 = 23;

pub const RULE: u8 = 24;

pub const WHEN: u8 = 25;

pub const ENTRY: u8 = 26;

pub const GOTO: u8 = 27;

pub const SKIP: u8 = 28;

pub const IF: u8 = 29;

pub const RETURN: u8 = 30;

pub const NEW: u8 = 31;

pub const CALL: u8 = 32;

pub const VAR: u8 = 33;

pub const CONST: u8 = 34;

pub const IN: u8 = 35;

pub const OUT: u8 = 36;

pub const THEN: u8 = 37;

pub const ELSE: u8 = 38;

pub const TRANSFORM: u8 = 39;

pub const LOWER: u8 = 40;

pub const UPPER: u8 = 41;

pub const ONE: u8 = 42;

pub const NUMBER: u8 = 43;

pub const LARGEST: u8 = 44;
/// The class of no word of the grammar.
pub const NONE: u8 = 255;
