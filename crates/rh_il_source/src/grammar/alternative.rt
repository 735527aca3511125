//! Alternatives by their numbers within their nonterminal. Where none of the others is taken, it is the
//! last one.

pub mod locals {
    pub const SOME: u8 = 0;
}

pub mod statement {
    pub const SKIP: u8 = 0;

    pub const GOTO: u8 = 1;

    pub const IF: u8 = 2;

    pub const RETURN: u8 = 3;

    pub const WRITE: u8 = 4;
}

pub mod value {
    pub const NEW: u8 = 0;

    pub const ADDRESS: u8 = 1;

    pub const LOAD: u8 = 2;

    pub const NAMED: u8 = 3;
}

pub mod behind_name {
    pub const CALL: u8 = 0;

    pub const COMPUTED: u8 = 1;
}

pub mod behind_base {
    pub const COMPUTED: u8 = 0;
}

pub mod base {
    pub const NAME: u8 = 0;
}

pub mod number {
    pub const NEGATIVE: u8 = 2;
}

pub mod operator {
    pub const PLUS: u8 = 0;

    pub const MINUS: u8 = 1;

    pub const STAR: u8 = 2;

    pub const LESS: u8 = 3;
}
