//! The nonterminals, by their places in the grammar.

pub const FILE: u8 = 0;

pub const ITEMS: u8 = 1;

pub const ITEM: u8 = 2;

pub const FACT: u8 = 3;

pub const PARAM: u8 = 4;

pub const PARAMS: u8 = 5;

pub const ATOMS: u8 = 6;

pub const ATOM: u8 = 7;

pub const RELATION: u8 = 8;

pub const MTERM: u8 = 9;

pub const MBASE: u8 = 10;

pub const NUM: u8 = 11;

pub const SIZE: u8 = 12;

pub const OP: u8 = 13;

pub const RULE: u8 = 14;

pub const METAS: u8 = 15;

pub const PATTERN: u8 = 16;

pub const FORM: u8 = 17;

pub const RIGHT: u8 = 18;

pub const OPERATION: u8 = 19;

pub const WBASE: u8 = 20;

pub const WHEN: u8 = 21;

pub const CONDS: u8 = 22;

pub const COND: u8 = 23;

pub const FACT_USE: u8 = 24;

pub const ARGS: u8 = 25;

pub const STERM: u8 = 26;

pub const CONCLUSION: u8 = 27;

pub const SLOT: u8 = 28;
