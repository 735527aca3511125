//! The nonterminals, by their places in the grammar.

pub const PROGRAM: u8 = 0;

pub const PROCEDURE: u8 = 1;

pub const LOCALS: u8 = 2;

pub const MORE_LOCALS: u8 = 3;

pub const BODY: u8 = 4;

pub const STATEMENT: u8 = 5;

pub const VALUE: u8 = 6;

pub const BEHIND_NAME: u8 = 7;

pub const BEHIND_BASE: u8 = 8;

pub const BASE: u8 = 9;

pub const NUMBER: u8 = 10;

pub const MAGNITUDE: u8 = 11;

pub const OPERATOR: u8 = 12;
