//! Grammars as data: one parser for all, and a cursor by which readers follow what it found.
#![tactic(auto)]

mod cursor;
mod grammar;
mod parser;
mod part;
mod tables;

pub use cursor::{Cursor, Word};
pub use grammar::{Alternative, Grammar, Nonterminal, Symbol};
pub use parser::{ParseFault, parse};
pub use part::{Part, repeated};
