//! The syntax of programs: what their tokens say, the grammar, and procedures as their text has them, with names in
//! place of numbers. Begin with `steps_of` and `read_sources`.
#![tactic(auto)]

mod grammar;
mod leaf;
mod reader;
mod source;
mod statement;
mod syntax;
mod word;

pub use reader::read_sources;
pub use source::{Line, Operand, Source};
pub use syntax::steps_of;
pub use word::{Word, class_of, word_of};
