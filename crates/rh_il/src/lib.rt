//! The intermediate language: names, values, statements, procedures and their edges.
#![tactic(auto)]

mod check;
mod fault;
mod flow;
mod keyword;
mod name;
mod numbers;
mod procedures;
mod program;
mod proper;
mod threads;
mod value;

pub use fault::{Limited, ProgFault, ProgWrong};
pub use keyword::{Keyword, keyword_of};
pub use name::Name;
pub use numbers::numbers_fit;
pub use procedures::Program;
pub use program::{Base, Edge, Node, Proc, Slot, Stmt};
pub use proper::{are_proper, is_proper};
pub use threads::programs_cross_threads;
pub use value::{Op, Value};
