//! What is read as a program. Begin with `read_program`.
#![tactic(auto)]

mod fault;
mod marks;
mod read;
mod resolve;

pub use fault::ReadFault;
pub use read::{program_texts_have_one_answer, read_program};
