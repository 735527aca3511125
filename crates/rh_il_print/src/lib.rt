//! How a program is printed. Begin with `print_program`.
#![tactic(auto)]

mod printer;

pub use printer::print_program;
