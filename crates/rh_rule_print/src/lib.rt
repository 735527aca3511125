//! How a rule file is printed. Begin with `print_rules`.
#![tactic(auto)]

mod conditions;
mod facts;
mod forms;
mod parts;
mod printer;
mod rules;

pub use printer::print_rules;
