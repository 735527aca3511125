//! The words of the command line, read as a command.
#![tactic(auto)]

mod command;
mod form;
mod number;
mod shape;

pub use command::{Command, UsageAt, read_words};
