//! Large inputs: the standard rules, and made programs of any number of procedures.
//!
//! `generate` is where to begin reading.
#![tactic(auto)]

mod draws;
mod files;
mod names;
mod procedures;
mod rules;
mod statements;

pub use files::generate;
