//! Workers that solve a system on shared words.
#![tactic(auto)]

mod forked;
mod hinted;
mod marks;
mod shares;
mod sweep;
mod worker;

pub use forked::{Solved, solve, solve_hinted};
pub use worker::Worker;
