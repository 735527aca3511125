//! States of a program, its steps and its runs.
#![tactic(auto)]

mod frame;
mod laws;
mod runs;
mod state;
mod stepping;

pub use frame::Frame;
pub use laws::{runs_are_states, starts_are_states, steps_keep_states};
pub use runs::{MOST_STEPS, RunEnd, run, start};
pub use state::State;
pub use stepping::{Outcome, step};
