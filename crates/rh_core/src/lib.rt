//! The pure core of the solver: workers that clear shared words, one event at a time.
#![tactic(auto)]

mod event;
mod pure;
mod worker;

pub use event::Event;
pub use pure::{Core, moves_law, words_law};
