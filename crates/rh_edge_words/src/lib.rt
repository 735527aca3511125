//! The words of a system, shared by threads that clear them in single atomic steps.
#![tactic(auto)]

mod rule;
mod seat;
mod threads;
mod view;
mod words;

pub use rule::{SystemName, WordsRule};
pub use seat::WordSeat;
pub use threads::cross;
pub use view::View;
pub use words::EdgeWords;
