//! The search for a closed tree or an open partition.
#![tactic(auto)]

mod choice;
mod laws;
mod search;

pub use laws::one_verdict;
pub use search::{Verdict, refute};
