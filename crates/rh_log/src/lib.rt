//! Logs of closed trees, and their checker.
//!
//! A closed tree is a semantic tableau over congruent partitions (R. M. Smullyan, First-Order Logic,
//! 1968): a node's clause is false in its partition, and each equation of the clause leads to a
//! branch in which it holds. Where all branches close, no partition is open.
#![tactic(auto)]

mod branch;
mod checker;
mod log;
mod open;
mod threads;
mod truth;

pub use branch::expand;
pub use checker::{check, root};
pub use log::{Admission, Log, LogNode};
pub use open::is_open;
pub use threads::cross;
pub use truth::{is_computed, is_true, width};
