//! Rulings: which rules are proved.
#![tactic(auto)]

mod all;
mod laws;
mod one;

pub use all::{AdmitFault, admit};
pub use laws::one_list_is_told;
pub use one::admit_rule;
