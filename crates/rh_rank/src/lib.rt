//! The set bits of words under numbers of their own: which number a bit has, and which bit has a number.
#![tactic(auto)]

mod numbering;
mod union;
mod word;

pub use numbering::Numbering;
pub use union::united;
