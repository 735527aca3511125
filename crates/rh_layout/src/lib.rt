//! The facts on the edges of a program as bits of words: bit b stands in word b / 64 at place b % 64. `Layout` lays
//! them out, and finds the fact of a bit and the bit of a fact.
#![tactic(auto)]

mod edges;
mod entering;
mod laid;
mod layout;

pub use laid::{LaidProc, LayoutFault};
pub use layout::Layout;
