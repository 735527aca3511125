//! Lists of names in which the place of a name is looked up in a map.
#![tactic(auto)]

mod names;

pub use names::Names;
