//! Congruent classes of the terms of a list.
//!
//! Classes are kept as labels: for each term the least place of its class. A merge relabels them as a
//! whole and goes on until the partition is congruent (G. Nelson and D. C. Oppen, Fast Decision
//! Procedures Based on Congruence Closure, 1980). What is congruent is found by one pass over a hash
//! table of the terms by their heads and the labels of their parts, as P. J. Downey, R. Sethi and
//! R. E. Tarjan do it (Variations on the Common Subexpression Problem, 1980).
#![tactic(auto)]

mod chains;
mod classes;
mod closure;
mod congruence;

pub use classes::Classes;
pub use congruence::{apart, joined};
