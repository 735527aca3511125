//! The sparse system of a program: the candidates, which are the bits that have rows, under numbers of their own. Many
//! bits of a program have no row, so it has fewer words. Begin with `Sparse`.
#![tactic(auto)]

mod candidates;
mod flow;
mod lists;
mod sparse;
mod support;
mod threads;

ghost use Rattle.rh_sparse.specs.Laws.{GreatestIsSparse, SparseIsCovered};

pub use sparse::Sparse;
pub use threads::sparse_crosses_threads;

/// A bit is in Greatest exactly if it is a candidate whose number is in Greatest of the sparse rows.
pub fn greatest_is_sparse()
    ensures { GreatestIsSparse }
{}

/// Each sparse row supports a bit of the sparse full words.
pub fn sparse_covered()
    ensures { SparseIsCovered }
{}
