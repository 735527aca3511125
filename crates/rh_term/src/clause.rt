//! Literals and clauses.
ghost use Rattle.std.specs.Prelude.{◌≡◌, IfOk};

use crate::lits::Lits;
use std::alloc::{AllocError, Global};

/// That two terms, by their places, are equal or differ.
#[derive(Clone, Copy, Debug, PartialEq, Eq)]
pub struct Lit {
    /// The left term.
    pub left: u32,
    /// The right term.
    pub right: u32,
    /// Whether the literal is an equation.
    pub equal: bool,
}

/// A disjunction of literals. It may have one literal twice.
#[derive(Drop)]
pub struct Clause {
    /// The literals, from left to right.
    pub lits: Lits,
}

impl Clause {
    /// An equal clause.
    pub fn copy(&self, alloc: Global) -> Result<Clause, AllocError>
        ensures { IfOk result (λ copy. copy ≡ self.now) }
    {
        Ok(Clause {
            lits: self.lits.copy(alloc)?,
        })
    }
}
