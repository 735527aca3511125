//! Terms, literals and clauses, and what they mean.
//!
//! Congruence closure and the theory of stores are textbook matter (A. R. Bradley and Z. Manna, The
//! Calculus of Computation, 2007).
#![tactic(auto)]

mod clause;
mod clauses;
mod computed;
mod laws;
mod lits;
mod numbered;
mod obligation;
mod term;
mod terms;
mod tests;

pub use clause::{Clause, Lit};
pub use clauses::{Clauses, Part};
pub use computed::{Computed, Operation, Triple, Triples, clause_with};
pub use laws::{denotations_by_parts, open_partitions};
pub use lits::Lits;
pub use obligation::Obligation;
pub use term::Term;
pub use terms::Terms;
pub use tests::ClauseTest;
