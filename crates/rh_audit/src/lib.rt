//! Logs of a rule file: `proofs` prints those of the admitted rules, and `audit` checks such a text.
//!
//! An audit makes no search. It trusts the obligations that this product makes and the checker of closed
//! trees alone. Begin reading with `whole`.
#![tactic(auto)]

mod fault;
mod few_terms;
mod lines;
mod printing;
mod section;
mod walk;
mod whole;

pub use fault::AuditFault;
pub use printing::proofs;
pub use whole::audit;
