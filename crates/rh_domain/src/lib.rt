//! The variables and constants of a procedure, and the facts over them by number.
#![tactic(auto)]

mod args;
mod binding;
mod constants;
mod domain;
mod fact;
mod facts;
mod numbering;

pub use args::Args;
pub use binding::{arg_under, as_base, base_under, bound, variable_under};
pub use domain::Domain;
pub use fact::{FactAt, GroundFact};
pub use facts::{fact_at, fact_count, first_numbers, number_of};
