//! Ground instances of rules at the statements of a program.
#![tactic(auto)]

mod find;
mod fixed;
mod forms;
mod instance;
mod matching;
mod ranges;
mod visit;
mod wanted;

pub use find::first_binding;
pub use fixed::{agreed, fixed_by_fact, fixed_by_pattern, fixed_by_rule};
pub use instance::{args_under, is_fact_under, is_instance, is_rule_in, may_match, rule_matches};
pub use matching::template_under;
pub use visit::{Visitor, visit_bindings};
pub use wanted::Wanted;
