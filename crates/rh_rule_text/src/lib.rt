//! What is read as a rule file. Begin with `read_rules`.
#![tactic(auto)]

mod fault;
mod file;
mod reader;
mod resolve;
mod unknown;

pub use fault::RulesFault;
pub use reader::{read_rules, rule_texts_have_one_answer};
