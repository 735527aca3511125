//! Fact schemas and rules.
#![tactic(auto)]

mod check;
mod fault;
mod keyword;
mod kinds;
mod numbers;
mod ranges;
mod rule;
mod rule_file;
mod schema;
mod shapes;
mod threads;
mod uses;
mod words;

pub use fault::{Item, Many, RuleFault, RuleWrong};
pub use keyword::{RuleKeyword, keyword_of};
pub use rule::{Arg, Conclusion, FactUse, Form, Rule, RuleBase, Ruling, Side, SideTerm};
pub use rule_file::RuleFile;
pub use schema::{Kind, MeaningAtom, MeaningBase, MeaningTerm, Param, Schema};
pub use threads::rule_files_cross_threads;
pub use words::{are_proper, is_proper, is_upper_name};
