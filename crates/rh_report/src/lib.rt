//! What the commands write, and how they end.
#![tactic(auto)]

mod fact_text;
mod fault_text;
mod known;
mod lines;
mod run_end;
mod status;
mod tally;

pub use lines::{report, rule_lines};
pub use run_end::run_line;
pub use status::{Large, Part, Status, refusal_line};
pub use tally::counts;
