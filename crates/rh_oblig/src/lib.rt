//! What has to be shown of a rule: its obligations.
#![tactic(auto)]

mod closing;
mod laws;
mod obligation;
mod term_list;

pub use laws::{admitted_rules_are_sound, shown_obligations_hold, term_lists_are_closed};
pub use obligation::{MOST_TERMS, ObligFault, obligations};
