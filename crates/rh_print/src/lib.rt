//! What the printers of programs, rule files and reports share.
#![tactic(auto)]

mod text;

pub use text::{op_text, push, push_count, push_number};
