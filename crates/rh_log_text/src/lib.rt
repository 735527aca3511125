//! The text of logs: how it is printed, and how it is read.
//!
//! A text is a list of lines, each ended by LF; the last may end at the end of the text. A line that
//! begins with `#` is skipped. The logs of a rule are a line `rule NAME` and then any number of logs,
//! and a log is a line `log NUMBER` and a line `CLAUSE CHILDREN` for each node of its tree, each with
//! all below it before the next. Numbers are decimal, without zeros in front, and of 32 bits.
#![tactic(auto)]

mod line;
mod lines;
mod logs;
mod number;
mod printer;
mod reader;
mod reading;
mod waiting;

pub use logs::{LogFault, PlacedLog, RuleLogs};
pub use printer::print_logs;
pub use reading::read_logs;
