//! What has to be shown of a rule, and what may be taken for granted there, as literals over trees. Read
//! `statement` first: what a statement needs to step, and which store it leaves.
#![tactic(auto)]

mod goal_list;
mod hypothesis_list;
mod own;
mod statement;

pub use goal_list::goals;
pub use hypothesis_list::hypotheses;
