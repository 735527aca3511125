//! Rules that carry a fact past a statement as it is. Most bits of a program are concluded by these, and what supports
//! such a bit is known without a search for an instance. Begin with `support_is_split`.
#![tactic(auto)]

mod before;
mod rulings;

ghost use Rattle.rh_carry.specs.Carry.{RowsAreSplit, SupportIsCarried, SupportIsSplit};

pub use before::is_known_before;
pub use rulings::{carried_rulings, other_rulings};

/// The rows support a bit exactly if those of the rules that carry do, or those of the others.
pub fn support_is_split()
    ensures { SupportIsSplit }
{}

/// The rows of the rules that carry support a bit exactly if it is one of theirs, and its fact is known on each edge
/// that enters the node that its edge leaves.
pub fn support_is_carried()
    ensures { SupportIsCarried }
{}

/// A bit has a row exactly if it has one by the rules that carry or by the others.
pub fn rows_are_split()
    ensures { RowsAreSplit }
{}
