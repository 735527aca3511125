//! The rows of a program's instances, over the bits of facts.
#![tactic(auto)]

mod ground;
mod instance;
mod premises;
mod site;
mod support;
mod threads;

ghost use Rattle.rh_rows.specs.Laws.{BitsAreComputed, GreatestIsKnown, RowsAreCovered, RowsAreInstances, RowsHaveBits};
ghost use Rattle.rh_rows.specs.Support.{NothingIsSupported, SupportIsByRules};

pub use ground::Ground;
pub use threads::grounds_cross_threads;

/// The bit of a fact is computed from the numbers of its edge, its schema and its arguments.
pub fn bit_is()
    ensures { BitsAreComputed }
{}

/// The rows are those of the instances of proved propagation rules, with the bits of their facts.
pub fn row_items()
    ensures { RowsAreInstances }
{}

/// What a rule concludes at a node is a fact of the program, and so are its premises.
pub fn rows_have_bits()
    ensures { RowsHaveBits }
{}

/// Each row supports a bit of the full words.
pub fn rows_covered()
    ensures { RowsAreCovered }
{}

/// Where words hold the greatest set of bits that the rows support, the facts of these bits are the
/// greatest set of facts.
pub fn greatest_is_known()
    ensures { GreatestIsKnown }
{}

/// By any set of bits, the rows support the bit of a fact exactly if some rule gives the fact.
pub fn support_is_by_rules()
    ensures { SupportIsByRules }
{}

/// By no set of bits do the rows support a bit that stands for no fact.
pub fn nothing_is_supported()
    ensures { NothingIsSupported }
{}
