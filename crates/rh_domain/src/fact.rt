//! Facts without metavariables.
use crate::args::Args;
use rh_il::Edge;

/// A fact without metavariables: a schema by its number, and its arguments.
#[derive(Drop)]
pub struct GroundFact {
    /// The schema, by its number in the rule file.
    pub schema: u32,
    /// Variables by their number in the procedure, and numbers.
    pub args: Args,
}

/// A fact on an edge of a procedure.
#[derive(Drop)]
pub struct FactAt {
    /// The procedure, by its number.
    pub proc: u32,
    /// The edge.
    pub edge: Edge,
    /// The fact.
    pub fact: GroundFact,
}
