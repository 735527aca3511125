//! Frames.
use rh_il::Edge;

/// A procedure at work.
#[derive(Clone, Copy, Debug, PartialEq, Eq)]
pub struct Frame {
    /// The procedure, by its number in the program.
    pub proc: u32,
    /// Where its variables lie: variable i is the cell at base + i.
    pub base: u64,
    /// The edge that it took last.
    pub edge: Edge,
}
