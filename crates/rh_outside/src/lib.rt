//! The outside world as three traits: a `Shelf` of named files, a `Sink` for output and a `Gate` at
//! which workers ask whether to go on. Each has an implementation in memory or in fixed answers,
//! and the shelf and the sink one over real files and standard output.
#![tactic(auto)]

mod gate;
mod memory_shelf;
mod memory_sink;
mod shelf;
mod sink;
mod system;
mod transfer;

pub use gate::{Gate, OpenGate};
pub use memory_shelf::{MemShelf, NamedFile};
pub use memory_sink::MemSink;
pub use shelf::{Failed, Shelf};
pub use sink::Sink;
pub use system::{FileShelf, StdSink};
pub use transfer::{ReadError, read_whole, write_whole};
