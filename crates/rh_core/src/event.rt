//! What the workers of the pure core do.

/// One step of a worker on a word.
#[derive(Clone, Copy, Debug, PartialEq, Eq)]
pub enum Event {
    /// The worker reads the word.
    Load { worker: u32, word: u32 },
    /// The worker clears the bits of the word that the mask leaves out, and reads what is left.
    And { worker: u32, word: u32, mask: u64 },
}
