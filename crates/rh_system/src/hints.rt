//! Which bits may lose support when a word loses bits.
ghost use Rattle.std.specs.Prelude.{ℕ, ◌≡◌, ◌<◌, ◌≤◌, length};
ghost use Rattle.std.specs.List.{All};

use crate::system::System;

/// A system whose bits belong to nodes, such as the statements of a program. After a word has lost
/// bits, only the bits of the nodes that read the word can have lost support. The answers are hints:
/// a solver that follows them looks at all words before it ends, so nothing is claimed of them but
/// that their numbers are in range.
pub trait Hints: System {
    /// How many nodes there are.
    ghost node_count: { Self → ℕ };

    /// How many nodes there are.
    fn nodes(&self) -> u32
        ensures { result ≡ node_count self.now };

    /// The nodes whose bits may rest on bits of a word.
    fn readers(&self, word: u32) -> &[u32]
        requires { word < length (Self.full_words self.now) }
        ensures { All (λ node. node < node_count self.now) result.now };

    /// The words on whose bits those of a node may rest.
    fn entering(&self, node: u32) -> &[u32]
        requires { node < node_count self.now }
        ensures { All (λ word. word < length (Self.full_words self.now)) result.now };

    /// The words with bits of a node: from the first number up to the second.
    fn leaving(&self, node: u32) -> (u32, u32)
        requires { node < node_count self.now }
        ensures rising { result.0 ≤ result.1 }
        ensures in_range { result.1 ≤ length (Self.full_words self.now) };
}
