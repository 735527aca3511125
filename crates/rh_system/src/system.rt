//! What a system is.
ghost use Rattle.std.specs.Prelude.{◌≡◌, ◌*◌, ◌<◌, ℕ, List, length, slice_index};
ghost use Rattle.rh_system.specs.Bits.{bits_in};
ghost use Rattle.rh_system.specs.Rows.{supports, IsCovered};

use rh_list::Items;

/// One way to support a bit: all of the premises.
#[derive(Drop)]
pub struct Row {
    /// The bit that the row supports.
    pub bit: u64,
    /// The bits that it needs for that. A row without premises always supports its bit.
    pub premises: Items<u64>,
}

/// Bits, held 64 to a word, and rows that support them: bit `b` stands in word `b / 64` at place
/// `b % 64`. Rows may support each other in circles.
pub trait System {
    ghost use Rattle.rh_system.specs.declared.system.Row.{Row};

    /// The words with all bits of the system.
    ghost full_words: { Self → List ℕ };

    /// The rows, in any order.
    ghost rows: { Self → List Row };

    /// How many words there are.
    fn words(&self) -> u32
        ensures { result ≡ length (full_words self.now) };

    /// All bits of one word.
    fn full(&self, word: u32) -> u64
        requires { word < length (full_words self.now) }
        ensures { result ≡ slice_index (full_words self.now) word };

    /// Whether some row of the bit has all of its premises in the words.
    fn supported(&self, words: &[u64], bit: u64) -> bool
        requires as_long { length words.now ≡ length (full_words self.now) }
        requires in_range { bit < 64 * length (full_words self.now) }
        ensures { result ≡ supports (rows self.now) (bits_in words.now) bit };

    /// A bit that is not in the full words has no row.
    ghost covered: { (s : Self) → IsCovered (full_words s) (rows s) };
}
