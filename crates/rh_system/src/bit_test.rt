//! Sets of bits that can be asked for.
ghost use Rattle.std.specs.Prelude.{◌≡◌};
ghost use Rattle.rh_system.specs.Bits.{BitSet, bits_in};

use crate::bits::has;

/// A set of bits that can be asked for.
pub trait BitTest {
    /// The set.
    ghost holds: { Self → BitSet };

    /// Whether the bit is in the set.
    fn has(&self, bit: u64) -> bool
        ensures { result ≡ holds self.now bit };
}

/// The bits that stand in words, 64 to a word.
#[derive(Clone, Copy)]
pub struct InWords<'a> {
    pub words: &'a [u64],
}

impl BitTest for InWords<'_> {
    ghost holds = { λ known. bits_in known.words.now };

    fn has(&self, bit: u64) -> bool {
        has(self.words, bit)
    }
}
