//! What a text is cut into.

ghost use Rattle.rh_text.specs.declared.token.LexFault.TheVariants.{NoMemory};
ghost use Rattle.std.specs.Prelude.{◌≡◌};

use crate::sign::Sign;
use std::alloc::AllocFailed;

/// The kind of a token. A name is `Lower` or `Upper` by its first letter.
#[derive(Clone, Copy, Debug, PartialEq, Eq)]
pub enum TokenKind {
    Lower,
    Upper,
    Number,
    Sign(Sign),
}

/// A token, with the offsets of its first byte and of the byte after its last.
#[derive(Clone, Copy, Debug, PartialEq, Eq)]
pub struct Token {
    pub kind: TokenKind,
    pub start: u32,
    pub end: u32,
}

/// Why a text has no tokens. The number is the offset of the fault.
#[derive(Clone, Copy, Debug, PartialEq, Eq)]
pub enum LexFault {
    /// No token begins with this byte.
    BadByte(u32),
    /// The number that begins here is above 2 ^ 63.
    NumberRange(u32),
    /// The name that begins here has more than 32 bytes.
    LongName(u32),
    NoMemory,
}

impl<T: Drop> From<AllocFailed<T>> for LexFault {
    ghost from_gives = { λ _ fault. fault ≡ NoMemory };

    fn from(_failed: AllocFailed<T>) -> LexFault {
        LexFault::NoMemory
    }
}
