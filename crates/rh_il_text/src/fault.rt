//! Why bytes are not a text of a program.

ghost use Rattle.std.specs.Prelude.{◌≡◌};
ghost use Rattle.rh_il_text.specs.declared.fault.ReadFault.TheVariants.{NoMemory};

use rh_il::ProgFault;
use rh_text::LexFault;
use std::alloc::{AllocError, AllocFailed};

/// Why bytes are not a text of a program: the first fault, in the order of the variants. An offset is
/// that of the first byte of a token. To be out of memory is always `NoMemory`, never inside `Lex` or
/// `Program`.
#[derive(Clone, Copy, Debug, PartialEq, Eq)]
pub enum ReadFault {
    /// The bytes are not cut into tokens.
    Lex(LexFault),
    /// At this offset stands the first token that cannot continue a program, or the text ends too early.
    Syntax(u32),
    /// The procedure doesn't declare the variable at this offset, or the file doesn't have the
    /// procedure that is called there.
    Unknown(u32),
    /// The procedures don't pass the checks of a program.
    Program(ProgFault),
    NoMemory,
}

impl From<AllocError> for ReadFault {
    ghost from_gives = { λ _ fault. fault ≡ NoMemory };

    fn from(_failed: AllocError) -> ReadFault {
        ReadFault::NoMemory
    }
}

impl<T: Drop> From<AllocFailed<T>> for ReadFault {
    ghost from_gives = { λ _ fault. fault ≡ NoMemory };

    fn from(_failed: AllocFailed<T>) -> ReadFault {
        ReadFault::NoMemory
    }
}
