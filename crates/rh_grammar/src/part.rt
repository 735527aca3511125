//! Lists of parts.

ghost use Rattle.std.specs.Prelude.{ℕ, ◌≤◌, List, length, IfOk};
ghost use Rattle.rh_grammar.specs.declared.grammar.Symbol.{Symbol};
ghost use Rattle.rh_grammar.specs.Derivation.{Rules};
ghost use Rattle.rh_grammar.specs.Cursor.{Reads, ReadsMore, IsRepeated};

use crate::cursor::{Cursor, Word};
use rh_list::Items;
use std::alloc::{AllocError, Global};

/// A part of a text that stands in lists.
pub trait Part<W: Word>: Sized + Drop {
    /// The grammar.
    ghost rules: { Rules };

    /// The nonterminal of more parts: one part and then itself, or nothing.
    ghost others: { ℕ };

    /// The symbols of one part.
    ghost symbols: { List Symbol };

    /// The words of the part.
    ghost words: { Self → List W };

    /// Reads the part.
    fn read(cursor: &mut Cursor<W>, alloc: Global) -> Result<Self, AllocError>
        ensures reads { IfOk result (Reads W.class rules symbols words cursor.old cursor.new) }
        ensures shrinks { length cursor.new.steps.now ≤ length cursor.old.steps.now };
}

/// Reads the parts of a list that come next, and puts them behind others.
pub fn repeated<W: Word, P: Part<W>>(
    cursor: &mut Cursor<W>,
    mut parts: Items<P>,
    alloc: Global,
) -> Result<Items<P>, AllocError>
    requires { IsRepeated P.rules P.others P.symbols }
    ensures reads { IfOk result (ReadsMore W.class P.rules P.others P.words parts cursor.old cursor.new) }
    ensures shrinks { length cursor.new.steps.now ≤ length cursor.old.steps.now }
{
    while cursor.choose() == 0 {
        parts.push(P::read(cursor, alloc)?)?;
    }
    Ok(parts)
}
