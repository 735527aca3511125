//! Lists of parts.

ghost use Rattle.std.specs.Prelude.{ℕ, ◌≡◌, ◌<◌, ◌≤◌, ◌∷◌, [], List, length, IfOk};
ghost use Rattle.rh_grammar.specs.declared.grammar.Symbol.TheVariants.{Rule};
ghost use Rattle.rh_rule_parse.specs.Cursor.{Reads, ReadsMore};
ghost use Rattle.rh_rule_parse.specs.Lists.{IsSeparated, IsRepeated};
ghost use Rattle.rh_rule_source.specs.Source.{separated};
ghost use Rattle.rh_rule_source.specs.declared.word.Word.{Word};
ghost use Rattle.rh_rule_source.specs.declared.word.Word.TheVariants.{Fixed};

use crate::cursor::Cursor;
use rh_list::Items;
use std::alloc::{AllocError, Global};

/// A part of a text that stands in lists.
pub(crate) trait Part: Sized + Drop {
    /// The nonterminal of the part.
    ghost part: { ℕ };

    /// The nonterminal of the parts that follow the first one.
    ghost others: { ℕ };

    /// The class of the word between two parts.
    ghost between: { ℕ };

    /// The words of the part.
    ghost words: { Self → List Word };

    /// Reads the part.
    fn read(cursor: &mut Cursor, alloc: Global) -> Result<Self, AllocError>
        ensures reads { IfOk result (Reads (Rule part ∷ []) words cursor.old cursor.new) }
        ensures shrinks { length cursor.new.productions.now ≤ length cursor.old.productions.now };
}

impl Cursor<'_> {
    /// A list with a word between each part and the next. `more` is the alternative of one more.
    pub(crate) fn separated<P: Part>(
        &mut self,
        alloc: Global,
        more: u8,
    ) -> Result<Items<P>, AllocError>
        requires { IsSeparated P.part P.others P.between more }
        ensures reads { IfOk result (Reads (Rule P.part ∷ Rule P.others ∷ []) (separated P.words (Fixed P.between)) self.old self.new) }
        ensures some { IfOk result (λ parts. 0 < length parts) }
        ensures shrinks { length self.new.productions.now ≤ length self.old.productions.now }
    {
        let mut parts = Items::new(alloc);
        parts.push(P::read(self, alloc)?)?;
        while self.choose() == more {
            self.skip();
            parts.push(P::read(self, alloc)?)?;
        }
        Ok(parts)
    }

    /// The parts, and those that follow them with nothing between. `more` is the alternative of one
    /// more.
    pub(crate) fn repeated<P: Part>(
        &mut self,
        alloc: Global,
        mut parts: Items<P>,
        more: u8,
    ) -> Result<Items<P>, AllocError>
        requires { IsRepeated P.part P.others more }
        ensures reads { IfOk result (ReadsMore P.others P.words parts self.old self.new) }
        ensures shrinks { length self.new.productions.now ≤ length self.old.productions.now }
    {
        while self.choose() == more {
            parts.push(P::read(self, alloc)?)?;
        }
        Ok(parts)
    }
}
