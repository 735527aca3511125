//! Reads words by the alternatives that the parser took.

ghost use Rattle.std.specs.Prelude.{◌≡◌, ◌<◌, ◌≤◌, ◌∷◌, [], length};
ghost use Rattle.rh_grammar.specs.declared.grammar.Symbol.TheVariants.{Token};
ghost use Rattle.rh_rule_parse.specs.Cursor.{Reads, Chooses, ChoosesAs, ChoosesWithin, Takes, Skips, ReadsNumber};
ghost use Rattle.rh_rule_source.specs.Grammar.{LOWER, UPPER};
ghost use Rattle.rh_rule_source.specs.declared.word.Word.TheVariants.{Lower, Upper};

use rh_rule_source::{Spelled, Word};

/// What is left of a text that the grammar derives: the alternatives that derive it, in the order
/// in which they replace the leftmost nonterminal, and its words.
///
/// The parser has judged the words before; so each method reads what must stand there.
#[derive(Drop)]
pub(crate) struct Cursor<'t> {
    pub productions: &'t [u8],
    pub words: &'t [Word],
}

impl Cursor<'_> {
    /// The alternative of the nonterminal that comes next.
    pub fn choose(&mut self) -> u8
        ensures chooses { Chooses self.old self.new result }
        ensures known { ChoosesAs self.old self.new result }
        ensures within { ChoosesWithin self.old result }
        ensures takes { result < 255 → length self.new.productions.now < length self.old.productions.now }
        ensures shrinks { length self.new.productions.now ≤ length self.old.productions.now }
    {
        match self.productions.split_first() {
            Some((first, rest)) => {
                self.productions = rest;
                *first
            }
            None => u8::MAX,
        }
    }

    /// The next word.
    fn word(&mut self) -> Word
        ensures takes { Takes self.old self.new result }
        ensures shrinks { length self.new.productions.now ≤ length self.old.productions.now }
    {
        match self.words.split_first() {
            Some((first, rest)) => {
                self.words = rest;
                *first
            }
            None => Word::Fixed(u8::MAX),
        }
    }

    /// Goes over a sign or a word of the grammar.
    pub fn skip(&mut self)
        ensures skips { Skips self.old self.new }
        ensures shrinks { length self.new.productions.now ≤ length self.old.productions.now }
    {
        self.word();
    }

    /// The next name, which begins with a small letter.
    pub fn lower(&mut self) -> Spelled
        ensures reads { Reads (Token LOWER ∷ []) (λ name. Lower name ∷ []) self.old self.new result }
        ensures shrinks { length self.new.productions.now ≤ length self.old.productions.now }
    {
        match self.word() {
            Word::Lower(name) => name,
            _ => Spelled::none(),
        }
    }

    /// The next name, which begins with a capital letter.
    pub fn upper(&mut self) -> Spelled
        ensures reads { Reads (Token UPPER ∷ []) (λ name. Upper name ∷ []) self.old self.new result }
        ensures shrinks { length self.new.productions.now ≤ length self.old.productions.now }
    {
        match self.word() {
            Word::Upper(name) => name,
            _ => Spelled::none(),
        }
    }

    /// The next number.
    pub fn number(&mut self) -> u64
        ensures reads { ReadsNumber self.old self.new result }
        ensures shrinks { length self.new.productions.now ≤ length self.old.productions.now }
    {
        match self.word() {
            Word::Number(number) => number,
            _ => 0,
        }
    }
}
