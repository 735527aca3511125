//! Reads words by the alternatives that the parser took.

ghost use Rattle.std.specs.Prelude.{ℕ, ◌<◌, ◌≤◌, length};
ghost use Rattle.rh_grammar.specs.Cursor.{Chooses, ChoosesAs, ChoosesWithin, Takes};

/// A word of a text.
pub trait Word: Copy {
    /// The class of the token in the grammar.
    ghost class: { Self → ℕ };
}

/// What is left of a text that a grammar derives: the alternatives that derive it, in the order in
/// which they replace the leftmost nonterminal, and its words.
///
/// The parser has judged the words before; so who reads by a cursor reads what must stand there.
/// Contracts speak of that case alone.
#[derive(Drop)]
pub struct Cursor<'t, W> {
    pub steps: &'t [u8],
    pub words: &'t [W],
}

impl<W: Word> Cursor<'_, W> {
    /// The alternative of the nonterminal that comes next, by its number.
    pub fn choose(&mut self) -> u8
        ensures chooses { Chooses W.class self.old self.new result }
        ensures known { ChoosesAs W.class self.old self.new result }
        ensures within { ChoosesWithin W.class self.old result }
        ensures takes { result < 255 → length self.new.steps.now < length self.old.steps.now }
        ensures shrinks { length self.new.steps.now ≤ length self.old.steps.now }
    {
        match self.steps.split_first() {
            Some((first, rest)) => {
                self.steps = rest;
                *first
            }
            None => u8::MAX,
        }
    }

    /// The next word.
    pub fn word(&mut self) -> Option<W>
        ensures takes { Takes W.class self.old self.new result }
        ensures shrinks { length self.new.steps.now ≤ length self.old.steps.now }
    {
        let (first, rest) = self.words.split_first()?;
        self.words = rest;
        Some(*first)
    }
}
