//! Grammars as data.

ghost use Rattle.std.specs.Prelude.{◌≡◌, ◌==◌, length};
ghost use Rattle.std.specs.List.{list_any, position};
ghost use Rattle.rh_grammar.specs.Tables.{is_taken_at, is_empty, byte, choice, empty, production_at, chosen, SymbolsOf};

/// A symbol of an alternative.
#[derive(Clone, Copy, Debug, PartialEq, Eq)]
pub enum Symbol {
    /// A token of this class.
    Token(u8),
    /// What this nonterminal derives.
    Rule(u8),
}

/// What a nonterminal may be replaced by.
#[derive(Clone, Copy, Debug)]
pub struct Alternative<'g> {
    /// The classes of the tokens at which it is taken. One of no symbols is taken at all others too.
    pub at: &'g [u8],
    pub to: &'g [Symbol],
}

/// A nonterminal. Its alternatives are known by their places.
#[derive(Clone, Copy, Debug)]
pub struct Nonterminal<'g> {
    /// What replaces the nonterminal weighs less than this, up to the first symbol that derives a
    /// token in any case; so replacing comes to an end.
    pub weight: u32,
    pub alternatives: &'g [Alternative<'g>],
}

/// A grammar that one token of lookahead decides. Its nonterminals are known by their places.
#[derive(Clone, Copy, Debug)]
pub struct Grammar<'g> {
    pub nonterminals: &'g [Nonterminal<'g>],
}

impl Alternative<'_> {
    fn is_taken_at(&self, class: u8) -> bool
        ensures { result ≡ is_taken_at class self.now }
    {
        self.at.iter().any(|other| *other == class)
    }

    fn is_empty(&self) -> bool
        ensures { result ≡ is_empty self.now }
    {
        self.to.is_empty()
    }
}

impl Nonterminal<'_> {
    fn taken_at(&self, class: u8) -> Option<usize>
        ensures { result ≡ position (is_taken_at class) self.now.alternatives.now }
    {
        self.alternatives.iter().position(|a| a.is_taken_at(class))
    }

    fn empty(&self) -> Option<usize>
        ensures { result ≡ position is_empty self.now.alternatives.now }
    {
        self.alternatives.iter().position(|a| a.is_empty())
    }
}

/// A number of eight bits.
fn byte(number: Option<usize>) -> Option<u8>
    ensures { result ≡ byte number }
{
    match number {
        Some(n) if n < 256 => Some(n as u8),
        _ => None,
    }
}

impl Grammar<'_> {
    /// The alternative to take at a token.
    #[tactic(auto, unfolding(crate::specs::Tables::choice))]
    pub(crate) fn choice(&self, rule: u8, class: u8) -> Option<u8>
        ensures { result ≡ choice self.now rule class }
    {
        let nonterminal = self.nonterminals.get(rule as usize)?;
        byte(nonterminal.taken_at(class))
    }

    /// The alternative of no symbols.
    #[tactic(auto, unfolding(crate::specs::Tables::empty))]
    pub(crate) fn empty(&self, rule: u8) -> Option<u8>
        ensures { result ≡ empty self.now rule }
    {
        let nonterminal = self.nonterminals.get(rule as usize)?;
        byte(nonterminal.empty())
    }

    /// The alternative to take at a token, or else that of no symbols.
    #[tactic(auto, unfolding(crate::specs::Tables::chosen))]
    pub(crate) fn chosen(&self, rule: u8, class: u8) -> Option<u8>
        ensures { result ≡ chosen self.now rule class }
    {
        self.choice(rule, class).or(self.empty(rule))
    }

    /// What replaces a nonterminal by the alternative of a number.
    pub(crate) fn symbols(&self, rule: u8, number: u8) -> Option<&[Symbol]>
        ensures { SymbolsOf result (production_at self.now rule number) }
    {
        let nonterminal = self.nonterminals.get(rule as usize)?;
        let alternative = nonterminal.alternatives.get(number as usize)?;
        Some(alternative.to)
    }
}
