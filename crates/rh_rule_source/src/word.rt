//! What the tokens of a rule file say.

ghost use Rattle.std.specs.Prelude.{◌≡◌, map, IfOk};
ghost use Rattle.std.specs.List.{All};
ghost use Rattle.rh_text.specs.Words.{IsTokenOf};
ghost use Rattle.rh_rule_source.specs.Words.{class_of, number_class, keyword_class, word_class, name_word, word_of};

use crate::grammar::class;
use rh_il::Name;
use rh_rule::{RuleKeyword, is_proper, is_upper_name, keyword_of};
use rh_text::{Token, TokenKind};
use std::alloc::{AllocError, Global};

/// A name, and the offset at which it stands.
#[derive(Clone, Copy)]
pub struct Spelled {
    pub name: Name,
    pub at: u32,
}

impl Spelled {
    /// What stands in the place of a name where there is none.
    pub fn none() -> Spelled {
        let name = Name::of(b"none").unwrap();
        Spelled { name, at: 0 }
    }
}

/// What a token says.
#[derive(Clone, Copy)]
pub enum Word {
    /// A sign or a reserved word, by its class.
    Fixed(u8),
    Lower(Spelled),
    Upper(Spelled),
    Number(u64),
}

fn number_class(number: u64) -> u8
    ensures { result ≡ number_class number }
{
    match number {
        1 => class::ONE,
        9_223_372_036_854_775_808 => class::LARGEST,
        _ => class::NUMBER,
    }
}

impl Word {
    /// The class of the word in the grammar.
    pub(crate) fn class(self) -> u8
        ensures { result ≡ class_of self }
    {
        match self {
            Word::Fixed(class) if class < class::LOWER => class,
            Word::Fixed(_) => class::NONE,
            Word::Lower(_) => class::LOWER,
            Word::Upper(_) => class::UPPER,
            Word::Number(number) => number_class(number),
        }
    }
}

/// The class of a reserved word.
fn keyword_class(keyword: RuleKeyword) -> u8
    ensures { result ≡ keyword_class keyword }
{
    match keyword {
        RuleKeyword::Rhodium => class::RHODIUM,
        RuleKeyword::Fact => class::FACT,
        RuleKeyword::Var => class::VAR,
        RuleKeyword::Const => class::CONST,
        RuleKeyword::Means => class::MEANS,
        RuleKeyword::And => class::AND,
        RuleKeyword::Number => class::NUMBER_OF,
        RuleKeyword::Pointer => class::POINTER,
        RuleKeyword::Unaliased => class::UNALIASED,
        RuleKeyword::Rule => class::RULE,
        RuleKeyword::When => class::WHEN,
        RuleKeyword::In => class::IN,
        RuleKeyword::Out => class::OUT,
        RuleKeyword::Then => class::THEN,
        RuleKeyword::Else => class::ELSE,
        RuleKeyword::Transform => class::TRANSFORM,
        RuleKeyword::Entry => class::ENTRY,
        RuleKeyword::Goto => class::GOTO,
        RuleKeyword::Skip => class::SKIP,
        RuleKeyword::If => class::IF,
        RuleKeyword::Return => class::RETURN,
        RuleKeyword::New => class::NEW,
        RuleKeyword::Call => class::CALL,
    }
}

/// The class of a word, if it is reserved.
fn word_class(word: &[u8]) -> Option<u8>
    ensures { result ≡ word_class word.now }
{
    Some(keyword_class(keyword_of(word)?))
}

/// What a name says: it is reserved, if it may not be the name of a fact, a rule or a metavariable.
fn name_word(bytes: &[u8], at: u32) -> Word
    ensures { result ≡ name_word bytes.now at }
{
    match Name::of(bytes) {
        Some(name) if is_upper_name(&name) => Word::Upper(Spelled { name, at }),
        Some(name) if is_proper(&name) => Word::Lower(Spelled { name, at }),
        _ => Word::Fixed(word_class(bytes).unwrap_or(class::NONE)),
    }
}

/// What a token says.
pub(crate) fn word_of(text: &[u8], token: Token) -> Word
    requires { IsTokenOf text.now token }
    ensures { result ≡ word_of text.now token }
{
    match token.kind {
        TokenKind::Lower | TokenKind::Upper => name_word(token.spelling(text), token.start),
        TokenKind::Number => Word::Number(token.value(text)),
        TokenKind::Sign(sign) => Word::Fixed(sign.number()),
    }
}

/// What the tokens of a text say.
pub fn words_of(alloc: Global, text: &[u8], tokens: &[Token]) -> Result<Vec<Word>, AllocError>
    requires { All (IsTokenOf text.now) tokens.now }
    ensures { IfOk result (λ words. words.items ≡ map (word_of text.now) tokens.now) }
{
    let mut words = Vec::new(alloc);
    for token in tokens {
        words.push(word_of(text, *token))?;
    }
    Ok(words)
}

/// The classes of words.
pub fn classes_of(alloc: Global, words: &[Word]) -> Result<Vec<u8>, AllocError>
    ensures { IfOk result (λ classes. classes.items ≡ map class_of words.now) }
{
    words.iter().map(|word| word.class()).collect(alloc)
}
