//! The words of program texts.

ghost use Rattle.std.specs.Prelude.{◌≡◌};
ghost use Rattle.rh_text.specs.Words.{IsTokenOf};
ghost use Rattle.rh_il_source.specs.Words.{keyword_number, name_word, word_of, class_of};

use crate::grammar::class;
use rh_il::{Keyword, Name, is_proper, keyword_of};
use rh_text::{Sign, Token, TokenKind};

/// The class of a reserved word in the grammar. They come after those of the signs.
fn keyword_number(keyword: Keyword) -> u8
    ensures { result ≡ keyword_number keyword }
{
    class::SKIP + keyword as u8
}

/// What a token says in the text of a program.
#[derive(Clone, Copy)]
pub enum Word {
    Sign(Sign),
    Keyword(Keyword),
    /// A name that begins with a small letter.
    Name(Name),
    Number(u64),
    /// A name that no procedure and no variable may have.
    Other,
}

impl rh_grammar::Word for Word {
    ghost class = { class_of };
}

/// The word that a name is, if it is not reserved.
fn name_word(bytes: &[u8]) -> Word
    ensures { result ≡ name_word bytes.now }
{
    let Some(name) = Name::of(bytes) else {
        return Word::Other;
    };
    if is_proper(&name) {
        Word::Name(name)
    } else {
        Word::Other
    }
}

/// What a token of a text says.
pub fn word_of(text: &[u8], token: Token) -> Word
    requires { IsTokenOf text.now token }
    ensures { result ≡ word_of text.now token }
{
    match token.kind {
        TokenKind::Lower => match keyword_of(token.spelling(text)) {
            Some(keyword) => Word::Keyword(keyword),
            None => name_word(token.spelling(text)),
        },
        TokenKind::Upper => Word::Other,
        TokenKind::Number => Word::Number(token.value(text)),
        TokenKind::Sign(sign) => Word::Sign(sign),
    }
}

/// The class of a word in the grammar. That of a number goes by its size: a target, an operand, or
/// one that may only follow `-`.
pub fn class_of(word: &Word) -> u8
    ensures { result ≡ class_of word.now }
{
    match *word {
        Word::Sign(sign) => sign.number(),
        Word::Keyword(keyword) => keyword_number(keyword),
        Word::Name(_) => class::NAME,
        Word::Number(size) => {
            if size <= 0xffff_ffff {
                class::INDEX
            } else if size <= 0x7fff_ffff_ffff_ffff {
                class::SIZE
            } else {
                class::LEAST
            }
        }
        Word::Other => class::OTHER,
    }
}
