//! What stands at the front of a text.

ghost use Rattle.std.specs.Prelude.{◌≡◌, ◌<◌, length, slice_index, MatchResult, true};
ghost use Rattle.std.specs.Char.{is_ascii_alphabetic, is_ascii_digit};
ghost use Rattle.rh_text.specs.Pieces.{IsFaultAt};
ghost use Rattle.rh_text.specs.Fronts.{IsFront};

use crate::number::decimal;
use crate::run::{digits_len, is_space, line_len, word_len};
use crate::sign::sign_at;
use crate::token::{LexFault, TokenKind};

/// The most bytes of a name.
const NAME_LIMIT: usize = 32;

/// The piece at the front of a text: its length, and which token it is, if it is one.
#[derive(Clone, Copy)]
pub(crate) struct Front {
    pub len: usize,
    pub kind: Option<TokenKind>,
}

fn name_at(text: &[u8], at: u32) -> Result<Front, LexFault>
    requires { is_ascii_alphabetic (slice_index text.now 0) ≡ true }
    ensures { MatchResult result (IsFront text.now) (IsFaultAt at text.now) }
{
    let len = word_len(text);
    if len > NAME_LIMIT {
        return Err(LexFault::LongName(at));
    }
    let kind = if text[0].is_ascii_lowercase() {
        TokenKind::Lower
    } else {
        TokenKind::Upper
    };
    Ok(Front {
        len,
        kind: Some(kind),
    })
}

fn number_at(text: &[u8], at: u32) -> Result<Front, LexFault>
    requires { is_ascii_digit (slice_index text.now 0) ≡ true }
    ensures { MatchResult result (IsFront text.now) (IsFaultAt at text.now) }
{
    let len = digits_len(text);
    match decimal(&text[..len]) {
        Some(_) => Ok(Front {
            len,
            kind: Some(TokenKind::Number),
        }),
        None => Err(LexFault::NumberRange(at)),
    }
}

/// Reads the piece at the front of a text that stands at an offset.
pub(crate) fn front_at(text: &[u8], at: u32) -> Result<Front, LexFault>
    requires { 0 < length text.now }
    ensures { MatchResult result (IsFront text.now) (IsFaultAt at text.now) }
{
    let first = text[0];
    if is_space(first) {
        return Ok(Front { len: 1, kind: None });
    }
    if first == b'#' {
        let len = line_len(text);
        return Ok(Front { len, kind: None });
    }
    if first.is_ascii_alphabetic() {
        return name_at(text, at);
    }
    if first.is_ascii_digit() {
        return number_at(text, at);
    }
    match sign_at(text) {
        Some((sign, len)) => Ok(Front {
            len,
            kind: Some(TokenKind::Sign(sign)),
        }),
        None => Err(LexFault::BadByte(at)),
    }
}
