//! What a token says.

ghost use Rattle.std.specs.Prelude.{◌≡◌, ◌≢◌, ◌^◌, ◌≤◌, length};
ghost use Rattle.rh_text.specs.declared.token.TokenKind.TheVariants.{Number};
ghost use Rattle.rh_text.specs.Words.{spelling, value_of, IsTokenOf, sign_number};

use crate::number::decimal;
use crate::sign::Sign;
use crate::token::{Token, TokenKind};

impl Token {
    /// The bytes of the token in its text.
    pub fn spelling(self, text: &[u8]) -> &[u8]
        requires { IsTokenOf text.now self }
        ensures { result.now ≡ spelling text.now self }
    {
        &text[self.start as usize..self.end as usize]
    }

    /// The value of a token that is a number, and 0 of another one.
    pub fn value(self, text: &[u8]) -> u64
        requires { IsTokenOf text.now self }
        ensures value { self.kind ≡ Number → result ≡ value_of text.now self }
        ensures other { self.kind ≢ Number → result ≡ 0 }
        ensures limit { result ≤ 2 ^ 63 }
    {
        match self.kind {
            TokenKind::Number => decimal(self.spelling(text)).unwrap_or(0),
            _ => 0,
        }
    }
}

impl Sign {
    /// The number of the sign, from 0, in the order of the variants.
    pub fn number(self) -> u8
        ensures { result ≡ sign_number self }
    {
        self as u8
    }
}
