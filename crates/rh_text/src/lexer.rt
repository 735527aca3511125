//! The tokens of a text.

ghost use Rattle.std.specs.Prelude.{ℕ, ◌≤◌, List, length, IfOk, IfErr};
ghost use Rattle.rh_text.specs.declared.token.Token.{Token};
ghost use Rattle.rh_text.specs.declared.token.LexFault.{LexFault};
ghost use Rattle.rh_text.specs.Pieces.{AreTokens, IsFirstFault};
ghost use Rattle.rh_text.specs.Tokens.{FaultsAs, HasOneAnswer, IsTokens, IsFault};
ghost use Rattle.rh_text.specs.Words.{IsTokenOf};
ghost use Rattle.std.specs.List.{All};

use crate::front::front_at;
use crate::token::{LexFault, Token};
use std::alloc::Global;

/// The most bytes of a text.
pub const TEXT_LIMIT: usize = 1_048_576;

/// The tokens of a text in order, or its first fault.
pub fn tokens(alloc: Global, text: &[u8]) -> Result<Vec<Token>, LexFault>
    requires { length text.now ≤ TEXT_LIMIT }
    ensures tokens { IfOk result (λ tokens. AreTokens text.now tokens.items) }
    ensures each { IfOk result (λ tokens. All (IsTokenOf text.now) tokens.items) }
    ensures fault { IfErr result (FaultsAs text.now) }
    ensures whole { (all : List Token) → AreTokens text.now all → IsTokens all result }
    ensures first { (fault : LexFault) → IsFirstFault text.now fault → IsFault fault result }
{
    let mut tokens = Vec::new(alloc);
    let mut at = 0;
    while at < text.len() {
        let front = front_at(&text[at..], at as u32)?;
        let end = at + front.len;
        if let Some(kind) = front.kind {
            let start = at as u32;
            let end = end as u32;
            tokens.push(Token { kind, start, end })?;
        }
        at = end;
    }
    Ok(tokens)
}

/// A law: a text has one list of tokens or one first fault, and never both.
pub fn texts_have_one_answer()
    ensures { (text : List ℕ) → HasOneAnswer text }
{}
