//! Cuts a text into its tokens: names, numbers and signs.
#![tactic(auto)]

mod front;
mod lexer;
mod number;
mod run;
mod sign;
mod token;
mod word;

pub use lexer::{TEXT_LIMIT, texts_have_one_answer, tokens};
pub use number::{decimal, signed};
pub use sign::Sign;
pub use token::{LexFault, Token, TokenKind};
