//! The reserved words of programs.

ghost use Rattle.std.specs.Prelude.{◌≡◌};
ghost use Rattle.rh_il.specs.Keywords.{keyword_of};

/// A reserved word, which no procedure and no variable has for a name.
#[derive(Clone, Copy, Debug, PartialEq, Eq)]
pub enum Keyword {
    Skip,
    Goto,
    If,
    Else,
    Return,
    New,
    Var,
}

/// The reserved word that the bytes spell.
pub fn keyword_of(bytes: &[u8]) -> Option<Keyword>
    ensures { result ≡ keyword_of bytes.now }
{
    if bytes == b"skip".as_slice() {
        Some(Keyword::Skip)
    } else if bytes == b"goto".as_slice() {
        Some(Keyword::Goto)
    } else if bytes == b"if".as_slice() {
        Some(Keyword::If)
    } else if bytes == b"else".as_slice() {
        Some(Keyword::Else)
    } else if bytes == b"return".as_slice() {
        Some(Keyword::Return)
    } else if bytes == b"new".as_slice() {
        Some(Keyword::New)
    } else if bytes == b"var".as_slice() {
        Some(Keyword::Var)
    } else {
        None
    }
}
