//! The signs of the language.

ghost use Rattle.std.specs.Prelude.{◌≡◌, slice_index};
ghost use Rattle.rh_text.specs.Signs.{two_byte_sign, one_byte_sign, sign_at};

/// A sign: one or two bytes that are neither a name nor a number.
#[derive(Clone, Copy, Debug, PartialEq, Eq)]
pub enum Sign {
    Becomes,
    Equal,
    Differ,
    Arrow,
    Semicolon,
    Comma,
    OpenParen,
    CloseParen,
    OpenBrace,
    CloseBrace,
    Plus,
    Minus,
    Star,
    Less,
    Ampersand,
    At,
    Underscore,
}

fn two_byte_sign(first: u8, second: u8) -> Option<Sign>
    ensures { result ≡ two_byte_sign first second }
{
    match (first, second) {
        (b':', b'=') => Some(Sign::Becomes),
        (b'=', b'=') => Some(Sign::Equal),
        (b'!', b'=') => Some(Sign::Differ),
        (b'=', b'>') => Some(Sign::Arrow),
        _ => None,
    }
}

fn one_byte_sign(byte: u8) -> Option<Sign>
    ensures { result ≡ one_byte_sign byte }
{
    match byte {
        b';' => Some(Sign::Semicolon),
        b',' => Some(Sign::Comma),
        b'(' => Some(Sign::OpenParen),
        b')' => Some(Sign::CloseParen),
        b'{' => Some(Sign::OpenBrace),
        b'}' => Some(Sign::CloseBrace),
        b'+' => Some(Sign::Plus),
        b'-' => Some(Sign::Minus),
        b'*' => Some(Sign::Star),
        b'<' => Some(Sign::Less),
        b'&' => Some(Sign::Ampersand),
        b'@' => Some(Sign::At),
        b'_' => Some(Sign::Underscore),
        _ => None,
    }
}

/// The byte at a place, or 0 past the end.
fn byte_at(bytes: &[u8], place: usize) -> u8
    ensures { result ≡ slice_index bytes.now place }
{
    bytes.get(place).copied().unwrap_or(0)
}

/// The sign with which the bytes begin, and its length.
#[tactic(auto, unfolding(crate::specs::Signs::sign_at))]
pub(crate) fn sign_at(bytes: &[u8]) -> Option<(Sign, usize)>
    ensures { result ≡ sign_at bytes.now }
{
    let first = byte_at(bytes, 0);
    if let Some(sign) = two_byte_sign(first, byte_at(bytes, 1)) {
        return Some((sign, 2));
    }
    let sign = one_byte_sign(first)?;
    Some((sign, 1))
}
