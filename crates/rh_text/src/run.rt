//! The bytes of names, numbers and gaps, and how far a run of them goes.

ghost use Rattle.std.specs.Prelude.{◌≡◌, ◌≤◌, length};
ghost use Rattle.std.specs.List.{prefix_len};
ghost use Rattle.std.specs.Char.{is_ascii_digit};
ghost use Rattle.rh_text.specs.Pieces.{is_space, is_word_byte, is_comment_byte};

pub(crate) fn is_space(byte: u8) -> bool
    ensures { result ≡ is_space byte }
{
    byte == b' ' || byte == b'\t' || byte == b'\r' || byte == b'\n'
}

fn is_word_byte(byte: u8) -> bool
    ensures { result ≡ is_word_byte byte }
{
    byte.is_ascii_alphabetic() || byte.is_ascii_digit() || byte == b'_'
}

/// The length of the run of bytes of a name at the front.
pub(crate) fn word_len(bytes: &[u8]) -> usize
    ensures { result ≡ prefix_len is_word_byte bytes.now }
{
    bytes.iter().take_while(|byte| is_word_byte(**byte)).count()
}

/// The length of the run of digits at the front.
pub(crate) fn digits_len(bytes: &[u8]) -> usize
    ensures { result ≡ prefix_len is_ascii_digit bytes.now }
{
    bytes
        .iter()
        .take_while(|byte| byte.is_ascii_digit())
        .count()
}

/// The length of the line at the front, without the line feed that ends it.
pub(crate) fn line_len(bytes: &[u8]) -> usize
    ensures { result ≡ prefix_len is_comment_byte bytes.now }
{
    bytes.iter().take_while(|byte| **byte != b'\n').count()
}
