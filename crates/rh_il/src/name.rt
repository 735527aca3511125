//! Names.
ghost use Rattle.std.specs.Prelude.{◌≡◌, ◌↔◌, IsTrue, IsSome, IfSome};
ghost use Rattle.rh_il.specs.Name.{is_name, is_word_byte};
ghost use Rattle.std.specs.List.{list_all};

use std::marker::Model;

/// The most bytes that a name has.
pub const LONGEST_NAME: usize = 32;

/// A letter of ASCII, then letters, digits and `_`, at most 32 bytes in all. It takes no memory of
/// its own.
#[derive(Clone, Copy)]
pub struct Name {
    bytes: [u8; 32],
    len: usize,
}

impl Model for Name {
    ghost use Rattle.std.specs.Prelude.{ℕ, List, take, length};
    ghost use Rattle.rh_il.specs.Spelling.{IsSpelling, padded};

    ghost Value = { List ℕ };

    ghost use Rattle.rh_il.specs.Unspelled.{unspelled};

    ghost view = { λ n. take n.len n.bytes };

    ghost invariant = { λ n. IsSpelling n.bytes n.len };

    ghost inverse = { λ name. record { bytes = padded name; len = length name } };

    ghost inverse_ok = { unspelled };
}

impl Name {
    /// The name that these bytes spell.
    pub fn of(bytes: &[u8]) -> Option<Name>
        ensures spelled { IsSome result ↔ IsTrue (is_name bytes.now) }
        ensures value { IfSome result (λ name. name ≡ bytes.now) }
    {
        if !is_name(bytes) {
            return None;
        }
        let mut padded = [0; LONGEST_NAME];
        padded[..bytes.len()].copy_from_slice(bytes);
        Some(Name {
            bytes: padded,
            len: bytes.len(),
        })
    }

    /// How the name is spelled.
    pub fn bytes(&self) -> &[u8]
        ensures value { result.now ≡ self.now }
        ensures name { IsTrue (is_name self.now) }
    {
        &self.bytes[..self.len]
    }
}

/// Whether the bytes spell a name.
fn is_name(bytes: &[u8]) -> bool
    ensures { result ≡ is_name bytes.now }
{
    match bytes.split_first() {
        None => false,
        Some((first, rest)) => {
            first.is_ascii_alphabetic() && rest.len() < LONGEST_NAME && are_word_bytes(rest)
        }
    }
}

fn are_word_bytes(bytes: &[u8]) -> bool
    ensures { result ≡ list_all is_word_byte bytes.now }
{
    bytes.iter().all(|byte| is_word_byte(*byte))
}

fn is_word_byte(byte: u8) -> bool
    ensures { result ≡ is_word_byte byte }
{
    byte.is_ascii_alphanumeric() || byte == b'_'
}
