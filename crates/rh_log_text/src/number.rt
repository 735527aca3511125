//! Numbers in a line.
ghost use Rattle.std.specs.Prelude.{◌≡◌, ◌<◌, ◌^◌, ℕ, Some, decimal};
ghost use Rattle.rh_log_text.specs.Reading.{number_of};

use itoa::Buffer;

/// The number that a word spells in decimal, without zeros in front.
pub(crate) fn number_of(word: &[u8]) -> Option<u32>
    ensures { result ≡ number_of word.now }
{
    match parsed(word) {
        Some(number) => spelled(number, word),
        None => None,
    }
}

/// The number, where the word spells it.
fn spelled(number: u32, word: &[u8]) -> Option<u32>
    requires { (n : ℕ) → n < 2 ^ 32 → word.now ≡ decimal n → number ≡ n }
    ensures { result ≡ number_of word.now }
{
    if Buffer::new().format(number).as_bytes() == word {
        Some(number)
    } else {
        None
    }
}

/// The number that the word is, if it spells one.
fn parsed(word: &[u8]) -> Option<u32>
    ensures { (n : ℕ) → n < 2 ^ 32 → word.now ≡ decimal n → result ≡ Some n }
{
    match str::from_utf8(word) {
        Ok(text) => text.parse::<u32>().ok(),
        Err(_) => None,
    }
}
