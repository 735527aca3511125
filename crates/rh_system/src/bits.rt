//! Bits of words.
ghost use Rattle.std.specs.Prelude.{◌≡◌, ◌≢◌, ◌<◌, ◌≤◌, ◌==◌, ℕ, IfNone, IfSome};
ghost use Rattle.std.specs.Int.{bit_at};
ghost use Rattle.std.specs.List.{list_all};
ghost use Rattle.rh_system.specs.Bits.{bits_in};

/// Whether the bit stands in the words. Past the last word no bit does.
pub fn has(words: &[u64], bit: u64) -> bool
    ensures { result ≡ bits_in words.now bit }
{
    match words.get((bit / 64) as usize) {
        Some(word) => is_set(*word, (bit % 64) as u32),
        None => false,
    }
}

/// Whether all of these bits stand in the words.
pub fn has_all(words: &[u64], bits: &[u64]) -> bool
    ensures { result ≡ list_all (bits_in words.now) bits.now }
{
    bits.iter().all(|bit| has(words, *bit))
}

/// Whether the bit at a place of the word is set.
pub fn is_set(word: u64, place: u32) -> bool
    requires { place < 64 }
    ensures { result ≡ (bit_at word place == 1) }
{
    (word >> place) & 1 == 1
}

/// The word with the bit at a place set too.
pub fn with_bit(word: u64, place: u32) -> u64
    requires { place < 64 }
    ensures here { bit_at result place ≡ 1 }
    ensures others { (other : ℕ) → other ≢ place → bit_at result other ≡ bit_at word other }
{
    word | 1 << place
}

/// The least place from a place on at which a bit of the word is set.
pub fn next_set(word: u64, from: u32) -> Option<u32>
    ensures within { IfSome result (λ place. (from ≤ place) × (place < 64)) }
    ensures found { IfSome result (λ place. bit_at word place ≡ 1) }
    ensures least { IfSome result (λ place. (other : ℕ) → from ≤ other → other < place → bit_at word other ≡ 0) }
    ensures none { IfNone result ((other : ℕ) → from ≤ other → other < 64 → bit_at word other ≡ 0) }
{
    if from >= 64 {
        return None;
    }
    let left = word >> from;
    if left == 0 {
        None
    } else {
        Some(from + left.trailing_zeros())
    }
}
