//! Counting and finding the set bits of one word.
ghost use Rattle.std.specs.Prelude.{ℕ, ◌≡◌, ◌+◌, ◌<◌, ◌≤◌, ◌%◌, ◌^◌, ◌==◌, ◌&&◌, count_ones};
ghost use Rattle.std.specs.Int.{bit_at};
ghost use Rattle.rh_system.specs.Bits.{bits_in};
ghost use Rattle.rh_rank.specs.Numbering.{IsSpread};

use rh_system::{has, next_set, with_bit};

/// How many bits of the word are set below a place.
pub(crate) fn ones_below(word: u64, place: u32) -> u32
    requires { place < 64 }
    ensures { result ≡ count_ones (word % 2 ^ place) }
{
    (word & ((1 << place) - 1)).count_ones()
}

/// The place of the set bit before which so many others are set, by halving.
pub(crate) fn place_after(word: u64, ones: u32) -> u32
    requires { ones < count_ones word }
    ensures below { result < 64 }
    ensures set { bit_at word result ≡ 1 }
    ensures after { count_ones (word % 2 ^ result) ≡ ones }
{
    let mut low: u32 = 0;
    let mut high: u32 = 64;
    while high - low > 1 {
        let middle = (low + high) / 2;
        if ones_below(word, middle) <= ones {
            low = middle;
        } else {
            high = middle;
        }
    }
    low
}

/// The set bits of a word whose numbers stand in other words. The first set bit has this number, and the others have
/// the numbers after it in order.
pub(crate) fn spread(numbers: &[u64], word: u64, first: u32) -> u64
    ensures { IsSpread numbers.now word first result }
{
    let mut part = 0;
    let mut number = u64::from(first);
    let mut from = 0;
    while let Some(place) = next_set(word, from) {
        if has(numbers, number) {
            part = with_bit(part, place);
        }
        number += 1;
        from = place + 1;
    }
    part
}
