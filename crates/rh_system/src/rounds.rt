//! The greatest supported set, by rounds on one thread.
ghost use Rattle.std.specs.Prelude.{◌≡◌, ◌*◌, ◌<◌, ◌≤◌, IfOk, length, sum, vec_len};
ghost use Rattle.std.specs.Bool.{OnTrue, OnFalse};
ghost use Rattle.rh_system.specs.Bits.{bits_in};
ghost use Rattle.rh_system.specs.Rows.{IsSupported, IsSupportedPart, HoldsGreatest, IsGreatest};

use crate::bits::{next_set, with_bit};
use crate::system::System;
use std::alloc::{AllocError, Global};

/// The words with all bits of the system.
pub fn full_words<S: System>(alloc: Global, system: &S) -> Result<Vec<u64>, AllocError>
    ensures { IfOk result (λ words. words.items ≡ S.full_words system.now) }
{
    let count = system.words();
    let mut words = Vec::with_capacity(alloc, count as usize)?;
    for word in 0..count {
        words.push(system.full(word))?;
    }
    Ok(words)
}

/// The bits of one word that the words support.
pub fn supported_part<S: System>(system: &S, words: &[u64], word: u32) -> u64
    requires as_long { length words.now ≡ length (S.full_words system.now) }
    requires in_range { word < length words.now }
    ensures { IsSupportedPart (S.rows system.now) words.now word result }
{
    let all = words[word as usize];
    let first = 64 * u64::from(word);
    let mut part = 0;
    let mut from = 0;
    while let Some(place) = next_set(all, from) {
        if system.supported(words, first + u64::from(place)) {
            part = with_bit(part, place);
        }
        from = place + 1;
    }
    part
}

/// Clears each bit that the words do not support, word by word, and says whether it cleared any.
fn round<S: System>(system: &S, words: &mut [u64]) -> bool
    requires as_long { length words.old ≡ length (S.full_words system.now) }
    requires holds { HoldsGreatest (S.rows system.now) words.old }
    ensures holds { HoldsGreatest (S.rows system.now) words.new }
    ensures cleared { OnTrue result (sum words.new < sum words.old) }
    ensures closed { OnFalse result (IsSupported (S.rows system.now) (bits_in words.new)) }
{
    let mut cleared = false;
    for word in 0..system.words() {
        let part = supported_part(system, words, word);
        if part != words[word as usize] {
            words[word as usize] = part;
            cleared = true;
        }
    }
    cleared
}

/// The greatest supported set, by rounds on one thread: the greatest fixed point of the rows, from
/// above (A. Tarski, "A lattice-theoretical fixpoint theorem and its applications", 1955).
pub fn greatest<S: System>(alloc: Global, system: &S) -> Result<Vec<u64>, AllocError>
    ensures length { IfOk result (λ words. vec_len words ≡ length (S.full_words system.now)) }
    ensures greatest { IfOk result (λ words. IsGreatest (S.rows system.now) words.items) }
{
    let mut words = full_words(alloc, system)?;
    while round(system, words.as_mut_slice()) {}
    Ok(words)
}

/// A law: Greatest supports itself, and one list of words of a length holds it.
pub fn one_greatest<S: System>(system: &S, words: &[u64], others: &[u64])
    requires greatest { IsGreatest (S.rows system.now) words.now }
    requires others { IsGreatest (S.rows system.now) others.now }
    requires as_long { length words.now ≡ length others.now }
    ensures supported { IsSupported (S.rows system.now) (bits_in words.now) }
    ensures one { words.now ≡ others.now }
{}
