//! The set bits of words, numbered from 0 in order: which bit has a number, and which number has a bit. `Numbering::new`
//! counts the bits before each word (rank and select by G. Jacobson, "Space-efficient static trees and graphs", 1989).
ghost use Rattle.std.specs.Prelude.{ℕ, ◌≡◌, ◌↔◌, ◌+◌, ◌*◌, ◌<◌, ◌≤◌, ◌&&◌, true, false, length, nat_le, slice_index, vec_len, IsSome, IfNone, IfOk, IfSome};
ghost use Rattle.std.specs.List.{All};
ghost use Rattle.std.specs.List.Sorted.{IsNonDecreasing, IsPartitionPoint};
ghost use Rattle.std.proofs.Props.{props};
ghost use Rattle.rh_system.specs.Bits.{bits_in};
ghost use Rattle.rh_rank.specs.Numbering.{AreBegins, AreCounts, StandsIn, ones_before, run_count};
ghost use Rattle.rh_rank.specs.Rank.{rank};

use crate::word::{ones_below, place_after, spread};
use rh_list::Items;
use rh_system::has;
use std::alloc::{AllocError, Global};

/// Words and the numbers of their set bits. `before` has how many bits are set before each word, and `begins` for each
/// run of 64 numbers the word in which its first bit stands.
#[derive(Drop)]
pub struct Numbering {
    words: Items<u64>,
    before: Items<u32>,
    begins: Items<u32>,
    count: u32,
    ghost few: { length words ≤ 2097152 },
    ghost counts: { AreCounts words before } by { Prim.hlevel props },
    ghost runs: { AreBegins words begins } by { Prim.hlevel props },
    ghost all: { count ≡ ones_before words (length words) },
}

/// The counts of the bits before each word, and last that of all bits.
fn counts_before(alloc: Global, words: &[u64]) -> Result<Vec<u32>, AllocError>
    requires { length words.now ≤ 2097152 }
    ensures { IfOk result (λ before. AreCounts words.now before.items) }
{
    let mut before = Vec::with_capacity(alloc, words.len() + 1)?;
    let mut count: u32 = 0;
    for word in words {
        before.push(count)?;
        count += word.count_ones();
    }
    before.push(count)?;
    Ok(before)
}

/// For each run of 64 numbers the word in which its first bit stands. No two runs begin in one word.
fn run_begins(alloc: Global, words: &[u64], before: &[u32]) -> Result<Vec<u32>, AllocError>
    requires few { length words.now ≤ 2097152 }
    requires counts { AreCounts words.now before.now }
    ensures { IfOk result (λ begins. AreBegins words.now begins.items) }
{
    let mut begins = Vec::new(alloc);
    let mut next: u32 = 0;
    for word in 0..words.len() {
        if next < before[word + 1] {
            begins.push(word as u32)?;
            next += 64;
        }
    }
    Ok(begins)
}

impl Numbering {
    /// Numbers the bits that are set in the words.
    pub fn new(alloc: Global, words: Items<u64>) -> Result<Numbering, AllocError>
        requires { length words ≤ 2097152 }
        ensures { IfOk result (λ numbering. numbering.words ≡ words) }
    {
        let before = counts_before(alloc, words.as_slice())?;
        let begins = run_begins(alloc, words.as_slice(), before.as_slice())?;
        let count = before.as_slice()[words.len()];
        Ok(Numbering {
            words,
            before: Items::from(before),
            begins: Items::from(begins),
            count,
        })
    }

    /// How many bits are set.
    pub fn count(&self) -> u32
        ensures { result ≡ ones_before self.now.words (length self.now.words) }
    {
        self.count
    }

    /// How many words hold the numbers of the bits.
    pub fn width(&self) -> u32
        ensures { result ≡ run_count (ones_before self.now.words (length self.now.words)) }
    {
        self.count.div_ceil(64)
    }

    /// How many bits are set before each word, and last how many are set in all.
    pub fn before(&self) -> &[u32]
        ensures { All (λ count. count ≤ ones_before self.now.words (length self.now.words)) result.now }
    {
        self.before.as_slice()
    }

    /// The bit with a number. There is none from the count on.
    pub fn bit_at(&self, number: u64) -> Option<u64>
        ensures some { IsSome result ↔ (number < ones_before self.now.words (length self.now.words)) }
        ensures set { IfSome result (λ bit. bits_in self.now.words bit ≡ true) }
        ensures number { IfSome result (λ bit. rank (bits_in self.now.words) bit ≡ number) }
    {
        if number >= u64::from(self.count) {
            return None;
        }
        let number = number as u32;
        let word = self.word_of(number);
        let before = self.before.as_slice()[word];
        Some(bit_in(self.words.as_slice(), word, before, number))
    }

    /// The number of a bit. There is none where the bit is not set.
    pub fn place_of(&self, bit: u64) -> Option<u32>
        ensures set { IfSome result (λ number. bits_in self.now.words bit ≡ true) }
        ensures number { IfSome result (λ number. number ≡ rank (bits_in self.now.words) bit) }
        ensures none { IfNone result (bits_in self.now.words bit ≡ false) }
    {
        let words = self.words.as_slice();
        if has(words, bit) {
            let word = (bit / 64) as usize;
            let below = ones_below(words[word], (bit % 64) as u32);
            Some(self.before.as_slice()[word] + below)
        } else {
            None
        }
    }

    /// The words with those bits whose numbers stand in other words.
    pub fn expand(&self, alloc: Global, numbers: &[u64]) -> Result<Vec<u64>, AllocError>
        ensures length { IfOk result (λ expanded. vec_len expanded ≡ length self.now.words) }
        ensures bits { IfOk result (λ expanded. (bit : ℕ) → bits_in expanded.items bit ≡ (bits_in self.now.words bit && bits_in numbers.now (rank (bits_in self.now.words) bit))) }
    {
        let words = self.words.as_slice();
        let before = self.before.as_slice();
        let mut expanded = Vec::with_capacity(alloc, words.len())?;
        for word in 0..words.len() {
            expanded.push(spread(numbers, words[word], before[word]))?;
        }
        Ok(expanded)
    }

    /// The word in which the bit with a number stands, by a search among the words of its run.
    fn word_of(&self, number: u32) -> usize
        requires { number < self.now.count }
        ensures below { result < length self.now.words }
        ensures stands { StandsIn self.now.words number result }
    {
        let run = (number / 64) as usize;
        let first = self.begins.as_slice()[run] as usize;
        let end = self.end_of(run);
        first + not_after(&self.before.as_slice()[first + 1..end], number)
    }

    /// How many words have all bits of a run and of those before it: those up to the word in which the next run begins.
    fn end_of(&self, run: usize) -> usize
        requires { run < length self.now.begins }
        ensures begun { slice_index self.now.begins run < result }
        ensures within { result ≤ length self.now.words }
        ensures all { (number : ℕ) → number < 64 * (run + 1) → number < self.now.count → number < ones_before self.now.words result }
    {
        match self.begins.as_slice().get(run + 1) {
            Some(word) => *word as usize + 1,
            None => self.words.len(),
        }
    }
}

/// The bit with a number, which stands in this word, where so many bits are set before the word.
fn bit_in(words: &[u64], word: usize, before: u32, number: u32) -> u64
    requires few { length words.now ≤ 2097152 }
    requires below { word < length words.now }
    requires before { before ≡ ones_before words.now word }
    requires stands { StandsIn words.now number word }
    ensures set { bits_in words.now result ≡ true }
    ensures number { rank (bits_in words.now) result ≡ number }
{
    let place = place_after(words[word], number - before);
    64 * word as u64 + u64::from(place)
}

/// How many of the counts, which rise, are not above a number.
fn not_after(counts: &[u32], number: u32) -> usize
    requires { IsNonDecreasing counts.now }
    ensures bound { result ≤ length counts.now }
    ensures point { IsPartitionPoint (λ count. count ≤ number) (λ count. number < count) counts.now result }
{
    counts.partition_point(
        |count: &u32| -> bool
            ensures { result ≡ nat_le count.now number }
        { *count <= number },
    )
}
