//! A program's candidates as a system of their own, under the numbers that `Numbering` gives them.
ghost use Rattle.std.specs.Prelude.{ℕ, ◌≡◌, ◌↔◌, ◌+◌, ◌-◌, ◌^◌, ◌<◌, ◌&&◌, true, false, min, IfNone, IfOk, IfSome, IsSome, length, vec_len};
ghost use Rattle.std.specs.List.{list_all};
ghost use Rattle.std.proofs.Props.{props};
ghost use Rattle.rh_system.specs.Bits.{bit_count, bits_in};
ghost use Rattle.rh_system.specs.Rows.{IsGreatest};
ghost use Rattle.rh_sparse.specs.Candidates.{has_row};
ghost use Rattle.rh_sparse.specs.Parts.{AreCandidates, full_in, rows_in};
ghost use Rattle.rh_rank.specs.Rank.{rank};
ghost use Rattle.rh_sparse.specs.Sparse.{candidate_count, missing_count, number_of, sparse_full, sparse_rows};

use crate::flow::Flow;
use crate::support::Support;
use rh_list::Items;
use rh_rank::Numbering;
use rh_rows::Ground;
use rh_system::{BitTest, Hints, System, has};
use std::alloc::{AllocError, Global};

/// The candidates of a program, which are the bits that have rows, numbered from 0 in order. It keeps 28 bytes for each
/// word of the program, twelve for each 64 candidates, sixteen for each node, and eight for each word that a node reads.
#[derive(Drop)]
pub struct Sparse<'g> {
    facts: &'g Ground,
    support: Support<'g>,
    numbering: Numbering,
    flow: Flow,
    ghost candidates: { AreCandidates facts.now numbering.words } by { Prim.hlevel props },
    ghost covered: { list_all (λ row. bits_in (sparse_full (full_in facts.now) (rows_in facts.now)) row.bit) (sparse_rows (rows_in facts.now)) ≡ true },
    ghost same: { support.facts.now ≡ facts.now },
    ghost width: { flow.entering.bound ≡ length (sparse_full (full_in facts.now) (rows_in facts.now)) },
}

/// The candidates whose numbers stand in words.
#[derive(Clone, Copy)]
struct Numbered<'a> {
    numbering: &'a Numbering,
    numbers: &'a [u64],
}

impl BitTest for Numbered<'_> {
    ghost holds = { λ known. λ bit. bits_in known.numbering.now.words bit && bits_in known.numbers.now (rank (bits_in known.numbering.now.words) bit) };

    fn has(&self, bit: u64) -> bool {
        match self.numbering.place_of(bit) {
            Some(number) => has(self.numbers, u64::from(number)),
            None => false,
        }
    }
}

impl<'g> Sparse<'g> {
    /// Finds and numbers the candidates, and makes the hints. Of the other calls only `expand` takes memory.
    pub fn new(alloc: Global, ground: &'g Ground) -> Result<Sparse<'g>, AllocError>
        ensures { IfOk result (λ sparse. sparse.facts.now ≡ ground.now) }
    {
        let support = Support::new(alloc, ground)?;
        let masks = support.candidates(alloc)?;
        let numbering = Numbering::new(alloc, Items::from(masks))?;
        let flow = Flow::new(alloc, ground, numbering.before(), numbering.width())?;
        Ok(Sparse {
            facts: ground,
            support,
            numbering,
            flow,
        })
    }

    /// The facts of the program, by all their bits.
    pub fn facts(&self) -> &'g Ground
        ensures { result.now ≡ self.now.facts.now }
    {
        self.facts
    }

    /// How many candidates there are.
    pub fn count(&self) -> u64
        ensures { result ≡ candidate_count (full_in self.now.facts.now) (rows_in self.now.facts.now) }
    {
        u64::from(self.numbering.count())
    }

    /// The candidate with a number. There is none from the count on.
    pub fn bit_at(&self, number: u64) -> Option<u64>
        ensures some { IsSome result ↔ (number < candidate_count (full_in self.now.facts.now) (rows_in self.now.facts.now)) }
        ensures candidate { IfSome result (λ bit. has_row (rows_in self.now.facts.now) bit ≡ true) }
        ensures number { IfSome result (λ bit. number_of (rows_in self.now.facts.now) bit ≡ number) }
    {
        self.numbering.bit_at(number)
    }

    /// The number of a bit. There is none where the bit is no candidate.
    pub fn place_of(&self, bit: u64) -> Option<u64>
        ensures candidate { IfSome result (λ number. has_row (rows_in self.now.facts.now) bit ≡ true) }
        ensures number { IfSome result (λ number. number ≡ number_of (rows_in self.now.facts.now) bit) }
        ensures none { IfNone result (has_row (rows_in self.now.facts.now) bit ≡ false) }
    {
        match self.numbering.place_of(bit) {
            Some(number) => Some(u64::from(number)),
            None => None,
        }
    }

    /// The words of the program's facts that hold the candidates whose numbers stand in words of the sparse system.
    pub fn expand(&self, alloc: Global, words: &[u64]) -> Result<Vec<u64>, AllocError>
        requires { length words.now ≡ length (sparse_full (full_in self.now.facts.now) (rows_in self.now.facts.now)) }
        ensures length { IfOk result (λ expanded. vec_len expanded ≡ length (full_in self.now.facts.now)) }
        ensures bits { IfOk result (λ expanded. (bit : ℕ) → bits_in expanded.items bit ≡ (has_row (rows_in self.now.facts.now) bit && bits_in words.now (number_of (rows_in self.now.facts.now) bit))) }
        ensures greatest { IfOk result (λ expanded. IsGreatest (sparse_rows (rows_in self.now.facts.now)) words.now → IsGreatest (rows_in self.now.facts.now) expanded.items) }
        ensures missing { IfOk result (λ expanded. IsGreatest (sparse_rows (rows_in self.now.facts.now)) words.now → missing_count (full_in self.now.facts.now) (rows_in self.now.facts.now) expanded.items + bit_count words.now ≡ bit_count (sparse_full (full_in self.now.facts.now) (rows_in self.now.facts.now))) }
    {
        self.numbering.expand(alloc, words)
    }
}

/// A word with so many ones at its lowest places, or with ones alone.
fn low_ones(count: u32) -> u64
    ensures { result ≡ 2 ^ min 64 count - 1 }
{
    if count < 64 {
        (1 << count) - 1
    } else {
        u64::MAX
    }
}

impl System for Sparse<'_> {
    ghost full_words = { λ s. sparse_full (full_in s.facts.now) (rows_in s.facts.now) };

    ghost rows = { λ s. sparse_rows (rows_in s.facts.now) };

    fn words(&self) -> u32 {
        self.numbering.width()
    }

    fn full(&self, word: u32) -> u64 {
        low_ones(self.numbering.count().saturating_sub(64 * word))
    }

    fn supported(&self, words: &[u64], bit: u64) -> bool {
        let known = Numbered {
            numbering: &self.numbering,
            numbers: words,
        };
        match self.numbering.bit_at(bit) {
            Some(bit) => self.support.is_supported(&known, bit),
            None => false,
        }
    }

    ghost use Rattle.rh_system.specs.Covered.{covered_by_all};

    ghost covered = { λ s. covered_by_all (sparse_full (full_in s.facts.now) (rows_in s.facts.now)) (sparse_rows (rows_in s.facts.now)) s.covered };
}

impl Hints for Sparse<'_> {
    ghost node_count = { λ s. s.flow.readers.bound };

    fn nodes(&self) -> u32 {
        self.flow.nodes()
    }

    fn readers(&self, word: u32) -> &[u32] {
        self.flow.readers(word)
    }

    fn entering(&self, node: u32) -> &[u32] {
        self.flow.entering(node)
    }

    fn leaving(&self, node: u32) -> (u32, u32) {
        self.flow.leaving(node)
    }
}
