//! What supports the bits of a program. Most of them are concluded by rules that carry, and for these no instance has to
//! be found. A search is left for the bits that other rules conclude.
ghost use Rattle.std.specs.Prelude.{ℕ, ◌≡◌, IfOk, length, vec_len};
ghost use Rattle.std.proofs.Props.{props};
ghost use Rattle.rh_carry.specs.Carry.{carried_rows, other_rows};
ghost use Rattle.rh_system.specs.Bits.{bits_in};
ghost use Rattle.rh_system.specs.Rows.{supports};
ghost use Rattle.rh_sparse.specs.Candidates.{has_row};
ghost use Rattle.rh_sparse.specs.Parts.{AreCarried, AreSearched, full_in, rows_in};

use crate::candidates::candidates;
use rh_carry::{carried_rulings, is_known_before, other_rulings};
use rh_list::Items;
use rh_rank::united;
use rh_rows::Ground;
use rh_rule::Ruling;
use rh_system::{BitTest, has};
use std::alloc::{AllocError, Global};

/// Which bits of a program are concluded by rules that carry, and which by other rules.
#[derive(Drop)]
pub(crate) struct Support<'g> {
    facts: &'g Ground,
    /// The rulings, with those rules refused that carry.
    others: Items<Ruling>,
    carried: Items<u64>,
    searched: Items<u64>,
    ghost are: { AreSearched facts.now others carried searched } by { Prim.hlevel props },
    ghost before: { AreCarried facts.now } by { Prim.hlevel props },
}

impl<'g> Support<'g> {
    /// Finds the bits.
    pub(crate) fn new(alloc: Global, ground: &'g Ground) -> Result<Support<'g>, AllocError>
        ensures { IfOk result (λ support. support.facts.now ≡ ground.now) }
    {
        let rules = ground.file().rules();
        let carrying = carried_rulings(alloc, rules, ground.rulings())?;
        let others = other_rulings(alloc, rules, ground.rulings())?;
        let carried = candidates(alloc, ground, carrying.as_slice())?;
        let searched = candidates(alloc, ground, others.as_slice())?;
        Ok(Support {
            facts: ground,
            others: Items::from(others),
            carried: Items::from(carried),
            searched: Items::from(searched),
        })
    }

    /// For each word of the system of the program the bits of it that have a row.
    pub(crate) fn candidates(&self, alloc: Global) -> Result<Vec<u64>, AllocError>
        ensures length { IfOk result (λ masks. vec_len masks ≡ length (full_in self.now.facts.now)) }
        ensures bits { IfOk result (λ masks. (bit : ℕ) → bits_in masks.items bit ≡ has_row (rows_in self.now.facts.now) bit) }
    {
        united(alloc, self.carried.as_slice(), self.searched.as_slice())
    }

    /// Whether a row by a rule that carries supports the bit.
    fn is_carried<T: BitTest>(&self, known: &T, bit: u64) -> bool
        ensures { result ≡ supports (carried_rows self.now.facts.now.file self.now.facts.now.rulings self.now.facts.now.program) (T.holds known.now) bit }
    {
        has(self.carried.as_slice(), bit) && is_known_before(self.facts, known, bit)
    }

    /// Whether a row by another rule does.
    fn is_found<T: BitTest>(&self, known: &T, bit: u64) -> bool
        ensures { result ≡ supports (other_rows self.now.facts.now.file self.now.facts.now.rulings self.now.facts.now.program) (T.holds known.now) bit }
    {
        has(self.searched.as_slice(), bit)
            && self
                .facts
                .supported_under(self.others.as_slice(), known, bit)
    }

    /// Whether some row of the bit has all of its premises in the set.
    pub(crate) fn is_supported<T: BitTest>(&self, known: &T, bit: u64) -> bool
        ensures { result ≡ supports (rows_in self.now.facts.now) (T.holds known.now) bit }
    {
        self.is_carried(known, bit) || self.is_found(known, bit)
    }
}
