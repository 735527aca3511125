//! A seat: what a thread needs to step on the words.
ghost use Rattle.std.specs.Prelude.{◌≡◌, length};
ghost use Rattle.rh_system.specs.Bits.{bit_count};
ghost use Rattle.rh_edge_words.specs.Seated.{IsSeated};

use crate::rule::SystemName;
use crate::view::View;
use atomic_table::Seat;
use std::marker::{Model, PhantomData};

/// A seat at a table of words, with a copy of all words as it saw them last, and a count of the
/// bits that it cleared. Contracts see it as the table that it is of and its view.
#[derive(Drop)]
pub struct WordSeat<N: SystemName> {
    pub(crate) seat: Seat<(), View>,
    pub(crate) copy: Vec<u64>,
    pub(crate) cleared: u64,
    pub(crate) stake: u32,
    pub(crate) name: PhantomData<N>,
}

impl<N: SystemName> Model for WordSeat<N> {
    ghost use Rattle.atomic_table.specs.Seated.{TableId, table_id_coded};
    ghost use Rattle.rh_edge_words.specs.declared.view.View.{View};

    ghost Value = { TableId × View };

    ghost use Rattle.rh_edge_words.specs.Seated.{IsSeat};

    ghost view = { λ s. (s.seat.table_id, s.seat.me.0) };

    ghost invariant = { λ s. IsSeat N.meaning s.seat.me.0 s.seat.me.1 s.copy.items s.cleared s.stake };
}

impl<N: SystemName> WordSeat<N> {
    /// All words as the seat saw them last.
    pub fn seen(&self) -> &[u64]
        ensures value { result.now ≡ self.now.1.seen }
        ensures as_long { length result.now ≡ length N.meaning.full }
    {
        self.copy.as_slice()
    }

    /// How many bits the seat cleared, with those of all seats that it joined.
    pub fn cleared(&self) -> u64
        ensures { result ≡ bit_count self.now.1.credits }
    {
        self.cleared
    }

    /// How much of the stake the seat has: 16 where it is the only one that is not spent.
    pub fn stake(&self) -> u32
        ensures { result ≡ self.now.1.stake }
    {
        self.stake
    }

    /// A law: what holds of the view of each seat.
    pub fn is_seated(&self)
        ensures { IsSeated N.meaning self.now.1 }
    {
        let _ = &self.copy;
    }
}
