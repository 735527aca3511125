//! A system that is given by its words and rows.
ghost use Rattle.std.specs.Prelude.{◌≡◌, ◌↔◌, ◌==◌, ◌&&◌, ◌<◌, ◌^◌, true, IsTrue, IsSome, IfSome, length};
ghost use Rattle.std.specs.List.{list_all};
ghost use Rattle.rh_system.specs.Bits.{bits_in};
ghost use Rattle.rh_system.specs.Rows.{supports};

use crate::bits::{has, has_all};
use crate::system::{Row, System};
use rh_list::Items;

/// A system that is given by its words and rows. It looks through all rows for each bit, so it is
/// for small systems.
#[derive(Drop)]
pub struct ListedSystem {
    /// The full words.
    pub full: Items<u64>,
    /// The rows, in any order.
    pub rows: Items<Row>,
    ghost few: { length full < 2 ^ 32 },
    ghost covered: { list_all (λ row. bits_in full row.bit) rows ≡ true },
}

impl ListedSystem {
    /// None where there are 2^32 words or more, or where a row's bit is not in the full words.
    pub fn new(full: Items<u64>, rows: Items<Row>) -> Option<ListedSystem>
        ensures accepted { IsSome result ↔ ((length full < 2 ^ 32) × IsTrue (list_all (λ row. bits_in full row.bit) rows)) }
        ensures value { IfSome result (λ s. (s.full ≡ full) × (s.rows ≡ rows)) }
    {
        if full.len() < 1 << 32 && covers(full.as_slice(), rows.as_slice()) {
            Some(ListedSystem { full, rows })
        } else {
            None
        }
    }
}

/// Whether the bit of each row is in the full words.
fn covers(full: &[u64], rows: &[Row]) -> bool
    ensures { result ≡ list_all (λ row. bits_in full.now row.bit) rows.now }
{
    rows.iter().all(|row| has(full, row.bit))
}

/// Whether the row is one of the bit and has all of its premises in the words.
fn is_within(row: &Row, words: &[u64], bit: u64) -> bool
    ensures { result ≡ ((row.now.bit == bit) && list_all (bits_in words.now) row.now.premises) }
{
    row.bit == bit && has_all(words, row.premises.as_slice())
}

#[tactic(auto, unfolding(crate::specs::Rows::supports))]
fn any_within(rows: &[Row], words: &[u64], bit: u64) -> bool
    ensures { result ≡ supports rows.now (bits_in words.now) bit }
{
    rows.iter().any(|row| is_within(row, words, bit))
}

impl System for ListedSystem {
    ghost full_words = { λ s. s.full };

    ghost rows = { λ s. s.rows };

    fn words(&self) -> u32 {
        self.full.len() as u32
    }

    fn full(&self, word: u32) -> u64 {
        self.full.as_slice()[word as usize]
    }

    fn supported(&self, words: &[u64], bit: u64) -> bool {
        any_within(self.rows.as_slice(), words, bit)
    }

    ghost use Rattle.rh_system.specs.Covered.{covered_by_all};

    ghost covered = { λ s. covered_by_all s.full s.rows s.covered };
}
