//! The words that threads share.
ghost use Rattle.std.specs.Prelude.{◌≡◌, ◌+◌, ◌<◌, ◌≤◌, ◌^◌, ◌++◌, ℕ, List, IfOk, OnErr, length, replicate, slice_index};
ghost use Rattle.rh_system.specs.Bits.{IsSubword, bit_count};
ghost use Rattle.rh_system.specs.Rows.{HoldsGreatest, IsGreatest};
ghost use Rattle.rh_core.specs.Moves.{MayClear};
ghost use Rattle.rh_edge_words.specs.Seated.{IsNameOf, SplitsView, JoinsView, ArePartsOf, dirty_words};
ghost use Rattle.rh_edge_words.specs.Steps.{view_at, StepsAreMoves};
ghost use Rattle.rh_edge_words.specs.declared.view.View.{View};
ghost use Rattle.rh_edge_words.specs.Views.{first_view, after_look, after_load, after_clear, poorer, new_view};

use crate::rule::{Clearing, Halves, Loading, Looking, Marking, SystemName, Unites, WordsRule};
use crate::seat::WordSeat;
use crate::view::View;
use atomic_table::Table;
use rh_system::{Hints, System, full_words};
use std::alloc::{AllocError, Global};
use std::marker::{Model, PhantomData};

/// A law: what a slice of words holds fits a word.
fn all_fit(words: &[u64])
    ensures { (k : ℕ) → slice_index words.now k < 2 ^ 64 }
{}

/// The words, and so many more that are 0.
fn with_zeros(alloc: Global, words: &[u64], more: u32) -> Result<Vec<u64>, AllocError>
    ensures { IfOk result (λ all. all.items ≡ words.now ++ replicate more 0) }
{
    let len = words.len() + more as usize;
    let mut all = Vec::with_capacity(alloc, len)?;
    all.extend_from_slice(words)?;
    all.resize(len, 0)?;
    Ok(all)
}

/// The words of a system in a table that threads share, and after them dirty words, in which seats
/// note for each other which nodes of the system to look at again. Node `v` has the bit `v % 64` of
/// dirty word `v / 64`. Contracts see it as the table and the system.
#[derive(Drop)]
pub struct EdgeWords<'s, S: System, N: SystemName> {
    system: &'s S,
    table: Table<(), View, (), WordsRule<N>, Global>,
    dirty: u32,
}

impl<'s, S: System, N: SystemName> Model for EdgeWords<'s, S, N> {
    ghost use Rattle.std.specs.Prelude.{◌≡◌};
    ghost use Rattle.atomic_table.specs.Seated.{TableId, table_id_coded};

    ghost Value = { TableId × S };

    ghost use Rattle.rh_edge_words.specs.Seated.{IsTableOf};

    ghost view = { λ t. (t.table.shared.table_id, t.system.now) };

    ghost invariant = { λ t. IsTableOf N.meaning t.table.shared.table_id.words t.table.shared.table_id.slots t.dirty (S.full_words t.system.now) × (N.meaning.rows ≡ S.rows t.system.now) };
}

impl<'s, S: System, N: SystemName> EdgeWords<'s, S, N> {
    /// A table with the full words and no dirty words, and its one seat, which has seen them.
    pub fn new(
        alloc: Global,
        system: &'s S,
    ) -> Result<(EdgeWords<'s, S, N>, WordSeat<N>), AllocError>
        requires full { N.meaning.full ≡ S.full_words system.now }
        requires rows { N.meaning.rows ≡ S.rows system.now }
        requires some { 0 < length (S.full_words system.now) }
        ensures made { IfOk result (λ made. (made.0.1 ≡ system.now) × (made.1.0 ≡ made.0.0) × (made.1.1 ≡ first_view N.meaning.full)) }
        ensures none_dirty { IfOk result (λ made. made.0.0.words ≡ length N.meaning.full) }
    {
        EdgeWords::with_dirty(alloc, system, 0)
    }

    /// The table with so many dirty words, all 0.
    fn with_dirty(
        alloc: Global,
        system: &'s S,
        dirty: u32,
    ) -> Result<(EdgeWords<'s, S, N>, WordSeat<N>), AllocError>
        requires full { N.meaning.full ≡ S.full_words system.now }
        requires rows { N.meaning.rows ≡ S.rows system.now }
        requires some { 0 < length (S.full_words system.now) }
        ensures made { IfOk result (λ made. (made.0.1 ≡ system.now) × (made.1.0 ≡ made.0.0) × (made.1.1 ≡ first_view N.meaning.full)) }
        ensures dirty { IfOk result (λ made. made.0.0.words ≡ length N.meaning.full + dirty) }
    {
        // so that their number fits a u32
        let _few = system.words();
        let copy = full_words(alloc, system)?;
        all_fit(copy.as_slice());
        let words = with_zeros(alloc, copy.as_slice(), dirty)?;
        let (table, seat) = Table::of_words(alloc, words.as_slice(), &())?;
        let table = EdgeWords {
            system,
            table,
            dirty,
        };
        let seat = WordSeat {
            seat,
            copy,
            cleared: 0,
            stake: 16,
            name: PhantomData,
        };
        Ok((table, seat))
    }

    /// The system.
    pub fn system(&self) -> &S
        ensures { result.now ≡ self.now.1 }
    {
        self.system
    }

    /// How many words there are.
    pub fn count(&self) -> u32
        ensures { result ≡ length N.meaning.full }
    {
        self.system.words()
    }

    /// How many dirty words there are: none after `new`.
    pub fn dirty(&self) -> u32
        ensures { length N.meaning.full + result ≡ self.now.0.words }
    {
        self.dirty
    }

    /// A law: the name is one of the system.
    pub fn is_named(&self)
        ensures { IsNameOf N.meaning (S.full_words self.now.1) (S.rows self.now.1) }
    {
        let _ = &self.table;
    }

    /// A law: each step of a seat that is not spent is a move of the core or leaves the core as it
    /// is, whatever the words of the table and the views of all seats are.
    pub fn steps_are_moves(&self)
        ensures { (words : List ℕ) (views : List View) (id : ℕ) → 0 < (view_at views id).stake → StepsAreMoves N.meaning.rows N.meaning.full words views id }
    {
        let _ = &self.table;
    }

    /// Loads a word.
    pub fn load(&self, seat: &mut WordSeat<N>, word: u32) -> u64
        requires table { seat.old.0 ≡ self.now.0 }
        requires in_range { word < length N.meaning.full }
        ensures table { seat.new.0 ≡ seat.old.0 }
        ensures view { seat.new.1 ≡ after_load seat.old.1 word result }
        ensures within { IsSubword result (slice_index seat.old.1.seen word) }
        ensures greatest { HoldsGreatest N.meaning.rows seat.new.1.seen }
    {
        let found = self
            .table
            .shared
            .load::<Loading<N>>(&mut seat.seat, word as usize);
        seat.copy[word as usize] = found;
        found
    }

    /// Clears the bits of a word that the mask leaves out, and answers the word as it was.
    pub fn clear(&self, seat: &mut WordSeat<N>, word: u32, mask: u64) -> u64
        requires table { seat.old.0 ≡ self.now.0 }
        requires in_range { word < length N.meaning.full }
        requires lawful { MayClear N.meaning.rows seat.old.1.seen word mask }
        ensures table { seat.new.0 ≡ seat.old.0 }
        ensures view { seat.new.1 ≡ after_clear seat.old.1 word mask result }
        ensures within { IsSubword result (slice_index seat.old.1.seen word) }
        ensures greatest { HoldsGreatest N.meaning.rows seat.new.1.seen }
    {
        let found = self
            .table
            .shared
            .fetch_and::<Clearing<N>>(&mut seat.seat, word as usize, mask);
        seat.cleared += u64::from((found & !mask).count_ones());
        seat.copy[word as usize] = found & mask;
        found
    }

    /// The place of a dirty word in the table.
    fn place_of_dirty(&self, dirty: u32) -> usize
        ensures { result ≡ length N.meaning.full + dirty }
    {
        self.count() as usize + dirty as usize
    }

    /// Sets bits of a dirty word.
    pub fn mark(&self, seat: &mut WordSeat<N>, dirty: u32, mask: u64)
        requires table { seat.old.0 ≡ self.now.0 }
        requires in_range { length N.meaning.full + dirty < self.now.0.words }
        ensures { seat.new ≡ seat.old }
    {
        let place = self.place_of_dirty(dirty);
        self.table
            .shared
            .fetch_or::<Marking>(&mut seat.seat, place, mask);
    }

    /// Takes all bits of a dirty word, which is 0 then, and answers the word as it was.
    pub fn take(&self, seat: &mut WordSeat<N>, dirty: u32) -> u64
        requires table { seat.old.0 ≡ self.now.0 }
        requires in_range { length N.meaning.full + dirty < self.now.0.words }
        ensures { seat.new ≡ seat.old }
    {
        let place = self.place_of_dirty(dirty);
        self.table.shared.swap::<Marking>(&mut seat.seat, place, 0)
    }

    /// Looks at word 0, which is no load.
    fn look_first(&self, seat: &mut WordSeat<N>) -> u64
        requires table { seat.old.0 ≡ self.now.0 }
        ensures table { seat.new.0 ≡ seat.old.0 }
        ensures view { seat.new.1 ≡ after_look seat.old.1 0 result }
        ensures within { IsSubword result (slice_index seat.old.1.seen 0) }
        ensures greatest { HoldsGreatest N.meaning.rows seat.new.1.seen }
        ensures some { 0 < length seat.old.1.seen }
    {
        let first = self.table.shared.load::<Looking<N>>(&mut seat.seat, 0);
        seat.copy[0] = first;
        first
    }

    /// Makes a second seat, with one of the stake and the same words seen. The memory for its copy
    /// is taken before any step, and one look is made at word 0 before the view is cut in two.
    pub fn split(&self, alloc: Global, seat: &mut WordSeat<N>) -> Result<WordSeat<N>, AllocError>
        requires table { seat.old.0 ≡ self.now.0 }
        requires stake { 2 ≤ seat.old.1.stake }
        ensures table { seat.new.0 ≡ seat.old.0 }
        ensures ok { IfOk result (λ new. (new.0 ≡ seat.old.0) × SplitsView seat.old.1 seat.new.1 new.1) }
        ensures greatest { HoldsGreatest N.meaning.rows seat.new.1.seen }
        ensures new_greatest { IfOk result (λ new. HoldsGreatest N.meaning.rows new.1.seen) }
        ensures err { OnErr result (seat.new ≡ seat.old) }
    {
        let mut copy = Vec::from_slice(alloc, seat.copy.as_slice())?;
        let found = self.look_first(seat);
        copy[0] = found;
        Ok(self.divide(seat, copy))
    }

    fn divide(&self, seat: &mut WordSeat<N>, copy: Vec<u64>) -> WordSeat<N>
        requires table { seat.old.0 ≡ self.now.0 }
        requires stake { 2 ≤ seat.old.1.stake }
        requires copy { copy.items ≡ seat.old.1.seen }
        ensures old { seat.new ≡ (seat.old.0, poorer seat.old.1) }
        ensures new { result ≡ (seat.old.0, new_view seat.old.1) }
    {
        let part = self.table.shared.split_seat::<Halves>(&mut seat.seat);
        seat.stake -= 1;
        WordSeat {
            seat: part,
            copy,
            cleared: 0,
            stake: 1,
            name: PhantomData,
        }
    }

    /// Takes in another seat: credits, counts, stakes and loads add up. Then one look is made at
    /// word 0.
    pub fn join(&self, seat: &mut WordSeat<N>, other: WordSeat<N>)
        requires table { seat.old.0 ≡ self.now.0 }
        requires other_table { other.0 ≡ self.now.0 }
        ensures table { seat.new.0 ≡ seat.old.0 }
        ensures joined { JoinsView seat.old.1 other.1 seat.new.1 }
        ensures greatest { HoldsGreatest N.meaning.rows seat.new.1.seen }
    {
        let WordSeat {
            seat: part,
            copy: _,
            cleared,
            stake,
            name: _,
        } = other;
        self.table.shared.join_seat::<Unites>(&mut seat.seat, part);
        let found = self.table.shared.load::<Looking<N>>(&mut seat.seat, 0);
        seat.copy[0] = found;
        seat.cleared += cleared;
        seat.stake += stake;
    }

    /// Ends the table, and hands out the words as the seat saw them last. Where these are the
    /// greatest supported set, each other full bit stands in the seat's credits.
    pub fn close(self, seat: WordSeat<N>) -> Vec<u64>
        requires table { seat.0 ≡ self.0 }
        requires stake { seat.1.stake ≡ 16 }
        ensures copy { result.items ≡ seat.1.seen }
        ensures credits { IsGreatest N.meaning.rows result.items → ArePartsOf seat.1.credits result.items N.meaning.full }
        ensures count { IsGreatest N.meaning.rows result.items → bit_count seat.1.credits + bit_count result.items ≡ bit_count N.meaning.full }
    {
        let EdgeWords {
            system: _,
            table,
            dirty: _,
        } = self;
        let WordSeat {
            seat: last,
            copy,
            cleared: _,
            stake: _,
            name: _,
        } = seat;
        all_fit(copy.as_slice());
        let closed = table.close_with(last);
        closed.free();
        copy
    }
}

impl<'s, S: Hints, N: SystemName> EdgeWords<'s, S, N> {
    /// As `new`, with a dirty word for each 64 nodes, all 0.
    pub fn new_hinted(
        alloc: Global,
        system: &'s S,
    ) -> Result<(EdgeWords<'s, S, N>, WordSeat<N>), AllocError>
        requires full { N.meaning.full ≡ S.full_words system.now }
        requires rows { N.meaning.rows ≡ S.rows system.now }
        requires some { 0 < length (S.full_words system.now) }
        ensures made { IfOk result (λ made. (made.0.1 ≡ system.now) × (made.1.0 ≡ made.0.0) × (made.1.1 ≡ first_view N.meaning.full)) }
        ensures dirty { IfOk result (λ made. made.0.0.words ≡ length (S.full_words system.now) + dirty_words (S.node_count system.now)) }
    {
        EdgeWords::with_dirty(alloc, system, system.nodes().div_ceil(64))
    }
}
