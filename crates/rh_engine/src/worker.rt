//! A worker.
ghost use Rattle.std.specs.Prelude.{◌≡◌, ◌+◌, ◌<◌, ◌≤◌, length};
ghost use Rattle.rh_system.specs.Bits.{bit_count};
ghost use Rattle.rh_system.specs.Rows.{IsGreatest};
ghost use Rattle.rh_edge_words.specs.Seated.{dirty_words};
ghost use Rattle.rh_engine.specs.Turns.{more_loads, round_end, LoadsAtLeast};

use crate::hinted::take_hinted;
use crate::sweep::turn;
use rh_edge_words::{EdgeWords, SystemName, WordSeat};
use rh_outside::Gate;
use rh_system::{Hints, System};
use std::marker::Model;

/// One of several workers, with its seat. Contracts see it as the table of its seat, the seat's
/// view, the turns of its last run, its number, and the hint rounds of its last run.
#[derive(Drop)]
pub struct Worker<N: SystemName> {
    id: u32,
    workers: u32,
    seat: WordSeat<N>,
    turns: u64,
    hints: u64,
}

impl<N: SystemName> Model for Worker<N> {
    ghost use Rattle.std.specs.Prelude.{ℕ, ◌<◌, ◌≤◌};
    ghost use Rattle.atomic_table.specs.Seated.{TableId, table_id_coded};
    ghost use Rattle.rh_edge_words.specs.declared.view.View.{View};

    ghost Value = { TableId × View × ℕ × ℕ × ℕ };

    ghost view = { λ w. (w.seat.0, w.seat.1, w.turns, w.id, w.hints) };

    ghost invariant = { λ w. (w.id < w.workers) × (w.workers ≤ 16) };
}

impl<N: SystemName> Worker<N> {
    /// A worker that has not run. Its number is below the number of workers.
    pub fn new(id: u32, workers: u32, seat: WordSeat<N>) -> Worker<N>
        requires number { id < workers }
        requires few { workers ≤ 16 }
        ensures { result ≡ (seat.0, seat.1, 0, id, 0) }
    {
        Worker {
            id,
            workers,
            seat,
            turns: 0,
            hints: 0,
        }
    }

    /// Takes turns until one finds nothing to clear. Each turn loads every word once, beginning at
    /// the worker's share of the words, and then clears what the words that it saw do not support.
    /// Whatever other workers do, the words that the seat has seen are then the greatest supported
    /// set.
    pub fn run<S: System, G: Gate>(&mut self, words: &EdgeWords<S, N>, gate: &G)
        requires table { self.old.0 ≡ words.now.0 }
        ensures table { self.new.0 ≡ self.old.0 }
        ensures number { self.new.3 ≡ self.old.3 }
        ensures stake { self.new.1.stake ≡ self.old.1.stake }
        ensures greatest { IsGreatest N.meaning.rows self.new.1.seen }
        ensures loads { self.new.1.loads ≡ more_loads self.new.2 self.old.1.loads }
        ensures last { self.new.1.last ≡ round_end self.old.3 (length N.meaning.full) }
        ensures some { 0 < self.new.2 }
        ensures few { self.new.2 ≤ bit_count N.meaning.full + 1 }
        ensures hints { self.new.4 ≡ 0 }
    {
        self.turns = take_turns(words, &mut self.seat, self.id, gate);
        self.hints = 0;
    }

    /// Takes turns until one finds nothing to clear, as `run` does, but clears share by share, its
    /// own share of the words first, and ends a turn with the first share in which it cleared
    /// something. After such a turn it goes by hints: it looks again at the nodes that may have lost
    /// support, until there is nothing to clear at those. The hints save turns, and decide nothing:
    /// the last turn finds every word supported.
    pub fn run_hinted<S: Hints, G: Gate>(&mut self, words: &EdgeWords<S, N>, gate: &G)
        requires table { self.old.0 ≡ words.now.0 }
        requires dirty { words.now.0.words ≡ length N.meaning.full + dirty_words (S.node_count words.now.1) }
        ensures table { self.new.0 ≡ self.old.0 }
        ensures number { self.new.3 ≡ self.old.3 }
        ensures stake { self.new.1.stake ≡ self.old.1.stake }
        ensures greatest { IsGreatest N.meaning.rows self.new.1.seen }
        ensures loads { LoadsAtLeast self.new.2 self.old.1.loads self.new.1.loads }
        ensures some { 0 < self.new.2 }
        ensures few { self.new.2 ≤ bit_count N.meaning.full + 1 }
        ensures hints { self.new.4 ≤ bit_count N.meaning.full }
    {
        let run = take_hinted(words, &mut self.seat, self.id, self.workers, gate);
        self.turns = run.turns;
        self.hints = run.hints;
    }

    /// The turns of the last run, and 0 before the first.
    pub fn turns(&self) -> u64
        ensures { result ≡ self.now.2 }
    {
        self.turns
    }

    /// The hint rounds of the last run: 0 before the first, and 0 after `run`.
    pub fn hints(&self) -> u64
        ensures { result ≡ self.now.4 }
    {
        self.hints
    }

    /// The worker's seat.
    pub fn into_seat(self) -> WordSeat<N>
        ensures { result ≡ (self.0, self.1) }
    {
        let Worker {
            id: _,
            workers: _,
            seat,
            turns: _,
            hints: _,
        } = self;
        seat
    }
}

/// Takes turns until one clears nothing, and counts them.
fn take_turns<S: System, N: SystemName, G: Gate>(
    words: &EdgeWords<S, N>,
    seat: &mut WordSeat<N>,
    id: u32,
    gate: &G,
) -> u64
    requires table { seat.old.0 ≡ words.now.0 }
    requires id { id < 16 }
    ensures table { seat.new.0 ≡ seat.old.0 }
    ensures stake { seat.new.1.stake ≡ seat.old.1.stake }
    ensures greatest { IsGreatest N.meaning.rows seat.new.1.seen }
    ensures loads { seat.new.1.loads ≡ more_loads result seat.old.1.loads }
    ensures last { seat.new.1.last ≡ round_end id (length N.meaning.full) }
    ensures some { 0 < result }
    ensures few { result ≤ bit_count N.meaning.full + 1 }
{
    words.is_named();
    seat.is_seated();
    let mut turns = 1;
    while turn(words, seat, id, gate) {
        turns += 1;
    }
    seat.is_seated();
    turns
}
