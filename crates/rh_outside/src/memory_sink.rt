//! A sink in memory.
ghost use Rattle.std.specs.Prelude.{ℕ, ◌≡◌, ◌<◌, ◌≤◌, ◌+◌, ◌-◌, ◌++◌, ◌↔◌, [], min, List, Some, length, take, Contains, IfOk, IsErr, IsOk, OnErr, OnOk, is_err, if◌then◌else◌};
ghost use Rattle.rh_outside.specs.Faults.{Rises, count_after, next_count};
ghost use Rattle.rh_outside.specs.Writing.{appended, is_write_fault};

use crate::shelf::Failed;
use crate::sink::Sink;
use std::alloc::{AllocError, Global};
use std::marker::Model;

/// Output in memory, with room for so many bytes. The calls with certain numbers fail, where the
/// first call has the number 1.
#[derive(Drop)]
pub struct MemSink {
    written: Vec<u8>,
    room: usize,
    piece: usize,
    fails: Vec<u64>,
    calls: u64,
    faults: u64,
}

impl Model for MemSink {
    ghost use Rattle.std.specs.Prelude.{◌≤◌, vec_len, vec_capacity};
    ghost use Rattle.rh_outside.specs.MemorySink.{SinkState};

    ghost Value = { SinkState };

    ghost view = { λ s. record { written = s.written.items; room = s.room; piece = s.piece; fails = s.fails.items; calls = s.calls; faults = s.faults } };

    ghost invariant = { λ s. (vec_len s.written ≤ s.room) × (s.room ≤ vec_capacity s.written) };
}

impl MemSink {
    /// A sink with room for so many bytes, of which one call takes at most `piece`, and at which the
    /// calls with these numbers fail. The room is taken at once.
    pub fn new(alloc: Global, room: u32, piece: u32, fails: Vec<u64>) -> Result<MemSink, AllocError>
        ensures { IfOk result (λ sink. sink ≡ record { written = []; room = room; piece = piece; fails = fails.items; calls = 0; faults = 0 }) }
    {
        Ok(MemSink {
            written: Vec::with_capacity(alloc, room as usize)?,
            room: room as usize,
            piece: piece as usize,
            fails,
            calls: 0,
            faults: 0,
        })
    }

    /// What was written.
    pub fn bytes(&self) -> &[u8]
        ensures { result.now ≡ self.now.written }
    {
        &self.written
    }
}

impl Sink for MemSink {
    ghost written = { λ s. Some s.written };

    ghost faults = { λ s. s.faults };

    fn write(&mut self, piece: &[u8]) -> Result<usize, Failed>
        ensures failed { OnErr result (Rises self.old.faults self.new.faults) }
        ensures failed_unchanged { OnErr result (Some self.new.written ≡ Some self.old.written) }
        ensures never_falls { self.old.faults ≤ self.new.faults }
        ensures within { IfOk result (λ count. count ≤ length piece.now) }
        ensures appends { IfOk result (λ count. Some self.new.written ≡ appended (Some self.old.written) (take count piece.now)) }
        ensures took_none { IfOk result (λ count. count ≡ 0 → 0 < length piece.now → Rises self.old.faults self.new.faults) }

        // It fails exactly at the numbers that it was given, and takes what room and its greatest
        // piece let it.
        ensures fails { IsErr result ↔ Contains self.old.fails (next_count self.old.calls) }
        ensures takes { IfOk result (λ count. count ≡ min (min (length piece.now) self.old.piece) (self.old.room - length self.old.written)) }
        ensures stays { (self.new.room ≡ self.old.room) × (self.new.piece ≡ self.old.piece) × (self.new.fails ≡ self.old.fails) }
        ensures called { self.new.calls ≡ next_count self.old.calls }
        ensures counted { self.new.faults ≡ count_after (is_write_fault piece.now result) self.old.faults }
    {
        self.calls = self.calls.saturating_add(1);
        if self.fails.contains(&self.calls) {
            self.faults = self.faults.saturating_add(1);
            return Err(Failed);
        }
        let room = self.room - self.written.len();
        let count = piece.len().min(self.piece).min(room);
        if count == 0 && !piece.is_empty() {
            self.faults = self.faults.saturating_add(1);
        }
        self.written.extend_from_slice(&piece[..count]).unwrap();
        Ok(count)
    }
}
