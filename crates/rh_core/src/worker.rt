//! One worker of the pure core.
ghost use Rattle.std.specs.Prelude.{◌≡◌, ◌<◌, IfOk, length, slice_index};
ghost use Rattle.rh_core.specs.State.{newcomer};
ghost use Rattle.rh_core.specs.Moves.{saw, took};

use std::alloc::{AllocError, Global};
use std::marker::Model;

/// The words as the worker saw them last, and the bits of each word that it took.
#[derive(Drop)]
pub(crate) struct CoreWorker {
    seen: Vec<u64>,
    credits: Vec<u64>,
}

impl Model for CoreWorker {
    ghost use Rattle.rh_core.specs.State.{WorkerState};

    ghost Value = { WorkerState };

    ghost use Rattle.std.specs.Prelude.{true};

    ghost view = { λ w. record { live = true; seen = w.seen.items; credits = w.credits.items } };
}

impl CoreWorker {
    /// A worker that has seen these words and taken nothing.
    pub(crate) fn new(alloc: Global, words: &[u64]) -> Result<CoreWorker, AllocError>
        ensures { IfOk result (λ worker. worker ≡ newcomer words.now) }
    {
        let seen = Vec::from_slice(alloc, words)?;
        let credits = vec![in alloc; 0; words.len()]?;
        Ok(CoreWorker { seen, credits })
    }

    pub(crate) fn seen(&self) -> &[u64]
        ensures { result.now ≡ self.now.seen }
    {
        self.seen.as_slice()
    }

    pub(crate) fn credits(&self) -> &[u64]
        ensures { result.now ≡ self.now.credits }
    {
        self.credits.as_slice()
    }

    /// It has seen the word.
    pub(crate) fn see(&mut self, word: usize, value: u64)
        requires { word < length self.old.seen }
        ensures { self.new ≡ saw self.old word value }
    {
        self.seen[word] = value;
    }

    /// It has cleared what the mask leaves out of the word that it found.
    pub(crate) fn take(&mut self, word: usize, found: u64, mask: u64)
        requires seen { word < length self.old.seen }
        requires credits { word < length self.old.credits }
        ensures { self.new ≡ took self.old word found mask }
    {
        self.seen[word] = found & mask;
        self.credits[word] |= found & !mask;
    }
}
