//! The core itself.
ghost use Rattle.std.specs.Prelude.{◌≡◌, ◌↔◌, ◌<◌, ◌≤◌, ℕ, List, IfOk, IsTrue, length, slice_index};
ghost use Rattle.rh_core.specs.State.{CoreState, opening, worker_at, IsLive};
ghost use Rattle.rh_core.specs.declared.event.Event.{Event};
ghost use Rattle.rh_core.specs.Moves.{Move, MayClear};
ghost use Rattle.rh_core.specs.Events.{IsLawful, after, AreLawful, after_all};
ghost use Rattle.rh_core.specs.WordsLaw.{KeepsWords};

use crate::event::Event;
use crate::worker::CoreWorker;
use rh_system::{System, full_words, supported_part};
use std::alloc::{AllocError, Global};
use std::marker::Model;

/// Words of a system that workers clear, one event at a time. Contracts see it as the system and
/// the state of the words and workers.
#[derive(Drop)]
pub struct Core<'s, S: System> {
    system: &'s S,
    words: Vec<u64>,
    workers: Vec<CoreWorker>,
}

impl<'s, S: System> Model for Core<'s, S> {
    ghost use Rattle.std.specs.Prelude.{◌≡◌};
    ghost use Rattle.rh_core.specs.State.{CoreState};

    ghost Value = { S × CoreState };

    ghost use Rattle.rh_core.specs.WordsLaw.{IsCore};

    ghost view = { λ c. (c.system.now, record { words = c.words.items; workers = c.workers.items }) };

    ghost invariant = { λ c. IsCore (S.full_words c.system.now) (S.rows c.system.now) (record { words = c.words.items; workers = c.workers.items }) };
}

impl<'s, S: System> Core<'s, S> {
    /// Full words, which each of the workers has seen. No worker has a credit.
    pub fn new(alloc: Global, system: &'s S, workers: u32) -> Result<Core<'s, S>, AllocError>
        requires few { workers ≤ 16 }
        requires some { 0 < workers }
        ensures { IfOk result (λ core. core ≡ (system.now, opening (S.full_words system.now) workers)) }
    {
        let words = full_words(alloc, system)?;
        let mut all = Vec::with_capacity(alloc, workers as usize)?;
        for _ in 0..workers {
            all.push(CoreWorker::new(alloc, words.as_slice())?)?;
        }
        Ok(Core {
            system,
            words,
            workers: all,
        })
    }

    /// Whether the event can be made: its numbers are in range, and no bit that an `And` leaves out
    /// is supported by what the worker has seen.
    pub fn lawful(&self, event: Event) -> bool
        ensures { IsTrue result ↔ IsLawful (S.rows self.now.0) self.now.1 event }
    {
        match event {
            Event::Load { worker, word } => self.in_range(worker, word),
            Event::And { worker, word, mask } => {
                self.in_range(worker, word) && self.may_clear(worker, word, mask)
            }
        }
    }

    fn in_range(&self, worker: u32, word: u32) -> bool
        ensures { IsTrue result ↔ (IsLive self.now.1 worker × (word < length self.now.1.words)) }
    {
        (worker as usize) < self.workers.len() && (word as usize) < self.words.len()
    }

    fn may_clear(&self, worker: u32, word: u32, mask: u64) -> bool
        requires worker { IsLive self.now.1 worker }
        requires word { word < length self.now.1.words }
        ensures { IsTrue result ↔ MayClear (S.rows self.now.0) (worker_at self.now.1 worker).seen word mask }
    {
        let worker = &self.workers[worker as usize];
        none_supported(self.system, worker.seen(), word, mask)
    }

    /// Makes the event.
    pub fn apply(&mut self, event: Event)
        requires { IsLawful (S.rows self.old.0) self.old.1 event }
        ensures { self.new ≡ (self.old.0, after self.old.1 event) }
    {
        match event {
            Event::Load { worker, word } => {
                let found = self.words[word as usize];
                let worker = &mut self.workers[worker as usize];
                worker.see(word as usize, found);
            }
            Event::And { worker, word, mask } => {
                let found = self.words[word as usize];
                self.words[word as usize] = found & mask;
                let worker = &mut self.workers[worker as usize];
                worker.take(word as usize, found, mask);
            }
        }
    }

    /// The word.
    pub fn word(&self, word: u32) -> u64
        requires { word < length self.now.1.words }
        ensures { result ≡ slice_index self.now.1.words word }
    {
        self.words[word as usize]
    }

    /// The word as the worker saw it last.
    pub fn seen(&self, worker: u32, word: u32) -> u64
        requires worker { IsLive self.now.1 worker }
        requires word { word < length self.now.1.words }
        ensures { result ≡ slice_index (worker_at self.now.1 worker).seen word }
    {
        let worker = &self.workers[worker as usize];
        worker.seen()[word as usize]
    }

    /// The bits that the worker took from the word.
    pub fn credit(&self, worker: u32, word: u32) -> u64
        requires worker { IsLive self.now.1 worker }
        requires word { word < length self.now.1.words }
        ensures { result ≡ slice_index (worker_at self.now.1 worker).credits word }
    {
        let worker = &self.workers[worker as usize];
        worker.credits()[word as usize]
    }

    /// A law: the words law holds of each core.
    pub fn keeps_words(&self)
        ensures { KeepsWords (S.full_words self.now.0) (S.rows self.now.0) self.now.1 }
    {
        let _ = &self.words;
    }
}

/// Whether no bit of the seen word that the mask leaves out is supported by the seen words.
fn none_supported<S: System>(system: &S, seen: &[u64], word: u32, mask: u64) -> bool
    requires as_long { length seen.now ≡ length (S.full_words system.now) }
    requires in_range { word < length seen.now }
    ensures { IsTrue result ↔ MayClear (S.rows system.now) seen.now word mask }
{
    supported_part(system, seen, word) & !mask == 0
}

/// A law: the words law holds after every list of lawful events.
pub fn words_law<S: System>(_system: &S)
    ensures { (workers : ℕ) (events : List Event) → AreLawful (S.rows _system.now) (opening (S.full_words _system.now) workers) events → KeepsWords (S.full_words _system.now) (S.rows _system.now) (after_all (opening (S.full_words _system.now) workers) events) }
{}

/// A law: each of the four moves keeps the words law, from every state, and each lawful event is a
/// move.
pub fn moves_law<S: System>(_system: &S)
    ensures keeps { (s t : CoreState) → Move (S.rows _system.now) s t → KeepsWords (S.full_words _system.now) (S.rows _system.now) s → KeepsWords (S.full_words _system.now) (S.rows _system.now) t }
    ensures events { (s : CoreState) (event : Event) → IsLawful (S.rows _system.now) s event → Move (S.rows _system.now) s (after s event) }
{}
