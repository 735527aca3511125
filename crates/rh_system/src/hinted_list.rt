//! A listed system that gives hints.
ghost use Rattle.std.specs.Prelude.{◌≡◌, ◌<◌, IfOk, length};
ghost use Rattle.std.specs.List.{All};

use crate::hints::Hints;
use crate::listed::ListedSystem;
use crate::system::{Row, System};
use rh_list::Items;
use std::alloc::{AllocError, Global};

/// What a word's bits rest on, and what rests on them.
#[derive(Drop)]
struct Links {
    readers: Items<u32>,
    entering: Items<u32>,
}

/// A listed system whose nodes are its words. It finds the readers of each word when it is made,
/// from all rows for each pair of words, so it is for small systems.
#[derive(Drop)]
pub struct HintedList {
    system: ListedSystem,
    links: Items<Links>,
    ghost linked: { length links ≡ length system.full },
    ghost readers: { All (λ link. All (λ word. word < length system.full) link.readers) links },
    ghost entering: { All (λ link. All (λ word. word < length system.full) link.entering) links },
}

impl HintedList {
    /// The system, with hints.
    pub fn new(alloc: Global, system: ListedSystem) -> Result<HintedList, AllocError>
        ensures { IfOk result (λ hinted. hinted.system ≡ system) }
    {
        let links = links_of_words(alloc, &system)?;
        Ok(HintedList { system, links })
    }
}

/// Whether a row of the one word has a premise in the other.
fn rests_on(rows: &[Row], word: u32, other: u32) -> bool {
    rows.iter().any(|row| {
        row.bit / 64 == u64::from(word)
            && row
                .premises
                .as_slice()
                .iter()
                .any(|premise| premise / 64 == u64::from(other))
    })
}

/// The words that have a row with a premise in this one.
fn readers_of(alloc: Global, system: &ListedSystem, word: u32) -> Result<Items<u32>, AllocError>
    ensures { IfOk result (λ words. All (λ word. word < length system.now.full) words) }
{
    let mut words = Items::new(alloc);
    for other in 0..system.words() {
        if rests_on(system.rows.as_slice(), other, word) {
            words.push(other)?;
        }
    }
    Ok(words)
}

/// The words of the premises of this one's rows.
fn entering_of(alloc: Global, system: &ListedSystem, word: u32) -> Result<Items<u32>, AllocError>
    ensures { IfOk result (λ words. All (λ word. word < length system.now.full) words) }
{
    let mut words = Items::new(alloc);
    for other in 0..system.words() {
        if rests_on(system.rows.as_slice(), word, other) {
            words.push(other)?;
        }
    }
    Ok(words)
}

/// The links of each word.
fn links_of_words(alloc: Global, system: &ListedSystem) -> Result<Items<Links>, AllocError>
    ensures linked { IfOk result (λ links. length links ≡ length system.now.full) }
    ensures readers { IfOk result (λ links. All (λ link. All (λ word. word < length system.now.full) link.readers) links) }
    ensures entering { IfOk result (λ links. All (λ link. All (λ word. word < length system.now.full) link.entering) links) }
{
    let mut links = Items::new(alloc);
    for word in 0..system.words() {
        links.push(Links {
            readers: readers_of(alloc, system, word)?,
            entering: entering_of(alloc, system, word)?,
        })?;
    }
    Ok(links)
}

impl System for HintedList {
    ghost full_words = { λ s. s.system.full };

    ghost rows = { λ s. s.system.rows };

    fn words(&self) -> u32 {
        self.system.words()
    }

    fn full(&self, word: u32) -> u64 {
        self.system.full(word)
    }

    fn supported(&self, words: &[u64], bit: u64) -> bool {
        self.system.supported(words, bit)
    }

    ghost use Rattle.rh_system.specs.Covered.{covered_by_all};

    ghost covered = { λ s. covered_by_all s.system.full s.system.rows s.system.covered };
}

impl Hints for HintedList {
    ghost use Rattle.std.specs.Prelude.{length};

    ghost node_count = { λ s. length s.system.full };

    fn nodes(&self) -> u32 {
        self.system.words()
    }

    fn readers(&self, word: u32) -> &[u32] {
        self.links.as_slice()[word as usize].readers.as_slice()
    }

    fn entering(&self, node: u32) -> &[u32] {
        self.links.as_slice()[node as usize].entering.as_slice()
    }

    fn leaving(&self, node: u32) -> (u32, u32) {
        (node, node + 1)
    }
}
