//! Which nodes of a program read which sparse words. The nodes of all procedures are numbered in order, the entry of a
//! procedure before its statements. The answers are hints, and nothing is claimed of them but that their numbers are in
//! range.
ghost use Rattle.std.specs.Prelude.{ℕ, ◌≡◌, ◌+◌, ◌*◌, ◌^◌, ◌<◌, ◌≤◌, IfOk, OnOk, length, map, replicate};
ghost use Rattle.std.specs.List.{All};
ghost use Rattle.std.proofs.Props.{props};
ghost use Rattle.rh_sparse.specs.Flow.{HasFewNodes, IsRange};
ghost use Rattle.rh_sparse.specs.Lists.{ArePairs};

use crate::lists::Lists;
use rh_il::Node;
use rh_layout::LaidProc;
use rh_list::Items;
use rh_rows::Ground;
use std::alloc::{AllocError, AllocFailed, Global};

/// For each node the sparse words with candidates on the edges that enter it and on those that leave it, and for each
/// sparse word the nodes that read it: those that are entered by an edge with a candidate in the word.
#[derive(Drop)]
pub(crate) struct Flow {
    entering: Lists,
    readers: Lists,
    leaving: Items<(u32, u32)>,
    ghost ranges: { All (IsRange entering.bound) leaving } by { Prim.hlevel props },
}

impl Flow {
    /// The flow of a program, by the counts of the candidates before each ground word and the number of sparse words.
    /// It takes one step for each node, each sparse word, and each sparse word of an edge.
    pub(crate) fn new(
        alloc: Global,
        ground: &Ground,
        before: &[u32],
        words: u32,
    ) -> Result<Flow, AllocError>
        requires { All (λ count. count ≤ 64 * words) before.now }
        ensures { IfOk result (λ flow. flow.entering.bound ≡ words) }
    {
        let counts = Counts { before, words };
        let mut pairs = Vec::new(alloc);
        let mut leaving = Vec::new(alloc);
        let mut nodes: u32 = 0;
        for laid in procs_of(ground) {
            counts.push_reads(&mut pairs, laid, nodes)?;
            leaving.extend_from_slice(counts.leaving(alloc, laid)?.as_slice())?;
            nodes += node_count(laid);
        }
        let turned = turned(alloc, pairs.as_slice())?;
        Ok(Flow {
            entering: Lists::of(alloc, pairs.as_slice(), nodes, words)?,
            readers: Lists::of(alloc, turned.as_slice(), words, nodes)?,
            leaving: Items::from(leaving),
        })
    }

    /// How many nodes there are.
    pub(crate) fn nodes(&self) -> u32
        ensures { result ≡ self.now.readers.bound }
    {
        self.readers.bound()
    }

    /// The nodes that are entered by an edge with a candidate in the word, rising.
    pub(crate) fn readers(&self, word: u32) -> &[u32]
        ensures { All (λ node. node < self.now.readers.bound) result.now }
    {
        self.readers.list(word)
    }

    /// The words with a candidate on an edge that enters the node, rising. No edge enters an entry.
    pub(crate) fn entering(&self, node: u32) -> &[u32]
        ensures { All (λ word. word < self.now.entering.bound) result.now }
    {
        self.entering.list(node)
    }

    /// The words with a candidate on an edge of the node, from the first number up to the second. It is (0, 0) where
    /// there is none.
    pub(crate) fn leaving(&self, node: u32) -> (u32, u32)
        ensures { IsRange self.now.entering.bound result }
    {
        match self.leaving.as_slice().get(node as usize) {
            Some(range) => *range,
            None => (0, 0),
        }
    }
}

/// The counts of the candidates before each ground word, and the number of the sparse words that hold them.
#[derive(Clone, Copy)]
struct Counts<'a> {
    before: &'a [u32],
    words: u32,
    ghost held: { All (λ count. count ≤ 64 * words) before.now } by { Prim.hlevel props },
}

impl Counts<'_> {
    /// Adds for each statement of a procedure the pairs of its node and the words that it reads. `entry` is the node of
    /// the procedure's entry.
    fn push_reads(
        &self,
        pairs: &mut Vec<(u32, u32)>,
        laid: &LaidProc,
        entry: u32,
    ) -> Result<(), AllocFailed<(u32, u32)>>
        requires few { entry + 1 + length laid.now.entering < 2 ^ 32 }
        requires pairs { ArePairs entry self.now.words pairs.old.items }
        ensures { OnOk result (ArePairs (entry + 1 + length laid.now.entering) self.now.words pairs.new.items) }
    {
        for (number, edges) in laid.entering.as_slice().iter().enumerate() {
            let node = entry + 1 + number as u32;
            self.push_node(pairs, laid, node, edges.as_slice())?;
        }
        Ok(())
    }

    /// Adds the pairs of a node and the words on the edges that enter it. The edges rise, so a word that several of them
    /// share is added once.
    fn push_node(
        &self,
        pairs: &mut Vec<(u32, u32)>,
        laid: &LaidProc,
        node: u32,
        edges: &[u32],
    ) -> Result<(), AllocFailed<(u32, u32)>>
        requires { ArePairs node self.now.words pairs.old.items }
        ensures { OnOk result (ArePairs (node + 1) self.now.words pairs.new.items) }
    {
        let mut next = 0;
        for edge in edges {
            let (first, end) = self.words_on(laid, *edge);
            self.push_words(pairs, node, first.max(next), end)?;
            next = next.max(end);
        }
        Ok(())
    }

    /// Adds the pairs of a node and the words of a range.
    fn push_words(
        &self,
        pairs: &mut Vec<(u32, u32)>,
        node: u32,
        first: u32,
        end: u32,
    ) -> Result<(), AllocFailed<(u32, u32)>>
        requires end { end ≤ self.now.words }
        requires pairs { ArePairs (node + 1) self.now.words pairs.old.items }
        ensures { OnOk result (ArePairs (node + 1) self.now.words pairs.new.items) }
    {
        for word in first..end {
            pairs.push((node, word))?;
        }
        Ok(())
    }

    /// For each node of a procedure the range of the words with a candidate on an edge that leaves it.
    fn leaving(&self, alloc: Global, laid: &LaidProc) -> Result<Vec<(u32, u32)>, AllocError>
        requires { HasFewNodes laid.now }
        ensures { IfOk result (λ ranges. All (IsRange self.now.words) ranges.items) }
    {
        let mut ranges = empty_ranges(alloc, node_count(laid))?;
        for (number, edge) in laid.edges.as_slice().iter().enumerate() {
            let words = self.words_on(laid, number as u32);
            self.widen(&mut ranges, place_of(edge.node), words);
        }
        Ok(ranges)
    }

    /// Widens the range at a place by one that comes after it.
    fn widen(&self, ranges: &mut Vec<(u32, u32)>, place: usize, next: (u32, u32))
        requires next { IsRange self.now.words next }
        requires ranges { All (IsRange self.now.words) ranges.old.items }
        ensures { All (IsRange self.now.words) ranges.new.items }
    {
        if place < ranges.len() {
            ranges[place] = joined(ranges[place], next);
        }
    }

    /// The range of the sparse words with a candidate on an edge. It is (0, 0) where the edge has none.
    fn words_on(&self, laid: &LaidProc, edge: u32) -> (u32, u32)
        ensures { IsRange self.now.words result }
    {
        let width = u64::from(laid.width);
        let first = u64::from(laid.first_word) + u64::from(edge) * width;
        self.words_between(first, first + width)
    }

    /// The range of the sparse words with a candidate in the ground words from one up to another. It is (0, 0) where
    /// these have none.
    fn words_between(&self, first: u64, next: u64) -> (u32, u32)
        ensures { IsRange self.now.words result }
    {
        match (
            self.before.get(first as usize),
            self.before.get(next as usize),
        ) {
            (Some(from), Some(to)) if from < to => (from / 64, to.div_ceil(64)),
            _ => (0, 0),
        }
    }
}

/// The procedures of a program with their edges, as many as it has.
fn procs_of(ground: &Ground) -> &[LaidProc]
    ensures few { length result.now ≤ 256 }
    ensures small { All HasFewNodes result.now }
{
    let count = ground.program().count();
    &ground.layout().procs.as_slice()[..count as usize]
}

/// How many nodes a procedure has.
fn node_count(laid: &LaidProc) -> u32
    requires { HasFewNodes laid.now }
    ensures { result ≡ 1 + length laid.now.entering }
{
    1 + laid.entering.len() as u32
}

/// The pairs with their parts changed over.
fn turned(alloc: Global, pairs: &[(u32, u32)]) -> Result<Vec<(u32, u32)>, AllocError>
    ensures { IfOk result (λ turned. turned.items ≡ map (λ pair. (pair.1, pair.0)) pairs.now) }
{
    pairs.iter().map(|pair| (pair.1, pair.0)).collect(alloc)
}

fn empty_ranges(alloc: Global, count: u32) -> Result<Vec<(u32, u32)>, AllocError>
    ensures { IfOk result (λ ranges. ranges.items ≡ replicate count (0, 0)) }
{
    vec![in alloc; (0, 0); count as usize]
}

/// A range and one that comes after it, as one. Either may be (0, 0), which is empty.
fn joined(range: (u32, u32), next: (u32, u32)) -> (u32, u32)
    ensures { (words : ℕ) → IsRange words range → IsRange words next → IsRange words result }
{
    if range.1 == 0 {
        next
    } else {
        (range.0, range.1.max(next.1))
    }
}

/// The number of a node among those of its procedure.
fn place_of(node: Node) -> usize {
    match node {
        Node::Entry => 0,
        Node::At(number) => number as usize + 1,
    }
}
