//! The part of a layout on one procedure.
ghost use Rattle.std.specs.Prelude.{ℕ, ◌≡◌, ◌≢◌, ◌+◌, ◌-◌, ◌*◌, ◌/◌, ◌%◌, ◌^◌, ◌<◌, ◌≤◌, min, length, slice_get, IfErr, IfNone, IfOk, IfSome};
ghost use Rattle.std.specs.Option.{option_map};
ghost use Rattle.rh_il.specs.declared.program.Edge.{Edge};
ghost use Rattle.rh_il.specs.Checks.{ProcPassed};
ghost use Rattle.rh_domain.specs.Count.{AreFew, IsSmall, fact_count};
ghost use Rattle.rh_domain.specs.Binding.{domain_of};
ghost use Rattle.rh_layout.specs.Bits.{full_word};
ghost use Rattle.rh_domain.specs.Facts.{facts_over};
ghost use Rattle.rh_domain.specs.First.{AreFirsts};
ghost use Rattle.rh_layout.specs.Entering.{entering_at};
ghost use Rattle.rh_layout.specs.Layout.{IsFaultAt, IsLaidProc, edge_with, has_word, place_in_edge};

use crate::edges::edges_of;
use crate::entering::entering_numbers;
use rh_domain::{Domain, FactAt, fact_at, fact_count, first_numbers, number_of};
use rh_il::{Edge, Node, Proc, Program};
use rh_list::Items;
use rh_rule::{Arg, Schema};
use std::alloc::{AllocError, AllocFailed, Global};

/// How many facts a procedure may have.
const MOST_FACTS: u128 = 65536;

/// The facts, the edges and the words of a procedure.
#[derive(Drop)]
pub struct LaidProc {
    /// Its variables and constants.
    pub domain: Domain,
    /// For each schema the number of its first fact, and at the end how many facts there are.
    pub firsts: Items<u32>,
    /// How many facts there are on an edge.
    pub facts: u32,
    /// How many words an edge has.
    pub width: u32,
    /// Its edges, in their order.
    pub edges: Items<Edge>,
    /// For each statement the numbers of the edges that enter it, rising. The number of an edge is its place in `edges`.
    pub entering: Items<Items<u32>>,
    /// Its first word.
    pub first_word: u32,
    /// The first word after its own.
    pub next_word: u32,
}

/// Why a program has no layout.
#[derive(Clone, Copy, Debug, PartialEq, Eq)]
pub enum LayoutFault {
    /// The first procedure with more than 65,536 facts, and how many it has.
    TooManyFacts { proc: u32, count: u128 },
    /// More than 2,097,152 words in all, and how many.
    TooManyWords(u64),
    NoMemory,
}

impl From<AllocError> for LayoutFault {
    ghost use Rattle.rh_layout.specs.declared.laid.LayoutFault.TheVariants.{NoMemory};

    ghost from_gives = { λ _ fault. fault ≡ NoMemory };

    fn from(_error: AllocError) -> LayoutFault {
        LayoutFault::NoMemory
    }
}

impl<T: Drop> From<AllocFailed<T>> for LayoutFault {
    ghost use Rattle.rh_layout.specs.declared.laid.LayoutFault.TheVariants.{NoMemory};

    ghost from_gives = { λ _ fault. fault ≡ NoMemory };

    fn from(_failed: AllocFailed<T>) -> LayoutFault {
        LayoutFault::NoMemory
    }
}

/// The variables and constants of a procedure of a program.
fn small_domain(alloc: Global, proc: &Proc) -> Result<Domain, AllocError>
    requires { ProcPassed proc.now }
    ensures domain { IfOk result (λ domain. domain ≡ domain_of proc.now) }
    ensures small { IfOk result (λ domain. IsSmall domain) }
{
    Domain::of(alloc, proc)
}

/// The part of a layout on the procedure with this number, whose words begin with this one. A procedure has at most
/// 2,049 edges of 1,024 words each.
pub(crate) fn lay_out(
    alloc: Global,
    schemas: &[Schema],
    program: &Program,
    number: u32,
    proc: &Proc,
    first_word: u32,
) -> Result<LaidProc, LayoutFault>
    requires few { AreFew schemas.now }
    requires at { slice_get program.now number ≡ Some proc.now }
    requires short { ProcPassed proc.now }
    requires room { first_word ≤ 255 * 2098176 }
    ensures laid { IfOk result (IsLaidProc schemas.now proc.now first_word) }
    ensures next { IfOk result (λ laid. laid.next_word ≤ first_word + 2098176) }
    ensures fault { IfErr result (IsFaultAt schemas.now number proc.now) }
{
    let domain = small_domain(alloc, proc)?;
    let count = fact_count(&domain, schemas);
    if count > MOST_FACTS {
        return Err(LayoutFault::TooManyFacts {
            proc: number,
            count,
        });
    }
    let facts = count as u32;
    let width = facts.div_ceil(64);
    let edges = Items::from(edges_of(alloc, proc.body.as_slice())?);
    let next_word = first_word + edges.len() as u32 * width;
    Ok(LaidProc {
        firsts: first_numbers(alloc, &domain, schemas)?,
        domain,
        facts,
        width,
        entering: entering_numbers(alloc, program, number, proc, edges.as_slice())?,
        edges,
        first_word,
        next_word,
    })
}

impl LaidProc {
    /// The numbers of the edges that enter a node, rising, where the procedure has the node. No edge enters the entry.
    pub fn entering_at(&self, node: Node) -> Option<&[u32]>
        ensures found { IfSome result (λ numbers. entering_at self.now.entering node ≡ Some numbers.now) }
        ensures none { IfNone result (entering_at self.now.entering node ≡ None) }
    {
        match node {
            Node::Entry => Some(&[]),
            Node::At(number) => {
                let numbers = self.entering.as_slice().get(number as usize)?;
                Some(numbers.as_slice())
            }
        }
    }

    /// Whether a word is one of the procedure's.
    pub(crate) fn has_word(&self, word: u64) -> bool
        ensures { result ≡ has_word word self.now }
    {
        u64::from(self.first_word) <= word && word < u64::from(self.next_word)
    }

    /// One of the procedure's words with all the facts that stand in it.
    pub(crate) fn full_word(&self, word: u32) -> u64
        requires from { self.now.first_word ≤ word }
        requires some { 0 < self.now.width }
        requires few { self.now.width ≤ 1024 }
        ensures { result ≡ full_word self.now.facts (place_in_edge self.now word) }
    {
        let within = (word - self.first_word) % self.width;
        ones(self.facts.saturating_sub(64 * within))
    }

    /// The fact that a bit of one of the procedure's words stands for. `number` is the procedure's.
    pub(crate) fn fact_of(&self, schemas: &[Schema], number: u32, bit: u64) -> Option<FactAt>
        requires small { IsSmall self.now.domain }
        requires few { AreFew schemas.now }
        requires firsts { AreFirsts self.now.domain schemas.now self.now.firsts }
        requires some { 0 < self.now.width }
        requires narrow { self.now.width ≤ 1024 }
        requires from { self.now.first_word ≤ bit / 64 }
        requires below { bit / 64 < self.now.next_word }
        requires edge { edge_with self.now (bit / 64) < length self.now.edges }
        ensures { (edge : Edge) → slice_get self.now.edges (edge_with self.now (bit / 64)) ≡ Some edge → result ≡ option_map (λ fact. record { proc = number; edge = edge; fact = fact }) (slice_get (facts_over self.now.domain schemas.now) (64 * place_in_edge self.now (bit / 64) + bit % 64)) }
    {
        let word = (bit / 64) as u32 - self.first_word;
        let place = (bit % 64) as u32;
        let within = 64 * (word % self.width) + place;
        let Some(fact) = fact_at(&self.domain, schemas, self.firsts.as_slice(), within) else {
            return None;
        };
        let edge = self.edges.as_slice()[(word / self.width) as usize];
        Some(FactAt {
            proc: number,
            edge,
            fact,
        })
    }

    /// The bit of a fact on the edge with a number.
    pub(crate) fn bit_of(
        &self,
        schemas: &[Schema],
        edge: u32,
        schema: u32,
        args: &[Arg],
    ) -> Option<u64>
        requires small { IsSmall self.now.domain }
        requires within { fact_count self.now.domain schemas.now ≤ 65536 }
        requires firsts { AreFirsts self.now.domain schemas.now self.now.firsts }
        requires room { self.now.first_word + length self.now.edges * self.now.width ≤ 2097152 }
        ensures edge { IfSome result (λ bit. edge < length self.now.edges) }
        ensures found { IfSome result (λ bit. (number : ℕ) × (slice_get (facts_over self.now.domain schemas.now) number ≡ Some (record { schema = schema; args = args.now })) × (bit ≡ 64 * (self.now.first_word + edge * self.now.width) + number)) }
        ensures none { IfNone result (edge < length self.now.edges → (number : ℕ) → slice_get (facts_over self.now.domain schemas.now) number ≢ Some (record { schema = schema; args = args.now })) }
    {
        if edge as usize >= self.edges.len() {
            return None;
        }
        let number = number_of(&self.domain, schemas, self.firsts.as_slice(), schema, args)?;
        let word = self.first_word + edge * self.width;
        Some(64 * u64::from(word) + u64::from(number))
    }
}

/// A word with so many ones at its lowest places, or with ones alone.
fn ones(count: u32) -> u64
    ensures { result ≡ 2 ^ min 64 count - 1 }
{
    if count < 64 {
        (1 << count) - 1
    } else {
        u64::MAX
    }
}
