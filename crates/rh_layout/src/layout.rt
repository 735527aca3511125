//! The facts on the edges of a program as bits of words. `Layout::new` lays them out, and the other calls find the
//! fact of a bit and the bit of a fact.
ghost use Rattle.std.specs.Prelude.{ℕ, List, ◌≡◌, ◌<◌, ◌≤◌, IfErr, IfNone, IfOk, IfSome, nat_le, slice_index};
ghost use Rattle.std.specs.List.{position};
ghost use Rattle.std.specs.List.Sorted.{IsNonDecreasingBy, IsPartitionPoint};
ghost use Rattle.rh_il.specs.declared.program.Proc.{Proc};
ghost use Rattle.rh_rule.specs.declared.schema.Schema.{Schema};
ghost use Rattle.rh_domain.specs.declared.fact.FactAt.{FactAt};
ghost use Rattle.rh_layout.specs.Bits.{IsBitOf, full_words, word_count};
ghost use Rattle.rh_domain.specs.Count.{AreFew};
ghost use Rattle.rh_layout.specs.declared.laid.LaidProc.{LaidProc};
ghost use Rattle.rh_layout.specs.Layout.{IsBitOn, IsFaultOf, IsLayoutOf, has_word};

use crate::laid::{LaidProc, LayoutFault, lay_out};
use rh_domain::FactAt;
use rh_il::Program;
use rh_list::Items;
use rh_rule::{Arg, Schema};
use std::alloc::Global;

/// How many words there may be in all.
const MOST_WORDS: u32 = 2097152;

/// Which bit stands for which fact on which edge.
#[derive(Drop)]
pub struct Layout {
    /// The procedures, in the order of the program.
    pub procs: Items<LaidProc>,
    words: u32,
}

impl Layout {
    /// The layout for the schemas of a rule file and a program.
    pub fn new(alloc: Global, schemas: &[Schema], program: &Program) -> Result<Layout, LayoutFault>
        requires { AreFew schemas.now }
        ensures layout { IfOk result (IsLayoutOf schemas.now program.now) }
        ensures fault { IfErr result (IsFaultOf schemas.now program.now) }
    {
        let mut procs = Items::new(alloc);
        let mut words: u32 = 0;
        for number in 0..program.count() {
            let Some(proc) = program.proc(number) else {
                unreachable!()
            };
            let laid = lay_out(alloc, schemas, program, number, proc, words)?;
            words = laid.next_word;
            procs.push(laid)?;
        }
        if words > MOST_WORDS {
            return Err(LayoutFault::TooManyWords(u64::from(words)));
        }
        Ok(Layout { procs, words })
    }

    /// How many words there are.
    pub fn words(&self) -> u32
        ensures { (schemas : List Schema) (procs : List Proc) → IsLayoutOf schemas procs self.now → result ≡ word_count schemas procs }
    {
        self.words
    }

    /// A word in which each fact stands that it may hold. It is 0 past the last word.
    pub fn full(&self, word: u32) -> u64
        requires { (schemas : List Schema) × (procs : List Proc) × IsLayoutOf schemas procs self.now }
        ensures { (schemas : List Schema) (procs : List Proc) → IsLayoutOf schemas procs self.now → result ≡ slice_index (full_words schemas procs) word }
    {
        match self.place_of(u64::from(word)) {
            Some(place) => self.procs.as_slice()[place].full_word(word),
            None => 0,
        }
    }

    /// The fact that a bit stands for, where it stands for one. The schemas are those that the layout is for.
    pub fn fact_of(&self, schemas: &[Schema], bit: u64) -> Option<FactAt>
        requires { (procs : List Proc) × IsLayoutOf schemas.now procs self.now }
        ensures found { IfSome result (λ fact. (procs : List Proc) → IsLayoutOf schemas.now procs self.now → IsBitOf schemas.now procs bit fact) }
        ensures none { IfNone result ((procs : List Proc) → IsLayoutOf schemas.now procs self.now → (fact : FactAt) → ¬ IsBitOf schemas.now procs bit fact) }
    {
        let place = self.place_of(bit / 64)?;
        self.procs.as_slice()[place].fact_of(schemas, place as u32, bit)
    }

    /// The bit of a fact, where it is one of the program: of the schema with a number with these arguments, on the
    /// edge with a number of a procedure. The schemas are those that the layout is for.
    pub fn bit_of(
        &self,
        schemas: &[Schema],
        proc: u32,
        edge: u32,
        schema: u32,
        args: &[Arg],
    ) -> Option<u64>
        requires { (procs : List Proc) × IsLayoutOf schemas.now procs self.now }
        ensures found { IfSome result (λ bit. (procs : List Proc) → IsLayoutOf schemas.now procs self.now → IsBitOn schemas.now procs proc edge (record { schema = schema; args = args.now }) bit) }
        ensures none { IfNone result ((procs : List Proc) → IsLayoutOf schemas.now procs self.now → (bit : ℕ) → ¬ IsBitOn schemas.now procs proc edge (record { schema = schema; args = args.now }) bit) }
    {
        let laid = self.procs.as_slice().get(proc as usize)?;
        laid.bit_of(schemas, edge, schema, args)
    }

    /// The place of the procedure that has a word, where one has it.
    pub fn place_of(&self, word: u64) -> Option<usize>
        requires { (schemas : List Schema) × (procs : List Proc) × IsLayoutOf schemas procs self.now }
        ensures { result ≡ position (has_word word) self.now.procs }
    {
        let place = self.ended_by(word);
        let laid = self.procs.as_slice().get(place)?;
        if laid.has_word(word) {
            Some(place)
        } else {
            None
        }
    }

    /// How many procedures have no word from this one on. They are the first ones.
    fn ended_by(&self, word: u64) -> usize
        requires { IsNonDecreasingBy (λ (laid : LaidProc). laid.next_word) self.now.procs }
        ensures { IsPartitionPoint (λ (laid : LaidProc). laid.next_word ≤ word) (λ (laid : LaidProc). word < laid.next_word) self.now.procs result }
    {
        self.procs.as_slice().partition_point(
            |laid: &LaidProc| -> bool
                ensures { result ≡ nat_le laid.now.next_word word }
            { u64::from(laid.next_word) <= word },
        )
    }
}
