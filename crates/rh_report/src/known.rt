//! The lines of the facts whose bits stand in words.
ghost use Rattle.std.specs.Prelude.{ℕ, ◌≡◌, ◌+◌, ◌-◌, ◌*◌, ◌<◌, ◌≤◌, ◌==◌, ◌++◌, Some, OnOk, slice_get, slice_index};
ghost use Rattle.std.specs.Int.{bit_at};
ghost use Rattle.rh_il.specs.declared.program.Proc.{Proc};
ghost use Rattle.rh_domain.specs.Facts.{facts_in};
ghost use Rattle.rh_layout.specs.Layout.{IsLayoutOf};
ghost use Rattle.rh_rows.specs.Known.{known_in};
ghost use Rattle.rh_system.specs.Bits.{bits_in};
ghost use Rattle.rh_report.specs.FactLines.{IsPartOf, line_at, lines_of, texts_of};
ghost use Rattle.rh_report.specs.Output.{fact_lines};

use crate::fact_text::push_fact_line;
use rh_domain::{FactAt, fact_at};
use rh_il::{Edge, Program};
use rh_layout::{LaidProc, Layout};
use rh_rule::Schema;
use rh_system::next_set;
use std::alloc::{AllocError, Global};

/// The facts on an edge of a procedure.
#[derive(Clone, Copy)]
struct EdgeFacts<'g> {
    schemas: &'g [Schema],
    program: &'g Program,
    laid: &'g LaidProc,
    place: u32,
    edge: Edge,
}

impl EdgeFacts<'_> {
    /// Adds the line of the fact with a number, where there is one.
    fn push_line(&self, alloc: Global, out: &mut Vec<u8>, number: u32) -> Result<(), AllocError>
        requires { IsPartOf self.now.schemas.now self.now.program.now self.now.place self.now.laid.now }
        ensures { OnOk result (out.new.items ≡ out.old.items ++ line_at self.now.schemas.now self.now.program.now self.now.laid.now.domain self.now.place self.now.edge number) }
    {
        let laid = self.laid;
        let firsts = laid.firsts.as_slice();
        let Some(fact) = fact_at(&laid.domain, self.schemas, firsts, number) else {
            return Ok(());
        };
        let fact = FactAt {
            proc: self.place,
            edge: self.edge,
            fact,
        };
        push_fact_line(alloc, out, self.schemas, self.program, &fact)
    }

    /// Adds the lines of the facts whose bits are set in a word of the edge. `first` is the number of the fact that the
    /// lowest bit of the word stands for.
    fn push_word(
        &self,
        alloc: Global,
        out: &mut Vec<u8>,
        first: u32,
        word: u64,
    ) -> Result<(), AllocError>
        requires part { IsPartOf self.now.schemas.now self.now.program.now self.now.place self.now.laid.now }
        requires room { first < 65536 }
        ensures { OnOk result (out.new.items ≡ out.old.items ++ texts_of (λ number. bit_at word (number - first) == 1) (line_at self.now.schemas.now self.now.program.now self.now.laid.now.domain self.now.place self.now.edge) first 64) }
    {
        let mut from = 0;
        while let Some(place) = next_set(word, from) {
            self.push_line(alloc, out, first + place)?;
            from = place + 1;
        }
        Ok(())
    }

    /// Adds the lines of the facts whose bits stand in the words. `start` is the edge's first word.
    fn push_lines(
        &self,
        alloc: Global,
        out: &mut Vec<u8>,
        words: &[u64],
        start: u32,
    ) -> Result<(), AllocError>
        requires part { IsPartOf self.now.schemas.now self.now.program.now self.now.place self.now.laid.now }
        requires room { start + self.now.laid.now.width ≤ 2097152 }
        ensures { OnOk result (out.new.items ≡ out.old.items ++ texts_of (λ number. bits_in words.now (64 * start + number)) (line_at self.now.schemas.now self.now.program.now self.now.laid.now.domain self.now.place self.now.edge) 0 (64 * self.now.laid.now.width)) }
    {
        for within in 0..self.laid.width {
            self.push_word(alloc, out, 64 * within, word_at(words, start + within))?;
        }
        Ok(())
    }
}

/// The word with a number. Past the last word it is 0.
fn word_at(words: &[u64], number: u32) -> u64
    ensures { result ≡ slice_index words.now number }
{
    words.get(number as usize).copied().unwrap_or(0)
}

/// Adds the lines of the known facts of a procedure, edge by edge.
fn push_proc_lines(
    alloc: Global,
    out: &mut Vec<u8>,
    schemas: &[Schema],
    program: &Program,
    laid: &LaidProc,
    place: u32,
    words: &[u64],
) -> Result<(), AllocError>
    requires { IsPartOf schemas.now program.now place laid.now }
    ensures { OnOk result ((proc : Proc) → slice_get program.now place ≡ Some proc → out.new.items ≡ out.old.items ++ lines_of schemas.now program.now (known_in schemas.now program.now words.now) (facts_in schemas.now proc place)) }
{
    let edges = laid.edges.as_slice();
    let mut start = laid.first_word;
    for edge in edges {
        let facts = EdgeFacts {
            schemas,
            program,
            laid,
            place,
            edge: *edge,
        };
        facts.push_lines(alloc, out, words, start)?;
        start += laid.width;
    }
    Ok(())
}

/// Adds a line for each fact whose bit stands in the words, in the order of the facts.
pub(crate) fn push_known(
    alloc: Global,
    out: &mut Vec<u8>,
    schemas: &[Schema],
    program: &Program,
    layout: &Layout,
    words: &[u64],
) -> Result<(), AllocError>
    requires { IsLayoutOf schemas.now program.now layout.now }
    ensures { OnOk result (out.new.items ≡ out.old.items ++ fact_lines schemas.now program.now (known_in schemas.now program.now words.now)) }
{
    for place in 0..program.count() {
        let laid = &layout.procs.as_slice()[place as usize];
        push_proc_lines(alloc, out, schemas, program, laid, place, words)?;
    }
    Ok(())
}
