//! Programs: procedures that pass every check.

ghost use Rattle.std.specs.Prelude.{◌≡◌, IfOk, option_copied, slice_get};

use crate::check::{check_program, place_of};
use crate::fault::ProgFault;
use crate::flow::{edges_into, target_in};
use crate::program::{Edge, Proc};
use rh_list::Items;
use std::alloc::{AllocError, Global};
use std::marker::Model;

/// A program. Contracts see its procedures.
#[derive(Drop)]
pub struct Program {
    procs: Items<Proc>,
}

impl Model for Program {
    ghost use Rattle.std.specs.Prelude.{List};
    ghost use Rattle.rh_il.specs.declared.program.Proc.{Proc};
    ghost use Rattle.rh_il.specs.Checks.{IsProgram};

    ghost Value = { List Proc };

    ghost view = { λ a. a.procs };

    ghost invariant = { λ a. IsProgram a.procs };
}

impl Program {
    ghost use Rattle.std.specs.Prelude.{◌≡◌, true, None, Some, IfOk, IfErr, length, [], slice_get, option_copied, IfSome};
    ghost use Rattle.std.specs.List.{list_all};
    ghost use Rattle.std.specs.Option.{option_and_then, option_map_or};
    ghost use Rattle.rh_il.specs.Flow.{edge_target, edges_into};
    ghost use Rattle.rh_il.specs.Checks.{has_proper_names, program_fault, main_of, IsProgram, ProcPassed};

    /// The program of these procedures, or the first check that they fail. `are_proper` tests their
    /// names. It takes no memory.
    pub fn new(procs: Vec<Proc>) -> Result<Program, ProgFault>
        requires { list_all has_proper_names procs.items ≡ true }
        ensures program { IfOk result (λ program. program ≡ procs.items) }
        ensures passes { IfOk result (λ program. program_fault procs.items ≡ None) }
        ensures fault { IfErr result (λ fault. program_fault procs.items ≡ Some fault) }
    {
        check_program(procs.as_slice())?;
        Ok(Program {
            procs: Items::from(procs),
        })
    }

    /// How many procedures there are.
    pub fn count(&self) -> u32
        ensures count { result ≡ length self.now }
        ensures program { IsProgram self.now }
    {
        self.procs.len() as u32
    }

    /// The procedure of a number.
    pub fn proc(&self, number: u32) -> Option<&Proc>
        ensures proc { option_copied result ≡ slice_get self.now number }
        ensures small { IfSome result (λ proc. ProcPassed proc.now) }
    {
        read(self.procs.as_slice(), number)
    }

    /// The number of the procedure `main`.
    pub fn main(&self) -> u32
        ensures main { main_of self.now ≡ Some result }
    {
        match place_of(self.procs.as_slice(), b"main") {
            Some(place) => place as u32,
            None => unreachable!(),
        }
    }

    /// The statement that an edge of a procedure enters, where there is such an edge.
    pub fn target(&self, proc: u32, edge: Edge) -> Option<u32>
        ensures { result ≡ option_and_then (λ p. edge_target p edge) (slice_get self.now proc) }
    {
        let proc = self.proc(proc)?;
        target_in(proc.body.as_slice(), edge)
    }

    /// The edges of a procedure that enter a statement, in their order.
    pub fn in_edges(&self, alloc: Global, proc: u32, node: u32) -> Result<Vec<Edge>, AllocError>
        ensures { IfOk result (λ edges. edges.items ≡ option_map_or (λ p. edges_into p node) (slice_get self.now proc) []) }
    {
        match self.proc(proc) {
            Some(proc) => edges_into(alloc, proc.body.as_slice(), node),
            None => Ok(Vec::new(alloc)),
        }
    }

    /// An equal program.
    pub fn copy(&self, alloc: Global) -> Result<Program, AllocError>
        ensures { IfOk result (λ copy. copy ≡ self.now) }
    {
        let procs = copy_procs(alloc, self.procs.as_slice())?;
        Ok(Program { procs })
    }
}

fn read(procs: &[Proc], number: u32) -> Option<&Proc>
    ensures { option_copied result ≡ slice_get procs.now number }
{
    procs.get(number as usize)
}

fn copy_proc(alloc: Global, proc: &Proc) -> Result<Proc, AllocError>
    ensures { IfOk result (λ copy. copy ≡ proc.now) }
{
    let name = proc.name;
    let vars = proc.vars.copy(alloc)?;
    let body = proc.body.copy(alloc)?;
    Ok(Proc { name, vars, body })
}

fn copy_procs(alloc: Global, procs: &[Proc]) -> Result<Items<Proc>, AllocError>
    ensures { IfOk result (λ copies. copies ≡ procs.now) }
{
    let mut copies = Items::new(alloc);
    for proc in procs {
        copies.push(copy_proc(alloc, proc)?)?;
    }
    Ok(copies)
}
