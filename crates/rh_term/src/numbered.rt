//! The clause with a number in a list of clauses.
ghost use Rattle.std.specs.Prelude.{◌≡◌, IfOk, map, slice_get};
ghost use Rattle.std.specs.List.{flat_map};
ghost use Rattle.rh_term.specs.Clauses.{IsReached, part_clauses};
ghost use Rattle.rh_term.specs.Computed.{clause_with, computed_clauses, operation_clauses};

use crate::clause::Clause;
use crate::clauses::{Clauses, Part};
use crate::computed::{Computed, Operation, Triple, Triples, clause_with};
use std::alloc::{AllocError, Global};

/// Where a number leads in some of the clauses.
#[derive(Drop)]
enum Reached {
    /// To a clause.
    At(Clause),
    /// Past the last, to the one with this number after it.
    Past(usize),
}

impl Clauses {
    /// A copy of the clause with this number, if there is one.
    pub fn copy_at(&self, alloc: Global, number: usize) -> Result<Option<Clause>, AllocError>
        ensures { IfOk result (λ found. found ≡ slice_get self.now number) }
    {
        let (parts, last) = self.parts();
        let left = match in_parts(alloc, parts, number)? {
            Reached::At(clause) => return Ok(Some(clause)),
            Reached::Past(left) => left,
        };
        match in_made(alloc, last, left)? {
            Reached::At(clause) => Ok(Some(clause)),
            Reached::Past(_) => Ok(None),
        }
    }
}

fn in_parts(alloc: Global, parts: &[Part], number: usize) -> Result<Reached, AllocError>
    ensures { IfOk result (IsReached (flat_map part_clauses parts.now) number) }
{
    let mut left = number;
    for part in parts {
        match in_part(alloc, part, left)? {
            Reached::At(clause) => return Ok(Reached::At(clause)),
            Reached::Past(rest) => left = rest,
        }
    }
    Ok(Reached::Past(left))
}

fn in_part(alloc: Global, part: &Part, number: usize) -> Result<Reached, AllocError>
    ensures { IfOk result (IsReached (part_clauses part.now) number) }
{
    match in_made(alloc, part.made.as_slice(), number)? {
        Reached::At(clause) => Ok(Reached::At(clause)),
        Reached::Past(left) => Ok(in_computed(&part.computed, left)),
    }
}

fn in_made(alloc: Global, clauses: &[Clause], number: usize) -> Result<Reached, AllocError>
    ensures { IfOk result (IsReached clauses.now number) }
{
    if number < clauses.len() {
        Ok(Reached::At(clauses[number].copy(alloc)?))
    } else {
        Ok(Reached::Past(number - clauses.len()))
    }
}

fn in_computed(computed: &Computed, number: usize) -> Reached
    ensures { IsReached (computed_clauses computed.now) number result }
{
    let mut left = number;
    for operation in computed.operations.as_slice() {
        match in_operation(*operation, &computed.triples, left) {
            Reached::At(clause) => return Reached::At(clause),
            Reached::Past(rest) => left = rest,
        }
    }
    Reached::Past(left)
}

fn in_operation(operation: Operation, triples: &Triples, number: usize) -> Reached
    ensures { IsReached (operation_clauses triples.now operation) number result }
{
    in_triples(operation, triples.of(operation.op), number)
}

fn in_triples(operation: Operation, triples: &[Triple], number: usize) -> Reached
    ensures { IsReached (map (clause_with operation) triples.now) number result }
{
    if number < triples.len() {
        Reached::At(clause_with(operation, triples[number]))
    } else {
        Reached::Past(number - triples.len())
    }
}
