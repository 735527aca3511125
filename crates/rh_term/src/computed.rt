//! The clauses of the computed operators: one for each term of an operator and each two numbers that it
//! may be applied to. There can be hundreds of thousands in an obligation, and few are looked at, so
//! they are kept as the terms and the numbers that they come from.
ghost use Rattle.std.specs.Prelude.{◌≡◌};
ghost use Rattle.rh_term.specs.Computed.{clause_with, triples_in};

use crate::clause::{Clause, Lit};
use crate::lits::Lits;
use rh_il::Op;

/// A term of an operator: its place, and those of its operands.
#[derive(Clone, Copy)]
pub struct Operation {
    pub place: u32,
    pub op: Op,
    pub left: u32,
    pub right: u32,
}

/// The places of two numbers, and of what an operator makes of them.
#[derive(Clone, Copy)]
pub struct Triple {
    pub left: u32,
    pub right: u32,
    pub outcome: u32,
}

/// The triples of each operator.
#[derive(Drop)]
pub struct Triples {
    pub add: Vec<Triple>,
    pub sub: Vec<Triple>,
    pub mul: Vec<Triple>,
    pub less: Vec<Triple>,
    pub equal: Vec<Triple>,
}

/// A clause for each operation and each triple of its operator: operation by operation, in order.
#[derive(Drop)]
pub struct Computed {
    pub operations: Vec<Operation>,
    pub triples: Triples,
}

impl Triples {
    /// Those of an operator.
    pub fn of(&self, op: Op) -> &[Triple]
        ensures { result.now ≡ triples_in self.now op }
    {
        match op {
            Op::Add => self.add.as_slice(),
            Op::Sub => self.sub.as_slice(),
            Op::Mul => self.mul.as_slice(),
            Op::Less => self.less.as_slice(),
            Op::Equal => self.equal.as_slice(),
        }
    }
}

/// That an operation on the two numbers of a triple gives the third.
pub fn clause_with(operation: Operation, triple: Triple) -> Clause
    ensures { result ≡ clause_with operation triple }
{
    let literal = |left, right, equal| Lit { left, right, equal };
    Clause {
        lits: Lits::three(
            literal(operation.left, triple.left, false),
            literal(operation.right, triple.right, false),
            literal(operation.place, triple.outcome, true),
        ),
    }
}
