//! The instances of the computed operators. The numbers of the list and what an operator makes of two
//! of them are looked up once for each operator, and not once for each term.
ghost use Rattle.std.specs.Prelude.{◌≡◌, ◌++◌, IfOk, IsTrue};
ghost use Rattle.std.specs.List.{list_any};
ghost use Rattle.rh_axioms.specs.Computed.{has_operator, numbers_of, operations_of, triple_of, triples_of, triples_with, HasTriples};
ghost use Rattle.rh_term.specs.Computed.{computed_clauses};
ghost use Rattle.rh_axioms.specs.Rows.{computations, each, result_of};

use crate::parts::{as_num, as_op};
use rh_il::{Op, Value};
use rh_term::{Computed, Operation, Term, Terms, Triple, Triples};
use std::alloc::{AllocError, Global};

/// A number of the list.
#[derive(Clone, Copy)]
pub struct Number {
    pub place: u32,
    pub value: i64,
}

/// The clauses of the computed operators.
pub fn computed(alloc: Global, terms: &Terms) -> Result<Computed, AllocError>
    ensures { IfOk result (λ computed. computed_clauses computed ≡ each terms.now (computations terms.now)) }
{
    Ok(Computed {
        operations: operations(alloc, terms)?,
        triples: triples(alloc, terms)?,
    })
}

/// The terms of an operator.
fn operations(alloc: Global, terms: &Terms) -> Result<Vec<Operation>, AllocError>
    ensures { IfOk result (λ found. found.items ≡ operations_of terms.now) }
{
    let mut found = Vec::new(alloc);
    for (place, term) in terms.as_slice().iter().enumerate() {
        if let Some((op, left, right)) = as_op(*term) {
            found.push(Operation {
                place: place as u32,
                op,
                left,
                right,
            })?;
        }
    }
    Ok(found)
}

/// The triples of each operator that a term of the list has.
fn triples(alloc: Global, terms: &Terms) -> Result<Triples, AllocError>
    ensures { IfOk result (HasTriples terms.now) }
{
    let found = numbers(alloc, terms)?;
    let numbers = found.as_slice();
    Ok(Triples {
        add: used_triples(alloc, terms, numbers, Op::Add)?,
        sub: used_triples(alloc, terms, numbers, Op::Sub)?,
        mul: used_triples(alloc, terms, numbers, Op::Mul)?,
        less: used_triples(alloc, terms, numbers, Op::Less)?,
        equal: used_triples(alloc, terms, numbers, Op::Equal)?,
    })
}

fn numbers(alloc: Global, terms: &Terms) -> Result<Vec<Number>, AllocError>
    ensures { IfOk result (λ found. found.items ≡ numbers_of terms.now) }
{
    let mut found = Vec::new(alloc);
    for (place, term) in terms.as_slice().iter().enumerate() {
        if let Some(value) = as_num(*term) {
            found.push(Number {
                place: place as u32,
                value,
            })?;
        }
    }
    Ok(found)
}

fn used_triples(
    alloc: Global,
    terms: &Terms,
    numbers: &[Number],
    op: Op,
) -> Result<Vec<Triple>, AllocError>
    ensures { IfOk result (λ found. IsTrue (list_any (has_operator op) terms.now) → found.items ≡ triples_of terms.now numbers.now op) }
{
    if is_used(terms.as_slice(), op) {
        triples_of(alloc, terms, numbers, op)
    } else {
        Ok(Vec::new(alloc))
    }
}

fn is_used(terms: &[Term], op: Op) -> bool
    ensures { result ≡ list_any (has_operator op) terms.now }
{
    terms.iter().any(|term| has_operator(op, *term))
}

fn has_operator(op: Op, term: Term) -> bool
    ensures { result ≡ has_operator op term }
{
    match as_op(term) {
        Some((other, _, _)) => other == op,
        None => false,
    }
}

fn triples_of(
    alloc: Global,
    terms: &Terms,
    numbers: &[Number],
    op: Op,
) -> Result<Vec<Triple>, AllocError>
    ensures { IfOk result (λ found. found.items ≡ triples_of terms.now numbers.now op) }
{
    let mut found = Vec::new(alloc);
    for left in numbers {
        add_triples(terms, numbers, op, *left, &mut found)?;
    }
    Ok(found)
}

fn add_triples(
    terms: &Terms,
    numbers: &[Number],
    op: Op,
    left: Number,
    found: &mut Vec<Triple>,
) -> Result<(), AllocError>
    ensures { IfOk result (λ _. found.new.items ≡ found.old.items ++ triples_with terms.now numbers.now op left) }
{
    for right in numbers {
        add_triple(terms, op, left, *right, found)?;
    }
    Ok(())
}

fn add_triple(
    terms: &Terms,
    op: Op,
    left: Number,
    right: Number,
    found: &mut Vec<Triple>,
) -> Result<(), AllocError>
    ensures { IfOk result (λ _. found.new.items ≡ found.old.items ++ triple_of terms.now op left right) }
{
    let number = result_of(op, left.value, right.value);
    if let Some(outcome) = terms.find(Term::Num(number)) {
        found.push(Triple {
            left: left.place,
            right: right.place,
            outcome,
        })?;
    }
    Ok(())
}

/// The number that the operator makes of two.
fn result_of(op: Op, left: i64, right: i64) -> i64
    ensures { result ≡ result_of op left right }
{
    match op.total(Value::Num(left), Value::Num(right)) {
        Value::Num(number) => number,
        Value::Ptr(_) => 0,
    }
}
