//! Tests of all clauses of a list, which need not be made for them.
ghost use Rattle.std.specs.Prelude.{◌≡◌, Bool};
ghost use Rattle.std.specs.List.{list_all};
ghost use Rattle.rh_term.specs.declared.clause.Clause.{Clause};
ghost use Rattle.rh_term.specs.Clauses.{part_clauses};
ghost use Rattle.rh_term.specs.Computed.{clause_with, computed_clauses, operation_clauses};

use crate::clause::Clause;
use crate::clauses::{Clauses, Part};
use crate::computed::{Computed, Operation, Triple, Triples};

/// A test of clauses.
pub trait ClauseTest {
    // whether a clause passes
    ghost passes: { Self → Clause → Bool };

    /// Whether a clause passes.
    fn made(&self, clause: &Clause) -> bool
        ensures { result ≡ passes self.now clause.now };

    /// Whether the clause passes that says what the operation gives.
    fn computed(&self, operation: Operation, triple: Triple) -> bool
        ensures { result ≡ passes self.now (clause_with operation triple) };
}

impl Clauses {
    /// Whether each clause passes.
    pub fn all<T: ClauseTest>(&self, test: &T) -> bool
        ensures { result ≡ list_all (T.passes test.now) self.now }
    {
        let (parts, last) = self.parts();
        all_in_parts(test, parts) && all_made(test, last)
    }
}

fn all_in_parts<T: ClauseTest>(test: &T, parts: &[Part]) -> bool
    ensures { result ≡ list_all (λ part. list_all (T.passes test.now) (part_clauses part)) parts.now }
{
    parts.iter().all(|part| all_in_part(test, part))
}

fn all_in_part<T: ClauseTest>(test: &T, part: &Part) -> bool
    ensures { result ≡ list_all (T.passes test.now) (part_clauses part.now) }
{
    all_made(test, part.made.as_slice()) && all_computed(test, &part.computed)
}

fn all_made<T: ClauseTest>(test: &T, clauses: &[Clause]) -> bool
    ensures { result ≡ list_all (T.passes test.now) clauses.now }
{
    clauses.iter().all(|clause| test.made(clause))
}

fn all_computed<T: ClauseTest>(test: &T, computed: &Computed) -> bool
    ensures { result ≡ list_all (T.passes test.now) (computed_clauses computed.now) }
{
    all_operations(test, &computed.triples, computed.operations.as_slice())
}

fn all_operations<T: ClauseTest>(test: &T, triples: &Triples, operations: &[Operation]) -> bool
    ensures { result ≡ list_all (λ operation. list_all (T.passes test.now) (operation_clauses triples.now operation)) operations.now }
{
    operations
        .iter()
        .all(|operation| all_of_operation(test, triples, *operation))
}

fn all_of_operation<T: ClauseTest>(test: &T, triples: &Triples, operation: Operation) -> bool
    ensures { result ≡ list_all (T.passes test.now) (operation_clauses triples.now operation) }
{
    all_triples(test, operation, triples.of(operation.op))
}

fn all_triples<T: ClauseTest>(test: &T, operation: Operation, triples: &[Triple]) -> bool
    ensures { result ≡ list_all (λ triple. T.passes test.now (clause_with operation triple)) triples.now }
{
    triples
        .iter()
        .all(|triple| test.computed(operation, *triple))
}
