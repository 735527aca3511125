//! Which clauses are true in a partition.
ghost use Rattle.std.specs.Prelude.{◌≡◌, length};
ghost use Rattle.rh_term.specs.Clause.{is_true_lit, is_true_clause};
ghost use Rattle.rh_term.specs.Computed.{clause_with};
ghost use Rattle.rh_term.specs.Partition.{joined};
ghost use Rattle.rh_log.specs.Tree.{width};

use rh_classes::joined;
use rh_term::{Clause, Lit, Operation, Triple};

fn is_true_lit(labels: &[u32], lit: Lit) -> bool
    ensures { result ≡ is_true_lit (joined labels.now) lit }
{
    joined(labels, lit.left, lit.right) == lit.equal
}

/// Whether a literal of the clause is true in the partition with these labels.
pub fn is_true(labels: &[u32], clause: &Clause) -> bool
    ensures { result ≡ is_true_clause (joined labels.now) clause.now }
{
    clause
        .lits
        .as_slice()
        .iter()
        .any(|lit| is_true_lit(labels, *lit))
}

/// Whether the clause of this operation and this triple is true in the partition. It is not made.
pub fn is_computed(labels: &[u32], operation: Operation, triple: Triple) -> bool
    ensures { result ≡ is_true_clause (joined labels.now) (clause_with operation triple) }
{
    !joined(labels, operation.left, triple.left)
        || !joined(labels, operation.right, triple.right)
        || joined(labels, operation.place, triple.outcome)
}

/// How many equations the clause has.
pub fn width(clause: &Clause) -> usize
    ensures { result ≡ width clause.now }
{
    clause
        .lits
        .as_slice()
        .iter()
        .filter(|lit| lit.equal)
        .count()
}
