//! Open partitions.
ghost use Rattle.std.specs.Prelude.{◌≡◌, ◌↔◌, ◌≤◌, ◌<◌, ◌^◌, ℕ, length, IsTrue, slice_index};
ghost use Rattle.rh_term.specs.Clause.{is_true_clause};
ghost use Rattle.rh_term.specs.Partition.{IsOpen, IsPartition, joined};

use crate::truth::{is_computed, is_true};
use rh_classes::apart;
use rh_term::{Clause, ClauseTest, Obligation, Operation, Triple};

/// Whether the labels are those of an open partition of the obligation.
pub fn is_open(obligation: &Obligation, labels: &[u32]) -> bool
    ensures { IsTrue result ↔ IsOpen obligation.now.terms obligation.now.clauses labels.now }
{
    let terms = obligation.terms.as_slice();
    is_partition(terms.len(), labels)
        && apart(terms, labels).is_none()
        && obligation.clauses.all(&IsTrueIn { labels })
}

/// That a clause is true in the partition with these labels.
#[derive(Clone, Copy)]
struct IsTrueIn<'a> {
    labels: &'a [u32],
}

impl ClauseTest for IsTrueIn<'_> {
    ghost passes = { λ test clause. is_true_clause (joined test.labels.now) clause };

    fn made(&self, clause: &Clause) -> bool {
        is_true(self.labels, clause)
    }

    fn computed(&self, operation: Operation, triple: Triple) -> bool {
        is_computed(self.labels, operation, triple)
    }
}

fn is_partition(count: usize, labels: &[u32]) -> bool
    ensures { IsTrue result ↔ IsPartition count labels.now }
{
    if labels.len() != count {
        return false;
    }
    for (place, label) in labels.iter().enumerate() {
        if *label as usize > place || labels[*label as usize] != *label {
            return false;
        }
    }
    true
}
