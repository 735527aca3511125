//! Classes of terms.
ghost use Rattle.std.specs.Prelude.{◌≡◌, ◌<◌, ◌^◌, length, IfOk};
ghost use Rattle.rh_term.specs.Partition.{IsPartition, joined};
ghost use Rattle.rh_classes.specs.Merge.{IsMerge, alone};

use crate::chains::BUCKETS;
use crate::{closure, congruence};
use rh_term::Terms;
use std::alloc::{AllocError, Global};
use std::marker::Model;

/// A partition of the terms of a list.
#[derive(Drop)]
pub struct Classes {
    labels: Vec<u32>,
    // room for a merge to work in
    heads: Vec<u32>,
    links: Vec<u32>,
}

impl Model for Classes {
    ghost use Rattle.std.specs.Prelude.{ℕ, List, length};

    ghost Value = { List ℕ };

    ghost use Rattle.rh_term.specs.Partition.{IsPartition};

    ghost view = { λ a. a.labels.items };

    ghost use Rattle.rh_classes.specs.Chain.{HasRoom};

    ghost invariant = { λ a. IsPartition (length a.labels.items) a.labels.items × HasRoom a.labels.items a.heads.items a.links.items };
}

impl Classes {
    /// Each term alone.
    pub fn new(alloc: Global, terms: &Terms) -> Result<Self, AllocError>
        ensures { IfOk result (λ classes. classes ≡ alone (length terms.now)) }
    {
        let count = terms.len();
        Ok(Classes {
            labels: labels_alone(alloc, count)?,
            heads: room(alloc, BUCKETS)?,
            links: room(alloc, count as usize)?,
        })
    }

    /// Joins the classes of two terms of the list, and then whatever has become congruent.
    pub fn merge(&mut self, terms: &Terms, left: u32, right: u32)
        requires list { length self.old ≡ length terms.now }
        requires left { left < length terms.now }
        requires right { right < length terms.now }
        ensures { IsMerge terms.now self.old left right self.new }
    {
        closure::merge(
            terms.as_slice(),
            self.labels.as_mut_slice(),
            self.heads.as_mut_slice(),
            self.links.as_mut_slice(),
            left,
            right,
        );
    }

    /// Whether two terms are in one class.
    pub fn same(&self, left: u32, right: u32) -> bool
        requires left { left < length self.now }
        requires right { right < length self.now }
        ensures { result ≡ joined self.now left right }
    {
        congruence::joined(self.labels.as_slice(), left, right)
    }

    /// For each term the least place of its class.
    pub fn labels(&self) -> &[u32]
        ensures value { result.now ≡ self.now }
        ensures partition { IsPartition (length self.now) self.now }
    {
        self.labels.as_slice()
    }

    /// An equal value.
    pub fn copy(&self, alloc: Global) -> Result<Self, AllocError>
        ensures { IfOk result (λ copy. copy ≡ self.now) }
    {
        let labels = self.labels.as_slice();
        Ok(Classes {
            labels: Vec::from_slice(alloc, labels)?,
            heads: room(alloc, BUCKETS)?,
            links: room(alloc, labels.len())?,
        })
    }
}

fn room(alloc: Global, count: usize) -> Result<Vec<u32>, AllocError>
    ensures { IfOk result (λ room. length room.items ≡ count) }
{
    vec![in alloc; 0; count]
}

fn labels_alone(alloc: Global, count: u32) -> Result<Vec<u32>, AllocError>
    ensures { IfOk result (λ labels. labels.items ≡ alone count) }
{
    let mut labels = Vec::with_capacity(alloc, count as usize)?;
    for place in 0..count {
        labels.push(place)?;
    }
    Ok(labels)
}
