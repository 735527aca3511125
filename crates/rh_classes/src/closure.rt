//! Congruence closure over labels.
ghost use Rattle.std.specs.Prelude.{◌≡◌, ◌<◌, ◌^◌, length};
ghost use Rattle.rh_term.specs.Partition.{IsPartition};
ghost use Rattle.rh_term.specs.Term.{IsTermList};
ghost use Rattle.rh_classes.specs.Merge.{IsMerge, relabelled};

use crate::chains::{BUCKETS, find_apart};
use crate::congruence::label;
use rh_term::Term;

/// Makes the classes of two places one.
fn join(labels: &mut [u32], left: u32, right: u32)
    ensures { labels.new ≡ relabelled labels.old left right }
{
    let first = label(labels, left);
    let second = label(labels, right);
    let kept = first.min(second);
    let lost = first.max(second);
    for label in labels.iter_mut() {
        if *label == lost {
            *label = kept;
        }
    }
}

/// Joins two places, and then whatever has become congruent. The heads and the links are room to work
/// in.
pub fn merge(
    terms: &[Term],
    labels: &mut [u32],
    heads: &mut [u32],
    links: &mut [u32],
    left: u32,
    right: u32,
)
    requires terms { IsTermList terms.now }
    requires few { length terms.now < 2 ^ 32 }
    requires heads { length heads.old ≡ BUCKETS }
    requires links { length links.old ≡ length terms.now }
    requires partition { IsPartition (length terms.now) labels.old }
    requires left { left < length terms.now }
    requires right { right < length terms.now }
    ensures { IsMerge terms.now labels.old left right labels.new }
{
    join(labels, left, right);
    while let Some((place, earlier)) = find_apart(terms, labels, heads, links) {
        join(labels, place, earlier);
    }
}
