//! Chains of the places whose terms may be congruent: a hash table of the terms with parts, by their
//! head, their operator and the labels of their parts. A link is a place and one more, or 0 for none:
//! the head of a bucket links to its last place, and each place to the one before it.
ghost use Rattle.std.specs.Prelude.{◌≡◌, ℕ, ◌<◌, ◌+◌, ◌^◌, IfSome, IfNone, length, slice_index};
ghost use Rattle.rh_term.specs.Partition.{IsCongruent, joined};
ghost use Rattle.rh_term.specs.Term.{IsTermList};
ghost use Rattle.rh_classes.specs.Chain.{AreChained, AreLinked, IsAlike, IsNew, IsReached, bucket_of, key_of, mixed, operator_number};
ghost use Rattle.rh_classes.specs.Merge.{AgreesBefore, IsApart};

use crate::congruence::{are_congruent, joined, label};
use rh_il::Op;
use rh_term::Term;

/// How many buckets there are: twice as many as a list of a rule's terms may have places.
pub const BUCKETS: usize = 1024;

fn mixed(head: usize, first: u32, second: u32, third: u32) -> usize
    requires { head < 16 }
    ensures { result ≡ mixed head first second third }
{
    ((head * 331 + first as usize) * 331 + second as usize) * 331 + third as usize
}

fn operator_number(op: Op) -> usize
    ensures value { result ≡ operator_number op }
    ensures small { result < 5 }
{
    match op {
        Op::Add => 0,
        Op::Sub => 1,
        Op::Mul => 2,
        Op::Less => 3,
        Op::Equal => 4,
    }
}

/// A number that all terms congruent to one with parts have.
fn key(labels: &[u32], term: Term) -> Option<usize>
    ensures { result ≡ key_of labels.now term }
{
    match term {
        Term::Sel(store, address) => {
            Some(mixed(5, label(labels, store), label(labels, address), 0))
        }
        Term::Upd(store, address, value) => Some(mixed(
            6,
            label(labels, store),
            label(labels, address),
            label(labels, value),
        )),
        Term::Op(op, left, right) => Some(mixed(
            operator_number(op),
            label(labels, left),
            label(labels, right),
            0,
        )),
        Term::Kind(value) => Some(mixed(7, label(labels, value), 0, 0)),
        Term::Una(store, value) => Some(mixed(8, label(labels, store), label(labels, value), 0)),
        _ => None,
    }
}

/// The bucket of a term with parts.
fn bucket(labels: &[u32], term: Term) -> Option<usize>
    ensures value { result ≡ bucket_of labels.now term }
    ensures within { IfSome result (λ bucket. bucket < BUCKETS) }
{
    match key(labels, term) {
        Some(key) => Some(key % BUCKETS),
        None => None,
    }
}

/// Puts a place at the head of its chain, and gives the link to the rest of the chain.
fn enter(terms: &[Term], labels: &[u32], heads: &mut [u32], links: &mut [u32], place: usize) -> u32
    requires list { IsTermList terms.now }
    requires few { length terms.now < 2 ^ 32 }
    requires place { place < length terms.now }
    requires heads { length heads.old ≡ BUCKETS }
    requires links { length links.old ≡ length terms.now }
    requires chained { AreChained terms.now labels.now heads.old links.old place }
    ensures chained { AreChained terms.now labels.now heads.new links.new (place + 1) }
    ensures reached { IsReached terms.now labels.now place result }
{
    let Some(bucket) = bucket(labels, terms[place]) else {
        return 0;
    };
    let rest = heads[bucket];
    links[place] = rest;
    heads[bucket] = place as u32 + 1;
    rest
}

/// The last place along a chain whose term is congruent to the one at a place.
fn alike(terms: &[Term], labels: &[u32], links: &[u32], place: usize, from: u32) -> Option<u32>
    requires few { length terms.now < 2 ^ 32 }
    requires place { place < length terms.now }
    requires links { length links.now ≡ length terms.now }
    requires linked { AreLinked terms.now labels.now links.now place }
    requires reached { IsReached terms.now labels.now place from }
    ensures found { IfSome result (IsAlike terms.now labels.now place) }
    ensures none { IfNone result (IsNew terms.now labels.now place 0) }
{
    let term = terms[place];
    let mut link = from;
    while link > 0 {
        let earlier = link - 1;
        if are_congruent(labels, term, terms[earlier as usize]) {
            return Some(earlier);
        }
        link = links[earlier as usize];
    }
    None
}

/// An earlier place in another class whose term is congruent to the one at a place, where the places
/// before agree among themselves.
fn apart_from(terms: &[Term], labels: &[u32], links: &[u32], place: usize, from: u32) -> Option<u32>
    requires few { length terms.now < 2 ^ 32 }
    requires place { place < length terms.now }
    requires links { length links.now ≡ length terms.now }
    requires linked { AreLinked terms.now labels.now links.now place }
    requires reached { IsReached terms.now labels.now place from }
    requires agree { (i : ℕ) → i < place → AgreesBefore terms.now labels.now i i }
    ensures found { IfSome result (λ earlier. IsApart terms.now labels.now place earlier) }
    ensures none { IfNone result (AgreesBefore terms.now labels.now place place) }
{
    match alike(terms, labels, links, place, from) {
        Some(earlier) => unless_joined(terms, labels, place, earlier),
        None => None,
    }
}

/// An earlier place, where it is in another class.
fn unless_joined(terms: &[Term], labels: &[u32], place: usize, earlier: u32) -> Option<u32>
    requires few { length terms.now < 2 ^ 32 }
    requires place { place < length terms.now }
    requires alike { IsAlike terms.now labels.now place earlier }
    requires agree { (i : ℕ) → i < place → AgreesBefore terms.now labels.now i i }
    ensures found { IfSome result (λ earlier. IsApart terms.now labels.now place earlier) }
    ensures none { IfNone result (AgreesBefore terms.now labels.now place place) }
{
    if joined(labels, place as u32, earlier) {
        None
    } else {
        Some(earlier)
    }
}

/// Two congruent terms in different classes, found by one pass over the terms. The heads and the links
/// are room to work in: what stands in them does not matter.
pub fn find_apart(
    terms: &[Term],
    labels: &[u32],
    heads: &mut [u32],
    links: &mut [u32],
) -> Option<(u32, u32)>
    requires list { IsTermList terms.now }
    requires few { length terms.now < 2 ^ 32 }
    requires heads { length heads.old ≡ BUCKETS }
    requires links { length links.old ≡ length terms.now }
    ensures found { IfSome result (λ pair. IsApart terms.now labels.now pair.0 pair.1) }
    ensures none { IfNone result (IsCongruent terms.now (joined labels.now)) }
{
    heads.fill(0);
    for place in 0..terms.len() {
        let from = enter(terms, labels, heads, links, place);
        if let Some(earlier) = apart_from(terms, labels, links, place, from) {
            return Some((place as u32, earlier));
        }
    }
    None
}
