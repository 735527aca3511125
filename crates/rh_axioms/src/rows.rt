//! What each schema gives for a term of the list, with its place.
ghost use Rattle.std.specs.Prelude.{◌≡◌, pos};
ghost use Rattle.rh_axioms.specs.Rows.{read_back, read_before, write_nothing_new, kinds_differ, unit_on_the_right, unit_on_the_left, zero_on_the_right, zero_on_the_left, same_operands, different_operands, other_order, commutes, unheld_after, numbers_differ, unheld_unread};
ghost use Rattle.rh_axioms.specs.Parts.{operands};

use crate::instance::{Instance, differ, equal};
use crate::parts::{as_num, as_op, as_sel, as_una, as_upd};
use rh_il::Op;
use rh_term::{Term, Terms};

pub fn read_back(terms: &Terms, place: u32, term: Term) -> Option<Instance>
    ensures { result ≡ read_back terms.now place term }
{
    let (store, read) = as_sel(term)?;
    let (_, written, value) = as_upd(terms.get(store)?)?;
    let kind = terms.find(Term::Kind(written))?;
    let is_ptr = terms.find(Term::IsPtr)?;
    Some(Instance::Three(
        differ(written, read),
        differ(kind, is_ptr),
        equal(place, value),
    ))
}

pub fn read_before(terms: &Terms, place: u32, term: Term) -> Option<Instance>
    ensures { result ≡ read_before terms.now place term }
{
    let (store, read) = as_sel(term)?;
    let (old, written, _) = as_upd(terms.get(store)?)?;
    let before = terms.find(Term::Sel(old, read))?;
    Some(Instance::Two(equal(written, read), equal(place, before)))
}

pub fn write_nothing_new(terms: &Terms, place: u32, term: Term) -> Option<Instance>
    ensures { result ≡ write_nothing_new terms.now place term }
{
    let (store, written, value) = as_upd(term)?;
    let held = terms.find(Term::Sel(store, written))?;
    Some(Instance::Two(differ(value, held), equal(place, store)))
}

pub fn kinds_differ(terms: &Terms) -> Option<Instance>
    ensures { result ≡ kinds_differ terms.now }
{
    let is_num = terms.find(Term::IsNum)?;
    let is_ptr = terms.find(Term::IsPtr)?;
    Some(Instance::One(differ(is_num, is_ptr)))
}

/// The operands, where the term is of this operator.
fn operands(op: Op, term: Term) -> Option<(u32, u32)>
    ensures { result ≡ operands op term }
{
    let (found, left, right) = as_op(term)?;
    if found == op {
        Some((left, right))
    } else {
        None
    }
}

pub fn unit_on_the_right(
    op: Op,
    unit: i64,
    terms: &Terms,
    place: u32,
    term: Term,
) -> Option<Instance>
    ensures { result ≡ unit_on_the_right op unit terms.now place term }
{
    let (left, right) = operands(op, term)?;
    let number = terms.find(Term::Num(unit))?;
    let kind = terms.find(Term::Kind(left))?;
    let is_num = terms.find(Term::IsNum)?;
    Some(Instance::Three(
        differ(right, number),
        differ(kind, is_num),
        equal(place, left),
    ))
}

pub fn unit_on_the_left(
    op: Op,
    unit: i64,
    terms: &Terms,
    place: u32,
    term: Term,
) -> Option<Instance>
    ensures { result ≡ unit_on_the_left op unit terms.now place term }
{
    let (left, right) = operands(op, term)?;
    let number = terms.find(Term::Num(unit))?;
    let kind = terms.find(Term::Kind(right))?;
    let is_num = terms.find(Term::IsNum)?;
    Some(Instance::Three(
        differ(left, number),
        differ(kind, is_num),
        equal(place, right),
    ))
}

pub fn zero_on_the_right(terms: &Terms, place: u32, term: Term) -> Option<Instance>
    ensures { result ≡ zero_on_the_right terms.now place term }
{
    let (_, right) = operands(Op::Mul, term)?;
    let zero = terms.find(Term::Num(0))?;
    Some(Instance::Two(differ(right, zero), equal(place, zero)))
}

pub fn zero_on_the_left(terms: &Terms, place: u32, term: Term) -> Option<Instance>
    ensures { result ≡ zero_on_the_left terms.now place term }
{
    let (left, _) = operands(Op::Mul, term)?;
    let zero = terms.find(Term::Num(0))?;
    Some(Instance::Two(differ(left, zero), equal(place, zero)))
}

pub fn same_operands(
    op: Op,
    outcome: i64,
    terms: &Terms,
    place: u32,
    term: Term,
) -> Option<Instance>
    ensures { result ≡ same_operands op outcome terms.now place term }
{
    let (left, right) = operands(op, term)?;
    let number = terms.find(Term::Num(outcome))?;
    Some(Instance::Two(differ(left, right), equal(place, number)))
}

pub fn different_operands(terms: &Terms, place: u32, term: Term) -> Option<Instance>
    ensures { result ≡ different_operands terms.now place term }
{
    let (left, right) = operands(Op::Equal, term)?;
    let zero = terms.find(Term::Num(0))?;
    Some(Instance::Two(equal(left, right), equal(place, zero)))
}

pub fn other_order(terms: &Terms, place: u32, term: Term) -> Option<Instance>
    ensures { result ≡ other_order terms.now place term }
{
    let (op, left, right) = as_op(term)?;
    if !commutes(op) {
        return None;
    }
    let later = terms.find(Term::Op(op, right, left))?;
    if place < later {
        Some(Instance::One(equal(place, later)))
    } else {
        None
    }
}

fn commutes(op: Op) -> bool
    ensures { result ≡ commutes op }
{
    match op {
        Op::Add | Op::Mul | Op::Equal => true,
        Op::Sub | Op::Less => false,
    }
}

pub fn unheld_after(terms: &Terms, place: u32, term: Term) -> Option<Instance>
    ensures { result ≡ unheld_after terms.now place term }
{
    let (store, unheld) = as_una(term)?;
    let (old, _, value) = as_upd(terms.get(store)?)?;
    let before = terms.find(Term::Una(old, unheld))?;
    let yes = terms.find(Term::Yes)?;
    Some(Instance::Three(differ(before, yes), equal(value, unheld), equal(place, yes)))
}

pub fn numbers_differ(place: u32, later: u32, term: Term) -> Option<Instance>
    ensures { result ≡ numbers_differ place later term }
{
    let _number = as_num(term)?;
    if place < later {
        Some(Instance::One(differ(place, later)))
    } else {
        None
    }
}

pub fn unheld_unread(
    terms: &Terms,
    place: u32,
    unheld: (u32, u32),
    at: u32,
    read: (u32, u32),
) -> Option<Instance>
    ensures { result ≡ unheld_unread terms.now place unheld at read }
{
    if read.0 != unheld.0 {
        return None;
    }
    let yes = terms.find(Term::Yes)?;
    Some(Instance::Two(differ(place, yes), differ(at, unheld.1)))
}
