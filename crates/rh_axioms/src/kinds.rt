//! The schemas of kinds.
ghost use Rattle.std.specs.Prelude.{◌≡◌};
ghost use Rattle.rh_axioms.specs.Rows.{number_kind, constant_kind, address_kind, operation_kind, kind_of};

use crate::instance::{Instance, equal};
use crate::parts::as_kind;
use rh_term::{Term, Terms};

#[tactic(auto, using(crate::proofs::Others::no_number_kind))]
fn number_kind(term: Term) -> Option<Term>
    ensures { result ≡ number_kind term }
{
    match term {
        Term::Num(_) => Some(Term::IsNum),
        _ => None,
    }
}

#[tactic(auto, using(crate::proofs::Others::no_constant_kind))]
fn constant_kind(term: Term) -> Option<Term>
    ensures { result ≡ constant_kind term }
{
    match term {
        Term::Cst(_) => Some(Term::IsNum),
        _ => None,
    }
}

#[tactic(auto, using(crate::proofs::Others::no_address_kind))]
fn address_kind(term: Term) -> Option<Term>
    ensures { result ≡ address_kind term }
{
    match term {
        Term::Addr(_) => Some(Term::IsPtr),
        _ => None,
    }
}

#[tactic(auto, using(crate::proofs::Others::no_operation_kind))]
fn operation_kind(term: Term) -> Option<Term>
    ensures { result ≡ operation_kind term }
{
    match term {
        Term::Op(_, _, _) => Some(Term::IsNum),
        _ => None,
    }
}

// `Kind(t)`, where the schema says the kind of t
macro_rules! kind_of {
    ($kind:ident, $terms:ident, $place:ident, $term:ident) => {{
        let value = as_kind($term)?;
        let sort = $kind($terms.get(value)?)?;
        Some(Instance::One(equal($place, $terms.find(sort)?)))
    }};
}

pub fn kind_of_number(terms: &Terms, place: u32, term: Term) -> Option<Instance>
    ensures { result ≡ kind_of number_kind terms.now place term }
{
    kind_of!(number_kind, terms, place, term)
}

pub fn kind_of_constant(terms: &Terms, place: u32, term: Term) -> Option<Instance>
    ensures { result ≡ kind_of constant_kind terms.now place term }
{
    kind_of!(constant_kind, terms, place, term)
}

pub fn kind_of_address(terms: &Terms, place: u32, term: Term) -> Option<Instance>
    ensures { result ≡ kind_of address_kind terms.now place term }
{
    kind_of!(address_kind, terms, place, term)
}

pub fn kind_of_operation(terms: &Terms, place: u32, term: Term) -> Option<Instance>
    ensures { result ≡ kind_of operation_kind terms.now place term }
{
    kind_of!(operation_kind, terms, place, term)
}
