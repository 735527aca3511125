//! The list with all terms to which its terms lead.
ghost use Rattle.std.specs.Prelude.{◌≡◌, ◌+◌, ◌<◌, ◌^◌, length, IfOk, IsSome, OnOk, fold, slice_get};
ghost use Rattle.rh_meaning.specs.Tree.{with_term};
ghost use Rattle.rh_oblig.specs.TermList.{AreFit, closed, terms_from};
ghost use Rattle.rh_term.specs.Term.{IsTermList};

use rh_il::Value;
use rh_meaning::add;
use rh_term::{Term, Terms};
use std::alloc::{AllocError, Global};

/// Puts behind the list all terms to which its terms lead, and those to which these lead.
pub(crate) fn close(alloc: Global, terms: &mut Terms) -> Result<(), AllocError>
    requires { length (closed terms.old) + 2 < 2 ^ 32 }
    ensures { OnOk result (terms.new ≡ closed terms.old) }
{
    for place in 0..4 * u64::from(terms.len()) {
        let Some(term) = get(terms, place) else {
            break;
        };
        add_all(
            terms,
            terms_from(alloc, terms, place as u32, term)?.as_slice(),
        )?;
    }
    Ok(())
}

/// The term at a place, which may be past all that a list can have.
fn get(terms: &Terms, place: u64) -> Option<Term>
    ensures value { result ≡ slice_get terms.now place }
    ensures small { IsSome result → place < 2 ^ 32 }
    ensures list { IsTermList terms.now }
{
    terms.as_slice().get(place as usize).copied()
}

/// The terms to which the term at a place leads.
fn terms_from(alloc: Global, terms: &Terms, place: u32, term: Term) -> Result<Vec<Term>, AllocError>
    ensures { IfOk result (λ others. others.items ≡ terms_from terms.now place term) }
{
    match term {
        Term::Num(_) | Term::Cst(_) | Term::Addr(_) | Term::Any | Term::Fresh | Term::Answer => {
            Ok(vec![in alloc; Term::Kind(place)]?)
        }
        Term::Sel(store, address) => match terms.get(store) {
            Some(Term::Upd(below, _, _)) => Ok(vec![in alloc;
                Term::Kind(place),
                Term::Sel(below, address),
            ]?),
            _ => Ok(vec![in alloc; Term::Kind(place)]?),
        },
        Term::Op(op, left, right) => match (terms.get(left), terms.get(right)) {
            (Some(Term::Num(a)), Some(Term::Num(b))) => match op.total(
                Value::Num(a),
                Value::Num(b),
            ) {
                Value::Num(number) => Ok(vec![in alloc; Term::Kind(place), Term::Num(number)]?),
                Value::Ptr(_) => unreachable!(),
            },
            _ => Ok(vec![in alloc; Term::Kind(place)]?),
        },
        Term::Upd(store, address, _) => Ok(vec![in alloc; Term::Sel(store, address)]?),
        Term::Una(store, value) => match terms.get(store) {
            Some(Term::Upd(below, _, _)) => Ok(vec![in alloc; Term::Una(below, value)]?),
            _ => Ok(Vec::new(alloc)),
        },
        _ => Ok(Vec::new(alloc)),
    }
}

pub(crate) fn add_all(terms: &mut Terms, others: &[Term]) -> Result<(), AllocError>
    requires fit { AreFit terms.old others.now }
    requires room { length terms.old + length others.now < 2 ^ 32 }
    ensures { OnOk result (terms.new ≡ fold with_term terms.old others.now) }
{
    for other in others {
        add(terms, *other)?;
    }
    Ok(())
}
