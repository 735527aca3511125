//! The parts of a term, where it has a certain head.
ghost use Rattle.std.specs.Prelude.{◌≡◌};
ghost use Rattle.rh_axioms.specs.Parts.{as_num, as_sel, as_upd, as_op, as_kind, as_una};

use rh_il::Op;
use rh_term::Term;

#[tactic(auto, using(crate::proofs::Others::no_num))]
pub fn as_num(term: Term) -> Option<i64>
    ensures { result ≡ as_num term }
{
    match term {
        Term::Num(number) => Some(number),
        _ => None,
    }
}

#[tactic(auto, using(crate::proofs::Others::no_sel))]
pub fn as_sel(term: Term) -> Option<(u32, u32)>
    ensures { result ≡ as_sel term }
{
    match term {
        Term::Sel(store, address) => Some((store, address)),
        _ => None,
    }
}

#[tactic(auto, using(crate::proofs::Others::no_upd))]
pub fn as_upd(term: Term) -> Option<(u32, u32, u32)>
    ensures { result ≡ as_upd term }
{
    match term {
        Term::Upd(store, address, value) => Some((store, address, value)),
        _ => None,
    }
}

#[tactic(auto, using(crate::proofs::Others::no_op))]
pub fn as_op(term: Term) -> Option<(Op, u32, u32)>
    ensures { result ≡ as_op term }
{
    match term {
        Term::Op(op, left, right) => Some((op, left, right)),
        _ => None,
    }
}

#[tactic(auto, using(crate::proofs::Others::no_kind))]
pub fn as_kind(term: Term) -> Option<u32>
    ensures { result ≡ as_kind term }
{
    match term {
        Term::Kind(value) => Some(value),
        _ => None,
    }
}

#[tactic(auto, using(crate::proofs::Others::no_una))]
pub fn as_una(term: Term) -> Option<(u32, u32)>
    ensures { result ≡ as_una term }
{
    match term {
        Term::Una(store, value) => Some((store, value)),
        _ => None,
    }
}
