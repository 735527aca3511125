//! Which terms are congruent.
ghost use Rattle.std.specs.Prelude.{◌≡◌, ◌<◌, ◌^◌, ◌↔◌, IsTrue, IfSome, IfNone, length, slice_index};
ghost use Rattle.rh_term.specs.Partition.{joined, Congruent, IsCongruent};
ghost use Rattle.rh_classes.specs.Merge.{IsApart, AgreesBefore};

use rh_term::Term;

/// The label of a place.
pub fn label(labels: &[u32], place: u32) -> u32
    ensures { result ≡ slice_index labels.now place }
{
    labels.get(place as usize).copied().unwrap_or(0)
}

/// Whether two places are in one class.
pub fn joined(labels: &[u32], left: u32, right: u32) -> bool
    ensures { result ≡ joined labels.now left right }
{
    label(labels, left) == label(labels, right)
}

/// Whether two terms have one head, and parts that are pairwise in one class.
pub fn are_congruent(labels: &[u32], left: Term, right: Term) -> bool
    ensures { IsTrue result ↔ Congruent (joined labels.now) left right }
{
    match left {
        Term::Sel(s, a) => match right {
            Term::Sel(t, b) => joined(labels, s, t) && joined(labels, a, b),
            _ => false,
        },
        Term::Upd(s, a, v) => match right {
            Term::Upd(t, b, w) => {
                joined(labels, s, t) && joined(labels, a, b) && joined(labels, v, w)
            }
            _ => false,
        },
        Term::Op(o, a, b) => match right {
            Term::Op(p, c, d) => o == p && joined(labels, a, c) && joined(labels, b, d),
            _ => false,
        },
        Term::Kind(a) => match right {
            Term::Kind(b) => joined(labels, a, b),
            _ => false,
        },
        Term::Una(s, a) => match right {
            Term::Una(t, b) => joined(labels, s, t) && joined(labels, a, b),
            _ => false,
        },
        _ => left == right,
    }
}

/// An earlier place than `place` whose term is congruent to the one there and in another class.
fn earlier_apart(terms: &[Term], labels: &[u32], place: usize) -> Option<u32>
    requires place { place < length terms.now }
    requires few { length terms.now < 2 ^ 32 }
    ensures found { IfSome result (λ earlier. IsApart terms.now labels.now place earlier) }
    ensures none { IfNone result (AgreesBefore terms.now labels.now place place) }
{
    let term = terms[place];
    for earlier in 0..place {
        if are_congruent(labels, term, terms[earlier])
            && !joined(labels, place as u32, earlier as u32)
        {
            return Some(earlier as u32);
        }
    }
    None
}

/// Two congruent terms in different classes.
pub fn apart(terms: &[Term], labels: &[u32]) -> Option<(u32, u32)>
    requires { length terms.now < 2 ^ 32 }
    ensures found { IfSome result (λ pair. IsApart terms.now labels.now pair.0 pair.1) }
    ensures none { IfNone result (IsCongruent terms.now (joined labels.now)) }
{
    for place in 0..terms.len() {
        if let Some(earlier) = earlier_apart(terms, labels, place) {
            return Some((place as u32, earlier));
        }
    }
    None
}
