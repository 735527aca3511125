//! Visits to all wanted bindings. Begin with `visit_bindings`.
ghost use Rattle.std.specs.Prelude.{◌≡◌, ◌+◌, ◌≤◌, ◌++◌, ◌∷◌, [], length, map};
ghost use Rattle.rh_domain.specs.Binding.{Binding, bindings_in};
ghost use Rattle.rh_domain.specs.Count.{IsSmall};
ghost use Rattle.rh_ground.specs.Find.{AreToTry};
ghost use Rattle.rh_ground.specs.Visit.{VisitsWanted};

use crate::find::push_arg;
use crate::ranges::{Ranges, ranges_to_try};
use crate::wanted::Wanted;
use rh_domain::{Args, Domain};
use rh_rule::{Arg, Param};

/// What is done with each wanted binding.
pub trait Visitor: Wanted {
    /// What the visits change.
    type Kept;

    // what a visit to a binding may make of it
    ghost visits: { Self → Binding → Self.Kept → Self.Kept → Type 0 };

    /// Visits a binding.
    fn visit(&self, binding: &[Arg], kept: &mut Self::Kept)
        ensures { visits self.now binding.now kept.old kept.new };
}

/// Visits all wanted bindings of parameters to variables and constants. A metavariable that is fixed is not enumerated.
pub fn visit_bindings<V: Visitor>(
    domain: &Domain,
    params: &[Param],
    visitor: &V,
    kept: &mut V::Kept,
)
    requires small { IsSmall domain.now }
    requires few { length params.now ≤ 6 }
    ensures { VisitsWanted (V.visits visitor.now) (V.accepts visitor.now) (bindings_in domain.now params.now) kept.old kept.new }
{
    let ranges = ranges_to_try(domain, params, visitor);
    visit_after(domain, params, &ranges, visitor, &mut Args::new(), kept);
}

/// Visits all wanted bindings that begin with the arguments that are there, by the ranges of all parameters.
fn visit_after<V: Visitor>(
    domain: &Domain,
    params: &[Param],
    ranges: &Ranges,
    visitor: &V,
    args: &mut Args,
    kept: &mut V::Kept,
)
    requires small { IsSmall domain.now }
    requires room { length args.old + length params.now ≤ 6 }
    requires ranges { AreToTry domain.now (V.accepts visitor.now) (length args.old) params.now ranges.now }
    ensures args { args.new ≡ args.old }
    ensures visited { VisitsWanted (V.visits visitor.now) (V.accepts visitor.now) (map (λ rest. args.old ++ rest) (bindings_in domain.now params.now)) kept.old kept.new }
{
    let Some((param, others)) = params.split_first() else {
        visit_wanted(visitor, args.as_slice(), kept);
        return;
    };
    let meta = args.len();
    let (first, end) = ranges.at(meta);
    for number in first..end {
        push_arg(domain, param.kind, number, args);
        visit_after(domain, others, ranges, visitor, args, kept);
        args.truncate(meta);
    }
}

/// Visits a binding if it is wanted.
fn visit_wanted<V: Visitor>(visitor: &V, binding: &[Arg], kept: &mut V::Kept)
    ensures { VisitsWanted (V.visits visitor.now) (V.accepts visitor.now) (binding.now ∷ []) kept.old kept.new }
{
    if visitor.accepts(binding) {
        visitor.visit(binding, kept);
    }
}
