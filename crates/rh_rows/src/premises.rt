//! Whether the premises of a rule are known: whether their bits are in a set.
ghost use Rattle.std.specs.Prelude.{◌≡◌};
ghost use Rattle.std.specs.List.{list_all};
ghost use Rattle.rh_ground.specs.Instance.{fact_under};
ghost use Rattle.rh_ground.specs.Rows.{edges_before, on_edges, premises_at};
ghost use Rattle.rh_rows.specs.Known.{known_by, known_on};

use crate::site::Site;
use rh_ground::args_under;
use rh_rule::{Arg, FactUse, Rule};
use rh_system::BitTest;

/// Whether a fact is known on the edge with a number.
fn known_on<T: BitTest>(site: &Site, known: &T, schema: u32, args: &[Arg], edge: u32) -> bool
    ensures { result ≡ known_on site.now.schemas.now site.now.program.now (T.holds known.now) site.now.place site.now.proc.now (record { schema = schema; args = args.now }) edge }
{
    match site
        .layout
        .bit_of(site.schemas, site.place, edge, schema, args)
    {
        Some(bit) => known.has(bit),
        None => false,
    }
}

/// Whether a fact is known on each of the edges with these numbers.
fn known_on_all<T: BitTest>(
    site: &Site,
    known: &T,
    schema: u32,
    args: &[Arg],
    edges: &[u32],
) -> bool
    ensures { result ≡ list_all (known_on site.now.schemas.now site.now.program.now (T.holds known.now) site.now.place site.now.proc.now (record { schema = schema; args = args.now })) edges.now }
{
    edges
        .iter()
        .all(|edge| known_on(site, known, schema, args, *edge))
}

/// Whether a premise under a binding is known on every edge that enters the node. No fact of a program has more than
/// six arguments.
fn premise_known<T: BitTest>(site: &Site, known: &T, binding: &[Arg], premise: &FactUse) -> bool
    ensures { result ≡ list_all (known_by site.now.schemas.now site.now.program.now (T.holds known.now)) (on_edges site.now.place (edges_before site.now.proc.now site.now.node) (fact_under binding.now premise.now)) }
{
    match args_under(binding, premise.args.as_slice()) {
        Some(args) => known_on_all(site, known, premise.schema, args.as_slice(), site.entering),
        None => site.entering.is_empty(),
    }
}

fn are_known<T: BitTest>(site: &Site, known: &T, binding: &[Arg], premises: &[FactUse]) -> bool
    ensures { result ≡ list_all (λ premise. list_all (known_by site.now.schemas.now site.now.program.now (T.holds known.now)) (on_edges site.now.place (edges_before site.now.proc.now site.now.node) (fact_under binding.now premise))) premises.now }
{
    premises
        .iter()
        .all(|premise| premise_known(site, known, binding, premise))
}

/// Whether each premise of a rule under a binding is known on every edge that enters the node.
pub(crate) fn premises_known<T: BitTest>(
    site: &Site,
    known: &T,
    rule: &Rule,
    binding: &[Arg],
) -> bool
    ensures { result ≡ list_all (known_by site.now.schemas.now site.now.program.now (T.holds known.now)) (premises_at site.now.place site.now.proc.now rule.now binding.now site.now.node) }
{
    are_known(site, known, binding, rule.premises.as_slice())
}
