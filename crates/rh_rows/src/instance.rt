//! The first instance of a rule whose premises are known.
ghost use Rattle.std.specs.Prelude.{◌≡◌, ◌≤◌, ◌&&◌, length};
ghost use Rattle.std.specs.List.{find, list_all};
ghost use Rattle.rh_domain.specs.Binding.{bindings};
ghost use Rattle.rh_ground.specs.Instance.{is_instance};
ghost use Rattle.rh_ground.specs.Rows.{premises_at};
ghost use Rattle.rh_rows.specs.Known.{known_by};

use crate::premises::premises_known;
use crate::site::Site;
use rh_domain::Args;
use rh_ground::{Wanted, first_binding, fixed_by_rule, is_instance};
use rh_rule::{Arg, Rule};
use rh_system::BitTest;

/// Looks for bindings under which a rule is about the node of a site, and its premises are known.
#[derive(Drop)]
struct KnownInstance<'a, T> {
    site: Site<'a>,
    rule: &'a Rule,
    known: &'a T,
}

impl<T: BitTest> Wanted for KnownInstance<'_, T> {
    ghost accepts = { λ wanted binding. is_instance wanted.site.proc.now wanted.rule.now binding wanted.site.node && list_all (known_by wanted.site.schemas.now wanted.site.program.now (T.holds wanted.known.now)) (premises_at wanted.site.place wanted.site.proc.now wanted.rule.now binding wanted.site.node) };

    fn accepts(&self, binding: &[Arg]) -> bool {
        let site = &self.site;
        is_instance(site.proc, site.domain, self.rule, binding, site.node)
            && premises_known(site, self.known, self.rule, binding)
    }

    fn fixed(&self, meta: u32) -> Option<Arg> {
        fixed_by_rule(self.site.proc, self.rule, self.site.node, meta)
    }
}

/// The first binding under which a rule is about the node, and under which each of its premises is known on every edge
/// that enters the node.
pub(crate) fn first_known<T: BitTest>(site: &Site, known: &T, rule: &Rule) -> Option<Args>
    requires { length rule.now.params ≤ 6 }
    ensures { result ≡ find (λ binding. is_instance site.now.proc.now rule.now binding site.now.node && list_all (known_by site.now.schemas.now site.now.program.now (T.holds known.now)) (premises_at site.now.place site.now.proc.now rule.now binding site.now.node)) (bindings site.now.proc.now rule.now.params) }
{
    let wanted = KnownInstance {
        site: *site,
        rule,
        known,
    };
    first_binding(site.domain, rule.params.as_slice(), &wanted)
}
