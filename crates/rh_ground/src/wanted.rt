//! What a search for bindings looks for.
ghost use Rattle.std.specs.Prelude.{◌≡◌, Bool, IfSome};
ghost use Rattle.rh_domain.specs.Binding.{Binding};
ghost use Rattle.rh_ground.specs.Fixed.{Fixes};

use rh_rule::Arg;

/// What a search looks for.
pub trait Wanted {
    // whether a binding is wanted
    ghost accepts: { Self → Binding → Bool };

    /// Whether a binding is wanted.
    fn accepts(&self, binding: &[Arg]) -> bool
        ensures { result ≡ accepts self.now binding.now };

    /// What a metavariable is bound to in every wanted binding, where that is known.
    fn fixed(&self, meta: u32) -> Option<Arg>
        ensures { IfSome result (Fixes (accepts self.now) meta) };
}
