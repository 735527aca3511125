//! The first binding that is wanted. Begin with `first_binding`.
ghost use Rattle.std.specs.Prelude.{◌≡◌, ◌+◌, ◌<◌, ◌≤◌, ◌++◌, ◌∷◌, [], Some, length, slice_get};
ghost use Rattle.std.specs.List.{find};
ghost use Rattle.rh_rule.specs.declared.rule.Arg.{Arg};
ghost use Rattle.rh_domain.specs.Binding.{args_in, bindings_in};
ghost use Rattle.rh_domain.specs.Count.{IsSmall};
ghost use Rattle.rh_ground.specs.Find.{FindsArgs, args_to_try, between};

use crate::wanted::Wanted;
use rh_domain::{Args, Domain};
use rh_rule::{Arg, Kind, Param};

/// The first wanted binding of parameters to variables and constants, in their order. A metavariable that is fixed
/// is not enumerated.
pub fn first_binding<W: Wanted>(domain: &Domain, params: &[Param], wanted: &W) -> Option<Args>
    requires small { IsSmall domain.now }
    requires few { length params.now ≤ 6 }
    ensures { result ≡ find (W.accepts wanted.now) (bindings_in domain.now params.now) }
{
    let mut args = Args::new();
    if extend(domain, params, wanted, &mut args) {
        Some(args)
    } else {
        None
    }
}

/// Adds the first arguments of the parameters that are left with which the binding is wanted, or nothing where there
/// are none.
fn extend<W: Wanted>(domain: &Domain, params: &[Param], wanted: &W, args: &mut Args) -> bool
    requires small { IsSmall domain.now }
    requires room { length args.old + length params.now ≤ 6 }
    ensures { FindsArgs domain.now params.now (W.accepts wanted.now) args.old result args.new }
{
    let Some((param, others)) = params.split_first() else {
        return wanted.accepts(args.as_slice());
    };
    let meta = args.len();
    let (first, end) = numbers_to_try(domain, param.kind, wanted.fixed(meta as u32));
    for number in first..end {
        push_arg(domain, param.kind, number, args);
        if extend(domain, others, wanted, args) {
            return true;
        }
        args.truncate(meta);
    }
    false
}

/// The numbers of the arguments to be tried, from the first number up to the second: of all of a kind, or of the one
/// that is fixed.
pub(crate) fn numbers_to_try(domain: &Domain, kind: Kind, fixed: Option<Arg>) -> (u32, u32)
    requires small { IsSmall domain.now }
    ensures all { between result.0 result.1 (args_in domain.now kind) ≡ args_to_try fixed (args_in domain.now kind) }
    ensures within { result.1 ≤ length (args_in domain.now kind) }
{
    let count = domain.count(kind);
    match fixed {
        None => (0, count),
        Some(arg) => match domain.number_of(kind, arg) {
            Some(number) => (number, number + 1),
            None => (0, 0),
        },
    }
}

/// Adds the argument of a kind with a number.
pub(crate) fn push_arg(domain: &Domain, kind: Kind, number: u32, args: &mut Args)
    requires room { length args.old < 6 }
    requires within { number < length (args_in domain.now kind) }
    ensures { (arg : Arg) × (slice_get (args_in domain.now kind) number ≡ Some arg) × (args.new ≡ args.old ++ arg ∷ []) }
{
    if let Some(arg) = domain.arg(kind, number) {
        args.push(arg);
    }
}
