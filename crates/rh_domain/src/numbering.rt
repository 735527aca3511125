//! Arguments of parameters by their number among all that there are: numbers of mixed radix, with an argument's
//! number among those of its kind as a digit.
ghost use Rattle.std.specs.Prelude.{ℕ, List, ◌≡◌, ◌≢◌, ◌*◌, ◌+◌, ◌<◌, ◌≤◌, ◌^◌, ◌++◌, [], Some, length, slice_get, IfSome, IfNone};
ghost use Rattle.rh_rule.specs.declared.rule.Arg.{Arg};
ghost use Rattle.rh_domain.specs.Binding.{args_in, bindings_in};
ghost use Rattle.rh_domain.specs.Count.{IsSmall, binding_count};

use crate::args::Args;
use crate::domain::Domain;
use rh_rule::{Arg, Param};

/// How many bindings there are of parameters.
pub(crate) fn binding_count(domain: &Domain, params: &[Param]) -> u128
    requires small { IsSmall domain.now }
    requires few { length params.now ≤ 6 }
    ensures { result ≡ binding_count domain.now params.now }
{
    match params.split_first() {
        Some((param, others)) => {
            u128::from(domain.count(param.kind)) * binding_count(domain, others)
        }
        None => 1,
    }
}

/// The number of arguments among the bindings of parameters, where they are one of them, and how many bindings
/// there are.
pub(crate) fn number_of(domain: &Domain, params: &[Param], args: &[Arg]) -> Option<(u32, u32)>
    requires small { IsSmall domain.now }
    requires few { binding_count domain.now params.now ≤ 65536 }
    ensures found { IfSome result (λ at. slice_get (bindings_in domain.now params.now) at.0 ≡ Some args.now) }
    ensures count { IfSome result (λ at. at.1 ≡ binding_count domain.now params.now) }
    ensures none { IfNone result ((number : ℕ) → slice_get (bindings_in domain.now params.now) number ≢ Some args.now) }
{
    let Some((param, other_params)) = params.split_first() else {
        return if args.is_empty() { Some((0, 1)) } else { None };
    };
    let Some((arg, other_args)) = args.split_first() else {
        return None;
    };
    let Some(digit) = domain.number_of(param.kind, *arg) else {
        return None;
    };
    let Some((number, count)) = number_of(domain, other_params, other_args) else {
        return None;
    };
    Some((digit * count + number, domain.count(param.kind) * count))
}

/// Adds the arguments with a number among so many bindings of parameters.
pub(crate) fn push_args(domain: &Domain, params: &[Param], count: u32, number: u32, args: &mut Args)
    requires small { IsSmall domain.now }
    requires room { length args.old + length params.now ≤ 6 }
    requires count { count ≡ binding_count domain.now params.now }
    requires below { number < count }
    ensures { (more : List Arg) × (args.new ≡ args.old ++ more) × (slice_get (bindings_in domain.now params.now) number ≡ Some more) }
{
    if let Some((param, others)) = params.split_first() {
        let stride = count / domain.count(param.kind);
        if let Some(arg) = domain.arg(param.kind, number / stride) {
            args.push(arg);
            push_args(domain, others, stride, number % stride, args);
        }
    }
}
