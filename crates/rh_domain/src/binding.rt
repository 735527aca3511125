//! What metavariables are bound to.
ghost use Rattle.std.specs.Prelude.{◌≡◌};
ghost use Rattle.rh_domain.specs.Binding.{arg_under, as_base, as_variable, base_under, bound, variable_under};

use rh_il::Base;
use rh_rule::{Arg, RuleBase};

/// What a metavariable is bound to.
pub fn bound(binding: &[Arg], meta: u32) -> Arg
    ensures { result ≡ bound binding.now meta }
{
    binding.get(meta as usize).copied().unwrap_or(Arg::Const(0))
}

/// The operand of a statement that an argument is.
pub fn as_base(arg: Arg) -> Base
    ensures { result ≡ as_base arg }
{
    match arg {
        Arg::Var(number) => Base::Var(number),
        Arg::Const(number) => Base::Num(number),
    }
}

fn as_variable(arg: Arg) -> u32
    ensures { result ≡ as_variable arg }
{
    match arg {
        Arg::Var(number) => number,
        Arg::Const(_) => 0,
    }
}

pub fn arg_under(binding: &[Arg], base: RuleBase) -> Arg
    ensures { result ≡ arg_under binding.now base }
{
    match base {
        RuleBase::Meta(meta) => bound(binding, meta),
        RuleBase::Num(number) => Arg::Const(number),
        RuleBase::Wild => Arg::Const(0),
    }
}

/// The operand of a statement that an operand of a rule is under a binding.
pub fn base_under(binding: &[Arg], base: RuleBase) -> Base
    ensures { result ≡ base_under binding.now base }
{
    as_base(arg_under(binding, base))
}

/// The variable that a metavariable is bound to.
pub fn variable_under(binding: &[Arg], meta: u32) -> u32
    ensures { result ≡ variable_under binding.now meta }
{
    as_variable(bound(binding, meta))
}
