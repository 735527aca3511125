//! The variables and constants of a procedure.
ghost use Rattle.std.specs.Prelude.{ℕ, ◌≡◌, ◌≢◌, ◌<◌, ◌^◌, Some, length, map, slice_get, IfOk, IfSome, IfNone};
ghost use Rattle.std.specs.List.{range_with_len};
ghost use Rattle.rh_rule.specs.declared.rule.Arg.TheVariants.{Var, Const};
ghost use Rattle.rh_domain.specs.Binding.{args_in, domain_of};
ghost use Rattle.rh_domain.specs.Count.{IsSmall};

use crate::constants::constants_of;
use rh_il::Proc;
use rh_list::Items;
use rh_rule::{Arg, Kind};
use std::alloc::{AllocError, Global};

/// What metavariables of a procedure may be bound to: its variables, and its constants.
#[derive(Drop)]
pub struct Domain {
    /// How many variables the procedure has.
    pub vars: u32,
    /// 0, 1 and the numbers that stand as operands in its statements, rising.
    pub constants: Items<i64>,
}

impl Domain {
    /// The variables and constants of a procedure.
    pub fn of(alloc: Global, proc: &Proc) -> Result<Domain, AllocError>
        requires { length proc.now.vars < 2 ^ 32 }
        ensures { IfOk result (λ domain. domain ≡ domain_of proc.now) }
    {
        Ok(Domain {
            vars: proc.vars.len() as u32,
            constants: constants_of(alloc, proc.body.as_slice())?,
        })
    }

    /// How many arguments there are of a kind.
    pub fn count(&self, kind: Kind) -> u32
        requires { IsSmall self.now }
        ensures { result ≡ length (args_in self.now kind) }
    {
        match kind {
            Kind::Var => self.vars,
            Kind::Const => self.constants.len() as u32,
        }
    }

    /// The argument of a kind with a number.
    pub fn arg(&self, kind: Kind, number: u32) -> Option<Arg>
        ensures { result ≡ slice_get (args_in self.now kind) number }
    {
        match kind {
            Kind::Var if number < self.vars => Some(Arg::Var(number)),
            Kind::Var => None,
            Kind::Const => self
                .constants
                .as_slice()
                .get(number as usize)
                .map(|constant| Arg::Const(*constant)),
        }
    }

    /// The number of an argument among those of a kind, where it is one of them.
    pub fn number_of(&self, kind: Kind, arg: Arg) -> Option<u32>
        requires { IsSmall self.now }
        ensures found { IfSome result (λ number. slice_get (args_in self.now kind) number ≡ Some arg) }
        ensures none { IfNone result ((number : ℕ) → slice_get (args_in self.now kind) number ≢ Some arg) }
    {
        match kind {
            Kind::Var => variable_number(self.vars, arg),
            Kind::Const => constant_number(self.constants.as_slice(), arg),
        }
    }
}

/// The number of an argument among so many variables.
fn variable_number(vars: u32, arg: Arg) -> Option<u32>
    ensures found { IfSome result (λ number. slice_get (map Var (range_with_len 0 vars)) number ≡ Some arg) }
    ensures none { IfNone result ((number : ℕ) → slice_get (map Var (range_with_len 0 vars)) number ≢ Some arg) }
{
    match arg {
        Arg::Var(number) => { if number < vars { Some(number) } else { None } }
        Arg::Const(_) => None,
    }
}

/// The number of an argument among constants.
fn constant_number(constants: &[i64], arg: Arg) -> Option<u32>
    requires { length constants.now < 2 ^ 32 }
    ensures found { IfSome result (λ number. slice_get (map Const constants.now) number ≡ Some arg) }
    ensures none { IfNone result ((number : ℕ) → slice_get (map Const constants.now) number ≢ Some arg) }
{
    match arg {
        Arg::Const(number) => place_of(constants, number),
        Arg::Var(_) => None,
    }
}

/// The place of a number.
fn place_of(constants: &[i64], number: i64) -> Option<u32>
    requires { length constants.now < 2 ^ 32 }
    ensures found { IfSome result (λ place. slice_get constants.now place ≡ Some number) }
    ensures none { IfNone result ((place : ℕ) → slice_get constants.now place ≢ Some number) }
{
    for place in 0..constants.len() {
        if constants[place] == number {
            return Some(place as u32);
        }
    }
    None
}
