//! Which statements a pattern is under a binding, and which statement a template is.
ghost use Rattle.std.specs.Prelude.{◌≡◌};
ghost use Rattle.rh_ground.specs.Match.{assigns, callee_of, is_operand, is_variable, matches, other_of, taken_of, template_under};

use rh_domain::{base_under, bound, variable_under};
use rh_il::{Base, Stmt};
use rh_rule::{Arg, Form, RuleBase};

pub(crate) fn is_variable(binding: &[Arg], meta: u32, variable: u32) -> bool
    ensures { result ≡ is_variable binding.now meta variable }
{
    bound(binding, meta) == Arg::Var(variable)
}

fn is_operand(binding: &[Arg], operand: RuleBase, base: Base) -> bool
    ensures { result ≡ is_operand binding.now operand base }
{
    match operand {
        RuleBase::Wild => true,
        RuleBase::Meta(_) => base_under(binding, operand) == base,
        RuleBase::Num(number) => Base::Num(number) == base,
    }
}

/// Whether a statement is an assignment, but no call, to the variable of a metavariable.
fn assigns(binding: &[Arg], meta: u32, stmt: Stmt) -> bool
    ensures { result ≡ assigns binding.now meta stmt }
{
    match stmt {
        Stmt::Copy { to, .. }
        | Stmt::Address { to, .. }
        | Stmt::Load { to, .. }
        | Stmt::Compute { to, .. }
        | Stmt::New { to } => is_variable(binding, meta, to),
        _ => false,
    }
}

/// Whether a pattern is the statement under a binding.
pub(crate) fn matches(binding: &[Arg], pattern: Form, stmt: Stmt) -> bool
    ensures { result ≡ matches binding.now pattern stmt }
{
    match (pattern, stmt) {
        (Form::Skip, Stmt::Skip) | (Form::Goto, Stmt::Goto { .. }) => true,
        (Form::AnyAssign { to }, _) => assigns(binding, to, stmt),
        (Form::Assign { to, from }, Stmt::Copy { to: x, from: a }) => {
            is_variable(binding, to, x) && is_operand(binding, from, a)
        }
        (Form::Address { to, of }, Stmt::Address { to: x, of: y }) => {
            is_variable(binding, to, x) && is_variable(binding, of, y)
        }
        (Form::Load { to, from }, Stmt::Load { to: x, from: y }) => {
            is_variable(binding, to, x) && is_variable(binding, from, y)
        }
        (
            Form::Compute {
                to,
                op,
                left,
                right,
            },
            Stmt::Compute {
                to: x,
                op: sign,
                left: a,
                right: b,
            },
        ) => {
            is_variable(binding, to, x)
                && op == sign
                && is_operand(binding, left, a)
                && is_operand(binding, right, b)
        }
        (Form::Write { to, from }, Stmt::Write { to: x, from: a }) => {
            is_variable(binding, to, x) && is_operand(binding, from, a)
        }
        (Form::New { to }, Stmt::New { to: x }) => is_variable(binding, to, x),
        (Form::Call { to, arg }, Stmt::Call { to: x, arg: a, .. }) => {
            is_variable(binding, to, x) && is_operand(binding, arg, a)
        }
        (Form::If(cond), Stmt::If { cond: a, .. }) => is_operand(binding, cond, a),
        (Form::Return(value), Stmt::Return { value: a }) => is_operand(binding, value, a),
        _ => false,
    }
}

fn callee_of(stmt: Stmt) -> u32
    ensures { result ≡ callee_of stmt }
{
    match stmt {
        Stmt::Call { proc, .. } => proc,
        _ => 0,
    }
}

fn taken_of(stmt: Stmt) -> u32
    ensures { result ≡ taken_of stmt }
{
    match stmt {
        Stmt::If { yes, .. } => yes,
        _ => 0,
    }
}

fn other_of(stmt: Stmt) -> u32
    ensures { result ≡ other_of stmt }
{
    match stmt {
        Stmt::If { no, .. } => no,
        _ => 0,
    }
}

/// The statement that a template is under a binding, in the place of an old statement: a call keeps
/// its procedure, and a branch its targets.
pub fn template_under(binding: &[Arg], template: Form, old: Stmt) -> Stmt
    ensures { result ≡ template_under binding.now template old }
{
    match template {
        Form::Skip => Stmt::Skip,
        Form::Assign { to, from } => Stmt::Copy {
            to: variable_under(binding, to),
            from: base_under(binding, from),
        },
        Form::Address { to, of } => Stmt::Address {
            to: variable_under(binding, to),
            of: variable_under(binding, of),
        },
        Form::Load { to, from } => Stmt::Load {
            to: variable_under(binding, to),
            from: variable_under(binding, from),
        },
        Form::Compute {
            to,
            op,
            left,
            right,
        } => Stmt::Compute {
            to: variable_under(binding, to),
            op,
            left: base_under(binding, left),
            right: base_under(binding, right),
        },
        Form::Write { to, from } => Stmt::Write {
            to: variable_under(binding, to),
            from: base_under(binding, from),
        },
        Form::Call { to, arg } => Stmt::Call {
            to: variable_under(binding, to),
            proc: callee_of(old),
            arg: base_under(binding, arg),
        },
        Form::If(cond) => Stmt::If {
            cond: base_under(binding, cond),
            yes: taken_of(old),
            no: other_of(old),
        },
        Form::Return(value) => Stmt::Return {
            value: base_under(binding, value),
        },
        _ => old,
    }
}
