//! What a metavariable is bound to wherever a pattern is a statement, and wherever a fact of a rule is a given one. No
//! bindings are tried. Where a form, a number or two answers tell that no binding passes, the answer is `NOTHING`.
ghost use Rattle.std.specs.Prelude.{◌≡◌, ◌&&◌, Some, map, slice_get, IfSome};
ghost use Rattle.rh_rule.specs.declared.rule.RuleBase.TheVariants.{Meta};
ghost use Rattle.rh_domain.specs.Binding.{arg_under};
ghost use Rattle.rh_ground.specs.Fixed.{Agrees, Fixes, as_arg};
ghost use Rattle.rh_ground.specs.Instance.{is_instance, matches_at, matches_entry};
ghost use Rattle.rh_ground.specs.Match.{assigns, is_operand, is_variable, matches};
ghost use Rattle.rh_ground.specs.SameFact.{args_eq};

use crate::forms::is_form_of;
use rh_il::{Base, Node, Proc, Stmt};
use rh_rule::{Arg, FactUse, Form, Rule, RuleBase};

/// What no metavariable is bound to: the answer where no binding passes, which ends a search.
const NOTHING: Arg = Arg::Var(u32::MAX);

/// What a metavariable is bound to in every binding that passes two tests, where each answer is that of one test. Two
/// answers that differ give one that is of no domain.
pub fn agreed(first: Option<Arg>, second: Option<Arg>) -> Option<Arg>
    ensures { Agrees first second result }
{
    match (first, second) {
        (Some(one), Some(other)) if one != other => Some(NOTHING),
        (None, _) => second,
        _ => first,
    }
}

/// The argument that an operand of a statement is.
fn as_arg(base: Base) -> Arg
    ensures { result ≡ as_arg base }
{
    match base {
        Base::Var(number) => Arg::Var(number),
        Base::Num(number) => Arg::Const(number),
    }
}

/// What a metavariable is bound to where the metavariable with this name is the variable.
fn fixed_by_variable(name: u32, variable: u32, meta: u32) -> Option<Arg>
    ensures { IfSome result (Fixes (λ binding. is_variable binding name variable) meta) }
{
    if name == meta {
        Some(Arg::Var(variable))
    } else {
        None
    }
}

/// The same where an operand of a rule is one of a statement.
fn fixed_by_operand(operand: RuleBase, base: Base, meta: u32) -> Option<Arg>
    ensures { IfSome result (Fixes (λ binding. is_operand binding operand base) meta) }
{
    match operand {
        RuleBase::Meta(name) if name == meta => Some(as_arg(base)),
        _ => None,
    }
}

/// The same of a variable and an operand.
fn fixed_by_variable_or_operand(
    name: u32,
    variable: u32,
    operand: RuleBase,
    base: Base,
    meta: u32,
) -> Option<Arg>
    ensures { IfSome result (Fixes (λ binding. is_variable binding name variable && is_operand binding operand base) meta) }
{
    agreed(
        fixed_by_variable(name, variable, meta),
        fixed_by_operand(operand, base, meta),
    )
}

/// The same of two variables.
fn fixed_by_variables(names: (u32, u32), variables: (u32, u32), meta: u32) -> Option<Arg>
    ensures { IfSome result (Fixes (λ binding. is_variable binding names.0 variables.0 && is_variable binding names.1 variables.1) meta) }
{
    agreed(
        fixed_by_variable(names.0, variables.0, meta),
        fixed_by_variable(names.1, variables.1, meta),
    )
}

/// The same of two operands.
fn fixed_by_operands(operands: (RuleBase, RuleBase), bases: (Base, Base), meta: u32) -> Option<Arg>
    ensures { IfSome result (Fixes (λ binding. is_operand binding operands.0 bases.0 && is_operand binding operands.1 bases.1) meta) }
{
    agreed(
        fixed_by_operand(operands.0, bases.0, meta),
        fixed_by_operand(operands.1, bases.1, meta),
    )
}

/// The same of a variable and two operands.
fn fixed_by_computation(
    name: u32,
    variable: u32,
    operands: (RuleBase, RuleBase),
    bases: (Base, Base),
    meta: u32,
) -> Option<Arg>
    ensures { IfSome result (Fixes (λ binding. is_variable binding name variable && (is_operand binding operands.0 bases.0 && is_operand binding operands.1 bases.1)) meta) }
{
    agreed(
        fixed_by_variable(name, variable, meta),
        fixed_by_operands(operands, bases, meta),
    )
}

/// The same of an assignment that is no call, by the variable that it sets.
fn fixed_by_assignment(to: u32, stmt: Stmt, meta: u32) -> Option<Arg>
    ensures { IfSome result (Fixes (λ binding. assigns binding to stmt) meta) }
{
    match stmt {
        Stmt::Copy { to: x, .. }
        | Stmt::Address { to: x, .. }
        | Stmt::Load { to: x, .. }
        | Stmt::Compute { to: x, .. }
        | Stmt::New { to: x } => fixed_by_variable(to, x, meta),
        _ => None,
    }
}

/// The same of a pattern of the form of the statement.
fn fixed_by_form(pattern: Form, stmt: Stmt, meta: u32) -> Option<Arg>
    ensures { IfSome result (Fixes (λ binding. matches binding pattern stmt) meta) }
{
    match (pattern, stmt) {
        (Form::AnyAssign { to }, _) => fixed_by_assignment(to, stmt, meta),
        (Form::Assign { to, from }, Stmt::Copy { to: x, from: a })
        | (Form::Write { to, from }, Stmt::Write { to: x, from: a })
        | (Form::Call { to, arg: from }, Stmt::Call { to: x, arg: a, .. }) => {
            fixed_by_variable_or_operand(to, x, from, a, meta)
        }
        (Form::Address { to, of }, Stmt::Address { to: x, of: y })
        | (Form::Load { to, from: of }, Stmt::Load { to: x, from: y }) => {
            fixed_by_variables((to, of), (x, y), meta)
        }
        (
            Form::Compute {
                to,
                left,
                right,
                ..
            },
            Stmt::Compute {
                to: x,
                left: a,
                right: b,
                ..
            },
        ) => { fixed_by_computation(to, x, (left, right), (a, b), meta) }
        (Form::New { to }, Stmt::New { to: x }) => fixed_by_variable(to, x, meta),
        (Form::If(operand), Stmt::If { cond: a, .. })
        | (Form::Return(operand), Stmt::Return { value: a }) => fixed_by_operand(operand, a, meta),
        _ => None,
    }
}

/// What a metavariable is bound to wherever a pattern is the statement, where that is known.
pub fn fixed_by_pattern(pattern: Form, stmt: Stmt, meta: u32) -> Option<Arg>
    ensures { IfSome result (Fixes (λ binding. matches binding pattern stmt) meta) }
{
    if is_form_of(pattern, stmt) {
        fixed_by_form(pattern, stmt, meta)
    } else {
        Some(NOTHING)
    }
}

/// What a metavariable is bound to wherever a pattern is the entry of a procedure, whose parameter is its first
/// variable.
fn fixed_by_entry(pattern: Form, meta: u32) -> Option<Arg>
    ensures { IfSome result (Fixes (λ binding. matches_entry binding pattern) meta) }
{
    match pattern {
        Form::Entry(param) => fixed_by_variable(param, 0, meta),
        _ => Some(NOTHING),
    }
}

/// What a metavariable is bound to wherever a pattern is what stands at a node.
fn fixed_at(proc: &Proc, pattern: Form, node: Node, meta: u32) -> Option<Arg>
    ensures { IfSome result (Fixes (λ binding. matches_at proc.now binding pattern node) meta) }
{
    match node {
        Node::Entry => fixed_by_entry(pattern, meta),
        Node::At(number) => match proc.body.as_slice().get(number as usize) {
            Some(stmt) => fixed_by_pattern(pattern, *stmt, meta),
            None => None,
        },
    }
}

/// What a metavariable is bound to in every instance of a rule at a node, where that is known.
pub fn fixed_by_rule(proc: &Proc, rule: &Rule, node: Node, meta: u32) -> Option<Arg>
    ensures { IfSome result (Fixes (λ binding. is_instance proc.now rule.now binding node) meta) }
{
    fixed_at(proc, rule.pattern, node, meta)
}

/// The first place at which a metavariable stands.
fn place_of(bases: &[RuleBase], meta: u32) -> Option<usize>
    ensures { IfSome result (λ place. slice_get bases.now place ≡ Some (Meta meta)) }
{
    for (place, base) in bases.iter().enumerate() {
        match *base {
            RuleBase::Meta(name) if name == meta => return Some(place),
            _ => {}
        }
    }
    None
}

fn arg_at(args: &[Arg], place: usize) -> Option<Arg>
    ensures { result ≡ slice_get args.now place }
{
    args.get(place).copied()
}

/// What a metavariable is bound to wherever a use of a schema is a fact with these arguments, where that is known.
pub fn fixed_by_fact(fact: &FactUse, args: &[Arg], meta: u32) -> Option<Arg>
    ensures { IfSome result (Fixes (λ binding. args_eq (map (arg_under binding) fact.now.args) args.now) meta) }
{
    arg_at(args, place_of(fact.args.as_slice(), meta)?)
}
