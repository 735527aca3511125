//! Which statements a rule may speak of, and on which edges.

ghost use Rattle.std.specs.Prelude.{◌≡◌};
ghost use Rattle.std.specs.List.{list_all};
ghost use Rattle.rh_rule.specs.Operands.{operands, is_wild};
ghost use Rattle.rh_rule.specs.Shapes.{has_wild, is_pattern, is_statement, class_of, may_replace, fact_has_shape, conclusion_has_shape, has_shape, is_entry, leaves_by, conclusion_has_slot, has_slots};

use crate::rule::{Conclusion, FactUse, Form, Rule, RuleBase};
use rh_il::Slot;

/// What a statement does beside its effect: a template keeps it.
#[derive(Clone, Copy, PartialEq, Eq)]
pub(crate) enum Class {
    Plain,
    Calls,
    Branches,
    Returns,
}

fn is_wild(base: RuleBase) -> bool
    ensures { result ≡ is_wild base }
{
    matches!(base, RuleBase::Wild)
}

fn args_have_wild(args: &[RuleBase]) -> bool
    ensures { result ≡ has_wild args.now }
{
    args.iter().any(|arg| is_wild(*arg))
}

fn form_has_wild(form: Form) -> bool
    ensures { result ≡ has_wild (operands form) }
{
    match form {
        Form::AnyAssign { .. } => true,
        Form::Assign { from: base, .. }
        | Form::Write { from: base, .. }
        | Form::Call { arg: base, .. }
        | Form::If(base)
        | Form::Return(base) => is_wild(base),
        Form::Compute { left, right, .. } => is_wild(left) || is_wild(right),
        Form::Entry(_)
        | Form::Goto
        | Form::Skip
        | Form::Address { .. }
        | Form::Load { .. }
        | Form::New { .. } => false,
    }
}

/// Whether `_` stands only where a pattern may have it.
fn is_pattern(form: Form) -> bool
    ensures { result ≡ is_pattern form }
{
    match form {
        Form::Assign { from, .. } => !is_wild(from),
        Form::Compute { left, right, .. } => !is_wild(left) && !is_wild(right),
        _ => true,
    }
}

/// Whether a transformation may make or replace such a statement.
fn is_statement(form: Form) -> bool
    ensures { result ≡ is_statement form }
{
    match form {
        Form::Entry(_) | Form::Goto | Form::New { .. } => false,
        _ => !form_has_wild(form),
    }
}

fn class_of(form: Form) -> Class
    ensures { result ≡ class_of form }
{
    match form {
        Form::Call { .. } => Class::Calls,
        Form::If(_) => Class::Branches,
        Form::Return(_) => Class::Returns,
        _ => Class::Plain,
    }
}

fn may_replace(template: Form, pattern: Form) -> bool
    ensures { result ≡ may_replace template pattern }
{
    is_statement(pattern) && is_statement(template) && class_of(template) == class_of(pattern)
}

fn fact_has_shape(fact: &FactUse) -> bool
    ensures { result ≡ fact_has_shape fact.now }
{
    !args_have_wild(fact.args.as_slice())
}

fn facts_have_shape(facts: &[FactUse]) -> bool
    ensures { result ≡ list_all fact_has_shape facts.now }
{
    facts.iter().all(|fact| fact_has_shape(fact))
}

fn conclusion_has_shape(pattern: Form, conclusion: &Conclusion) -> bool
    ensures { result ≡ conclusion_has_shape pattern conclusion.now }
{
    match conclusion {
        Conclusion::Fact { fact, .. } => fact_has_shape(fact),
        Conclusion::Transform(template) => may_replace(*template, pattern),
    }
}

/// Whether the forms and the facts of a rule are such as a rule may have.
pub(crate) fn has_shape(rule: &Rule) -> bool
    ensures { result ≡ has_shape rule.now }
{
    is_pattern(rule.pattern)
        && facts_have_shape(rule.premises.as_slice())
        && conclusion_has_shape(rule.pattern, &rule.conclusion)
}

fn is_entry(form: Form) -> bool
    ensures { result ≡ is_entry form }
{
    matches!(form, Form::Entry(_))
}

/// Whether an edge leaves a statement of the form by the slot.
fn leaves_by(form: Form, slot: Slot) -> bool
    ensures { result ≡ leaves_by form slot }
{
    match form {
        Form::If(_) => !matches!(slot, Slot::Out),
        Form::Return(_) => false,
        _ => matches!(slot, Slot::Out),
    }
}

fn conclusion_has_slot(pattern: Form, conclusion: &Conclusion) -> bool
    ensures { result ≡ conclusion_has_slot pattern conclusion.now }
{
    match conclusion {
        Conclusion::Fact { slot, .. } => leaves_by(pattern, *slot),
        Conclusion::Transform(_) => true,
    }
}

/// Whether there are edges for the facts of a rule.
pub(crate) fn has_slots(rule: &Rule) -> bool
    ensures { result ≡ has_slots rule.now }
{
    (!is_entry(rule.pattern) || rule.premises.is_empty())
        && conclusion_has_slot(rule.pattern, &rule.conclusion)
}
