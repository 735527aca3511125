//! Whether a rule uses its metavariables.

ghost use Rattle.std.specs.Prelude.{◌≡◌, ◌==◌};
ghost use Rattle.std.specs.List.{list_any};
ghost use Rattle.rh_rule.specs.Operands.{operands, term_operands, is_meta};
ghost use Rattle.rh_rule.specs.Uses.{names, fact_names, side_names, conclusion_names, rule_names};

use crate::rule::{Conclusion, FactUse, Form, Rule, RuleBase, Side, SideTerm};

fn is_number(meta: usize, number: u32) -> bool
    ensures { result ≡ (number == meta) }
{
    number as usize == meta
}

fn is_meta(meta: usize, base: RuleBase) -> bool
    ensures { result ≡ is_meta meta base }
{
    match base {
        RuleBase::Meta(other) => is_number(meta, other),
        RuleBase::Num(_) | RuleBase::Wild => false,
    }
}

fn args_name(meta: usize, args: &[RuleBase]) -> bool
    ensures { result ≡ names meta args.now }
{
    args.iter().any(|arg| is_meta(meta, *arg))
}

fn form_names(meta: usize, form: Form) -> bool
    ensures { result ≡ names meta (operands form) }
{
    match form {
        Form::Goto | Form::Skip => false,
        Form::Entry(to) | Form::AnyAssign { to } | Form::New { to } => is_number(meta, to),
        Form::Assign { to, from } | Form::Write { to, from } | Form::Call { to, arg: from } => {
            is_number(meta, to) || is_meta(meta, from)
        }
        Form::Address { to, of: from } | Form::Load { to, from } => {
            is_number(meta, to) || is_number(meta, from)
        }
        Form::Compute {
            to,
            left,
            right,
            ..
        } => is_number(meta, to) || is_meta(meta, left) || is_meta(meta, right),
        Form::If(base) | Form::Return(base) => is_meta(meta, base),
    }
}

fn side_term_names(meta: usize, term: SideTerm) -> bool
    ensures { result ≡ names meta (term_operands term) }
{
    match term {
        SideTerm::Plain(base) => is_meta(meta, base),
        SideTerm::Compute(_, left, right) => is_meta(meta, left) || is_meta(meta, right),
    }
}

fn side_names(meta: usize, side: Side) -> bool
    ensures { result ≡ side_names meta side }
{
    match side {
        Side::Same(s, t) | Side::Differ(s, t) => {
            side_term_names(meta, s) || side_term_names(meta, t)
        }
    }
}

fn sides_name(meta: usize, sides: &[Side]) -> bool
    ensures { result ≡ list_any (side_names meta) sides.now }
{
    sides.iter().any(|side| side_names(meta, *side))
}

fn fact_names(meta: usize, fact: &FactUse) -> bool
    ensures { result ≡ fact_names meta fact.now }
{
    args_name(meta, fact.args.as_slice())
}

fn facts_name(meta: usize, facts: &[FactUse]) -> bool
    ensures { result ≡ list_any (fact_names meta) facts.now }
{
    facts.iter().any(|fact| fact_names(meta, fact))
}

fn conclusion_names(meta: usize, conclusion: &Conclusion) -> bool
    ensures { result ≡ conclusion_names meta conclusion.now }
{
    match conclusion {
        Conclusion::Fact { fact, .. } => fact_names(meta, fact),
        Conclusion::Transform(template) => form_names(meta, *template),
    }
}

/// Whether a rule uses a metavariable after its declaration.
pub(crate) fn rule_names(meta: usize, rule: &Rule) -> bool
    ensures { result ≡ rule_names meta rule.now }
{
    form_names(meta, rule.pattern)
        || facts_name(meta, rule.premises.as_slice())
        || sides_name(meta, rule.sides.as_slice())
        || conclusion_names(meta, &rule.conclusion)
}
