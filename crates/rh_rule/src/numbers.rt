//! Whether the numbers of schemas and rules are in range, and facts have the arguments of their
//! schemas.

ghost use Rattle.std.specs.Prelude.{◌≡◌, nat_lt};
ghost use Rattle.std.specs.List.{list_all};
ghost use Rattle.rh_rule.specs.Operands.{operands, term_operands};
ghost use Rattle.rh_rule.specs.Numbers.{base_is_below, term_is_below, atom_is_below, is_below, are_below, fact_is_below, side_is_below, conclusion_is_below, has_numbers, fact_has_arity, conclusion_has_arity, has_arity};

use crate::rule::{Conclusion, FactUse, Form, Rule, RuleBase, Side, SideTerm};
use crate::schema::{MeaningAtom, MeaningBase, MeaningTerm, Schema};

fn number_is_below(count: usize, number: u32) -> bool
    ensures { result ≡ nat_lt number count }
{
    (number as usize) < count
}

fn base_is_below(params: usize, base: MeaningBase) -> bool
    ensures { result ≡ base_is_below params base }
{
    match base {
        MeaningBase::Param(param) => number_is_below(params, param),
        MeaningBase::Num(_) => true,
    }
}

fn term_is_below(params: usize, term: MeaningTerm) -> bool
    ensures { result ≡ term_is_below params term }
{
    match term {
        MeaningTerm::Plain(base) => base_is_below(params, base),
        MeaningTerm::Address(param) | MeaningTerm::Deref(param) => number_is_below(params, param),
        MeaningTerm::Compute(_, left, right) => {
            base_is_below(params, left) && base_is_below(params, right)
        }
    }
}

/// Whether the parameters of an atom are among so many.
fn atom_is_below(params: usize, atom: MeaningAtom) -> bool
    ensures { result ≡ atom_is_below params atom }
{
    match atom {
        MeaningAtom::Same(s, t) | MeaningAtom::Differ(s, t) => {
            term_is_below(params, s) && term_is_below(params, t)
        }
        MeaningAtom::IsNumber(t) | MeaningAtom::IsPointer(t) => term_is_below(params, t),
        MeaningAtom::Unaliased(param) => number_is_below(params, param),
    }
}

pub(crate) fn atoms_are_below(params: usize, meaning: &[MeaningAtom]) -> bool
    ensures { result ≡ list_all (atom_is_below params) meaning.now }
{
    meaning.iter().all(|atom| atom_is_below(params, *atom))
}

fn is_below(metas: usize, base: RuleBase) -> bool
    ensures { result ≡ is_below metas base }
{
    match base {
        RuleBase::Meta(meta) => number_is_below(metas, meta),
        RuleBase::Num(_) | RuleBase::Wild => true,
    }
}

fn are_below(metas: usize, bases: &[RuleBase]) -> bool
    ensures { result ≡ are_below metas bases.now }
{
    bases.iter().all(|base| is_below(metas, *base))
}

fn form_is_below(metas: usize, form: Form) -> bool
    ensures { result ≡ are_below metas (operands form) }
{
    match form {
        Form::Goto | Form::Skip => true,
        Form::Entry(to) | Form::AnyAssign { to } | Form::New { to } => number_is_below(metas, to),
        Form::Assign { to, from } | Form::Write { to, from } | Form::Call { to, arg: from } => {
            number_is_below(metas, to) && is_below(metas, from)
        }
        Form::Address { to, of: from } | Form::Load { to, from } => {
            number_is_below(metas, to) && number_is_below(metas, from)
        }
        Form::Compute {
            to,
            left,
            right,
            ..
        } => number_is_below(metas, to) && is_below(metas, left) && is_below(metas, right),
        Form::If(base) | Form::Return(base) => is_below(metas, base),
    }
}

fn side_term_is_below(metas: usize, term: SideTerm) -> bool
    ensures { result ≡ are_below metas (term_operands term) }
{
    match term {
        SideTerm::Plain(base) => is_below(metas, base),
        SideTerm::Compute(_, left, right) => is_below(metas, left) && is_below(metas, right),
    }
}

fn side_is_below(metas: usize, side: Side) -> bool
    ensures { result ≡ side_is_below metas side }
{
    match side {
        Side::Same(s, t) | Side::Differ(s, t) => {
            side_term_is_below(metas, s) && side_term_is_below(metas, t)
        }
    }
}

fn sides_are_below(metas: usize, sides: &[Side]) -> bool
    ensures { result ≡ list_all (side_is_below metas) sides.now }
{
    sides.iter().all(|side| side_is_below(metas, *side))
}

fn fact_is_below(schemas: usize, metas: usize, fact: &FactUse) -> bool
    ensures { result ≡ fact_is_below schemas metas fact.now }
{
    number_is_below(schemas, fact.schema) && are_below(metas, fact.args.as_slice())
}

fn facts_are_below(schemas: usize, metas: usize, facts: &[FactUse]) -> bool
    ensures { result ≡ list_all (fact_is_below schemas metas) facts.now }
{
    facts.iter().all(|fact| fact_is_below(schemas, metas, fact))
}

fn conclusion_is_below(schemas: usize, metas: usize, conclusion: &Conclusion) -> bool
    ensures { result ≡ conclusion_is_below schemas metas conclusion.now }
{
    match conclusion {
        Conclusion::Fact { fact, .. } => fact_is_below(schemas, metas, fact),
        Conclusion::Transform(form) => form_is_below(metas, *form),
    }
}

/// Whether all numbers of a rule are in range, where there are so many schemas.
pub(crate) fn has_numbers(schemas: usize, rule: &Rule) -> bool
    ensures { result ≡ has_numbers schemas rule.now }
{
    let metas = rule.params.len();
    form_is_below(metas, rule.pattern)
        && facts_are_below(schemas, metas, rule.premises.as_slice())
        && sides_are_below(metas, rule.sides.as_slice())
        && conclusion_is_below(schemas, metas, &rule.conclusion)
}

fn fact_has_arity(schemas: &[Schema], fact: &FactUse) -> bool
    ensures { result ≡ fact_has_arity schemas.now fact.now }
{
    match schemas.get(fact.schema as usize) {
        Some(schema) => fact.args.len() == schema.params.len(),
        None => false,
    }
}

fn facts_have_arity(schemas: &[Schema], facts: &[FactUse]) -> bool
    ensures { result ≡ list_all (fact_has_arity schemas.now) facts.now }
{
    facts.iter().all(|fact| fact_has_arity(schemas, fact))
}

fn conclusion_has_arity(schemas: &[Schema], conclusion: &Conclusion) -> bool
    ensures { result ≡ conclusion_has_arity schemas.now conclusion.now }
{
    match conclusion {
        Conclusion::Fact { fact, .. } => fact_has_arity(schemas, fact),
        Conclusion::Transform(_) => true,
    }
}

/// Whether each fact of a rule has one argument for each parameter of its schema.
pub(crate) fn has_arity(schemas: &[Schema], rule: &Rule) -> bool
    ensures { result ≡ has_arity schemas.now rule.now }
{
    facts_have_arity(schemas, rule.premises.as_slice())
        && conclusion_has_arity(schemas, &rule.conclusion)
}
