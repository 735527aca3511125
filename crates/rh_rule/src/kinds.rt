//! Whether variables stand where a variable has to, and numbers where a number has to.

ghost use Rattle.std.specs.Prelude.{◌≡◌};
ghost use Rattle.std.specs.List.{list_all};
ghost use Rattle.rh_rule.specs.Operands.{term_operands};
ghost use Rattle.rh_rule.specs.Kinds.{is_var_kind, is_var, term_has_kinds, atom_has_kinds, form_has_kinds, is_var_base, is_const_base, fits_place, args_fit, fact_has_kinds, is_of_variables, is_of_numbers, side_has_kinds, conclusion_has_kinds, has_kinds};

use crate::rule::{Conclusion, FactUse, Form, Rule, RuleBase, Side, SideTerm};
use crate::schema::{Kind, MeaningAtom, MeaningTerm, Param, Schema};

fn is_var(params: &[Param], number: u32) -> bool
    ensures { result ≡ is_var params.now number }
{
    match params.get(number as usize) {
        Some(param) => matches!(param.kind, Kind::Var),
        None => false,
    }
}

fn term_has_kinds(params: &[Param], term: MeaningTerm) -> bool
    ensures { result ≡ term_has_kinds params.now term }
{
    match term {
        MeaningTerm::Plain(_) | MeaningTerm::Compute(..) => true,
        MeaningTerm::Address(param) | MeaningTerm::Deref(param) => is_var(params, param),
    }
}

fn atom_has_kinds(params: &[Param], atom: MeaningAtom) -> bool
    ensures { result ≡ atom_has_kinds params.now atom }
{
    match atom {
        MeaningAtom::Same(s, t) | MeaningAtom::Differ(s, t) => {
            term_has_kinds(params, s) && term_has_kinds(params, t)
        }
        MeaningAtom::IsNumber(t) | MeaningAtom::IsPointer(t) => term_has_kinds(params, t),
        MeaningAtom::Unaliased(param) => is_var(params, param),
    }
}

/// Whether each atom of a meaning speaks of variables where it has to.
pub(crate) fn atoms_have_kinds(params: &[Param], meaning: &[MeaningAtom]) -> bool
    ensures { result ≡ list_all (atom_has_kinds params.now) meaning.now }
{
    meaning.iter().all(|atom| atom_has_kinds(params, *atom))
}

fn form_has_kinds(params: &[Param], form: Form) -> bool
    ensures { result ≡ form_has_kinds params.now form }
{
    match form {
        Form::Goto | Form::Skip | Form::If(_) | Form::Return(_) => true,
        Form::Entry(to)
        | Form::AnyAssign { to }
        | Form::Assign { to, .. }
        | Form::Compute { to, .. }
        | Form::Write { to, .. }
        | Form::New { to }
        | Form::Call { to, .. } => is_var(params, to),
        Form::Address { to, of: from } | Form::Load { to, from } => {
            is_var(params, to) && is_var(params, from)
        }
    }
}

fn is_var_base(params: &[Param], base: RuleBase) -> bool
    ensures { result ≡ is_var_base params.now base }
{
    match base {
        RuleBase::Meta(meta) => is_var(params, meta),
        RuleBase::Num(_) | RuleBase::Wild => false,
    }
}

fn is_const_base(params: &[Param], base: RuleBase) -> bool
    ensures { result ≡ is_const_base params.now base }
{
    match base {
        RuleBase::Meta(meta) => !is_var(params, meta),
        RuleBase::Num(_) => true,
        RuleBase::Wild => false,
    }
}

fn fits_place(params: &[Param], kind: Kind, arg: RuleBase) -> bool
    ensures { result ≡ fits_place params.now kind arg }
{
    match kind {
        Kind::Var => is_var_base(params, arg),
        Kind::Const => !is_var_base(params, arg),
    }
}

/// Whether each argument fits the place of the parameter of its number.
fn args_fit(params: &[Param], places: &[Param], args: &[RuleBase]) -> bool
    ensures { result ≡ args_fit params.now places.now args.now }
{
    let mut rest = args;
    for place in places {
        let Some((arg, others)) = rest.split_first() else {
            return true;
        };
        if !fits_place(params, place.kind, *arg) {
            return false;
        }
        rest = others;
    }
    true
}

fn fact_has_kinds(schemas: &[Schema], params: &[Param], fact: &FactUse) -> bool
    ensures { result ≡ fact_has_kinds schemas.now params.now fact.now }
{
    match schemas.get(fact.schema as usize) {
        Some(schema) => args_fit(params, schema.params.as_slice(), fact.args.as_slice()),
        None => false,
    }
}

fn facts_have_kinds(schemas: &[Schema], params: &[Param], facts: &[FactUse]) -> bool
    ensures { result ≡ list_all (fact_has_kinds schemas.now params.now) facts.now }
{
    facts
        .iter()
        .all(|fact| fact_has_kinds(schemas, params, fact))
}

fn is_of_variables(params: &[Param], side: Side) -> bool
    ensures { result ≡ is_of_variables params.now side }
{
    match side {
        Side::Differ(SideTerm::Plain(a), SideTerm::Plain(b)) => {
            is_var_base(params, a) && is_var_base(params, b)
        }
        _ => false,
    }
}

fn term_is_of_numbers(params: &[Param], term: SideTerm) -> bool
    ensures { result ≡ list_all (is_const_base params.now) (term_operands term) }
{
    match term {
        SideTerm::Plain(base) => is_const_base(params, base),
        SideTerm::Compute(_, left, right) => {
            is_const_base(params, left) && is_const_base(params, right)
        }
    }
}

fn is_of_numbers(params: &[Param], side: Side) -> bool
    ensures { result ≡ is_of_numbers params.now side }
{
    match side {
        Side::Same(s, t) | Side::Differ(s, t) => {
            term_is_of_numbers(params, s) && term_is_of_numbers(params, t)
        }
    }
}

/// Whether a side condition says that two variables differ, or speaks of numbers alone.
fn side_has_kinds(params: &[Param], side: Side) -> bool
    ensures { result ≡ side_has_kinds params.now side }
{
    is_of_variables(params, side) || is_of_numbers(params, side)
}

fn sides_have_kinds(params: &[Param], sides: &[Side]) -> bool
    ensures { result ≡ list_all (side_has_kinds params.now) sides.now }
{
    sides.iter().all(|side| side_has_kinds(params, *side))
}

fn conclusion_has_kinds(schemas: &[Schema], params: &[Param], conclusion: &Conclusion) -> bool
    ensures { result ≡ conclusion_has_kinds schemas.now params.now conclusion.now }
{
    match conclusion {
        Conclusion::Fact { fact, .. } => fact_has_kinds(schemas, params, fact),
        Conclusion::Transform(form) => form_has_kinds(params, *form),
    }
}

/// Whether all places of a rule are held by what they are for.
pub(crate) fn has_kinds(schemas: &[Schema], rule: &Rule) -> bool
    ensures { result ≡ has_kinds schemas.now rule.now }
{
    let params = rule.params.as_slice();
    form_has_kinds(params, rule.pattern)
        && facts_have_kinds(schemas, params, rule.premises.as_slice())
        && sides_have_kinds(params, rule.sides.as_slice())
        && conclusion_has_kinds(schemas, params, &rule.conclusion)
}
