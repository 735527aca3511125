//! The schemas and the rules of a rule file: its names as numbers.

ghost use Rattle.std.specs.Prelude.{◌≡◌, map, IfOk};
ghost use Rattle.std.specs.List.{flat_map};
ghost use Rattle.rh_rule_text.specs.Resolve.{place_of, number_of, meaning_base, rule_base, rule_operand, meaning_term, compared_atom, meaning_atom, rule_param, metas_of, assigned, rule_form, rule_pattern, fact_of, side_term, compared_side, premises_of, sides_of, conclusion_of};

use rh_il::Name;
use rh_list::Items;
use rh_names::Names;
use rh_rule::{
    Conclusion, FactUse, Form, MeaningAtom, MeaningBase, MeaningTerm, Param, RuleBase, Side,
    SideTerm,
};
use rh_rule_source::{
    Relation, SourceAtom, SourceBase, SourceConclusion, SourceCond, SourceForm, SourceOperand,
    SourceParam, SourcePattern, SourceRight, SourceSide, SourceTerm, SourceUse, Spelled,
};
use rh_text::signed;
use std::alloc::{AllocError, Global};

/// The size of the least number.
const SIZE_LIMIT: u64 = 9_223_372_036_854_775_808;

fn place_of(names: &Names, spelled: Spelled) -> u32
    ensures { result ≡ place_of names.now spelled }
{
    let place = names.position(&spelled.name).unwrap_or(0);
    place.min(u32::MAX as usize) as u32
}

fn number_of(negative: bool, size: u64) -> i64
    ensures { result ≡ number_of negative size }
{
    signed(negative, size.min(SIZE_LIMIT)).unwrap_or(0)
}

fn meaning_base(metas: &Names, base: SourceBase) -> MeaningBase
    ensures { result ≡ meaning_base metas.now base }
{
    match base {
        SourceBase::Named(name) => MeaningBase::Param(place_of(metas, name)),
        SourceBase::Num { negative, size } => MeaningBase::Num(number_of(negative, size)),
    }
}

fn rule_base(metas: &Names, base: SourceBase) -> RuleBase
    ensures { result ≡ rule_base metas.now base }
{
    match base {
        SourceBase::Named(name) => RuleBase::Meta(place_of(metas, name)),
        SourceBase::Num { negative, size } => RuleBase::Num(number_of(negative, size)),
    }
}

fn rule_operand(metas: &Names, operand: SourceOperand) -> RuleBase
    ensures { result ≡ rule_operand metas.now operand }
{
    match operand {
        SourceOperand::Wild => RuleBase::Wild,
        SourceOperand::Plain(base) => rule_base(metas, base),
    }
}

fn meaning_term(metas: &Names, term: SourceTerm) -> MeaningTerm
    ensures { result ≡ meaning_term metas.now term }
{
    match term {
        SourceTerm::Plain(base) => MeaningTerm::Plain(meaning_base(metas, base)),
        SourceTerm::Address(name) => MeaningTerm::Address(place_of(metas, name)),
        SourceTerm::Deref(name) => MeaningTerm::Deref(place_of(metas, name)),
        SourceTerm::Compute(operation) => {
            let left = meaning_base(metas, operation.left);
            let right = meaning_base(metas, operation.right);
            MeaningTerm::Compute(operation.op, left, right)
        }
    }
}

fn compared_atom(relation: Relation, left: MeaningTerm, right: MeaningTerm) -> MeaningAtom
    ensures { result ≡ compared_atom relation left right }
{
    match relation {
        Relation::Same => MeaningAtom::Same(left, right),
        Relation::Differ => MeaningAtom::Differ(left, right),
    }
}

fn meaning_atom(metas: &Names, atom: SourceAtom) -> MeaningAtom
    ensures { result ≡ meaning_atom metas.now atom }
{
    match atom {
        SourceAtom::IsNumber(term) => MeaningAtom::IsNumber(meaning_term(metas, term)),
        SourceAtom::IsPointer(term) => MeaningAtom::IsPointer(meaning_term(metas, term)),
        SourceAtom::Unaliased(name) => MeaningAtom::Unaliased(place_of(metas, name)),
        SourceAtom::Compare(left, relation, right) => {
            let left = meaning_term(metas, left);
            compared_atom(relation, left, meaning_term(metas, right))
        }
    }
}

pub(crate) fn meaning(
    alloc: Global,
    metas: &Names,
    atoms: &[SourceAtom],
) -> Result<Vec<MeaningAtom>, AllocError>
    ensures { IfOk result (λ meaning. meaning.items ≡ map (meaning_atom metas.now) atoms.now) }
{
    atoms
        .iter()
        .map(|atom| meaning_atom(metas, *atom))
        .collect(alloc)
}

fn rule_param(param: SourceParam) -> Param
    ensures { result ≡ rule_param param }
{
    Param {
        name: param.name.name,
        kind: param.kind,
    }
}

pub(crate) fn rule_params(alloc: Global, params: &[SourceParam]) -> Result<Vec<Param>, AllocError>
    ensures { IfOk result (λ items. items.items ≡ map rule_param params.now) }
{
    params.iter().map(|param| rule_param(*param)).collect(alloc)
}

fn param_names(alloc: Global, params: &[SourceParam]) -> Result<Vec<Name>, AllocError>
    ensures { IfOk result (λ names. names.items ≡ metas_of params.now) }
{
    params.iter().map(|param| param.name.name).collect(alloc)
}

pub(crate) fn metas_of(alloc: Global, params: &[SourceParam]) -> Result<Names, AllocError>
    ensures { IfOk result (λ names. names ≡ metas_of params.now) }
{
    let names = param_names(alloc, params)?;
    Names::of(alloc, names.as_slice())
}

fn assigned(metas: &Names, to: u32, right: SourceRight) -> Form
    ensures { result ≡ assigned metas.now to right }
{
    match right {
        SourceRight::Any => Form::AnyAssign { to },
        SourceRight::New => Form::New { to },
        SourceRight::Address(name) => Form::Address {
            to,
            of: place_of(metas, name),
        },
        SourceRight::Load(name) => Form::Load {
            to,
            from: place_of(metas, name),
        },
        SourceRight::Call(arg) => Form::Call {
            to,
            arg: rule_operand(metas, arg),
        },
        SourceRight::Plain(base) => Form::Assign {
            to,
            from: rule_base(metas, base),
        },
        SourceRight::Compute(operation) => Form::Compute {
            to,
            op: operation.op,
            left: rule_base(metas, operation.left),
            right: rule_base(metas, operation.right),
        },
    }
}

fn rule_form(metas: &Names, form: SourceForm) -> Form
    ensures { result ≡ rule_form metas.now form }
{
    match form {
        SourceForm::Skip => Form::Skip,
        SourceForm::Write(to, from) => Form::Write {
            to: place_of(metas, to),
            from: rule_operand(metas, from),
        },
        SourceForm::If(operand) => Form::If(rule_operand(metas, operand)),
        SourceForm::Return(operand) => Form::Return(rule_operand(metas, operand)),
        SourceForm::Assign(to, right) => assigned(metas, place_of(metas, to), right),
    }
}

pub(crate) fn rule_pattern(metas: &Names, pattern: SourcePattern) -> Form
    ensures { result ≡ rule_pattern metas.now pattern }
{
    match pattern {
        SourcePattern::Entry(name) => Form::Entry(place_of(metas, name)),
        SourcePattern::Goto => Form::Goto,
        SourcePattern::Form(form) => rule_form(metas, form),
    }
}

fn rule_args(alloc: Global, metas: &Names, args: &[SourceBase]) -> Result<Vec<RuleBase>, AllocError>
    ensures { IfOk result (λ items. items.items ≡ map (rule_base metas.now) args.now) }
{
    args.iter().map(|arg| rule_base(metas, *arg)).collect(alloc)
}

fn fact_of(
    alloc: Global,
    facts: &Names,
    metas: &Names,
    fact: &SourceUse,
) -> Result<FactUse, AllocError>
    ensures { IfOk result (λ resolved. resolved ≡ fact_of facts.now metas.now fact.now) }
{
    let schema = place_of(facts, fact.name);
    let args = Items::from(rule_args(alloc, metas, fact.args.as_slice())?);
    Ok(FactUse { schema, args })
}

fn side_term(metas: &Names, side: SourceSide) -> SideTerm
    ensures { result ≡ side_term metas.now side }
{
    match side {
        SourceSide::Plain(base) => SideTerm::Plain(rule_base(metas, base)),
        SourceSide::Compute(operation) => {
            let left = rule_base(metas, operation.left);
            let right = rule_base(metas, operation.right);
            SideTerm::Compute(operation.op, left, right)
        }
    }
}

fn compared_side(relation: Relation, left: SideTerm, right: SideTerm) -> Side
    ensures { result ≡ compared_side relation left right }
{
    match relation {
        Relation::Same => Side::Same(left, right),
        Relation::Differ => Side::Differ(left, right),
    }
}

pub(crate) fn conclusion_of(
    alloc: Global,
    facts: &Names,
    metas: &Names,
    conclusion: &SourceConclusion,
) -> Result<Conclusion, AllocError>
    ensures { IfOk result (λ resolved. resolved ≡ conclusion_of facts.now metas.now conclusion.now) }
{
    match conclusion {
        SourceConclusion::Fact(fact, slot) => Ok(Conclusion::Fact {
            fact: fact_of(alloc, facts, metas, fact)?,
            slot: *slot,
        }),
        SourceConclusion::Transform(form) => Ok(Conclusion::Transform(rule_form(metas, *form))),
    }
}

pub(crate) fn premises(
    alloc: Global,
    facts: &Names,
    metas: &Names,
    conds: &[SourceCond],
) -> Result<Items<FactUse>, AllocError>
    ensures { IfOk result (λ premises. premises ≡ flat_map (premises_of facts.now metas.now) conds.now) }
{
    let mut premises = Items::new(alloc);
    for cond in conds {
        if let SourceCond::Fact(fact) = cond {
            premises.push(fact_of(alloc, facts, metas, fact)?)?;
        }
    }
    Ok(premises)
}

pub(crate) fn sides(
    alloc: Global,
    metas: &Names,
    conds: &[SourceCond],
) -> Result<Items<Side>, AllocError>
    ensures { IfOk result (λ sides. sides ≡ flat_map (sides_of metas.now) conds.now) }
{
    let mut sides = Items::new(alloc);
    for cond in conds {
        if let SourceCond::Side(left, relation, right) = cond {
            let left = side_term(metas, *left);
            let right = side_term(metas, *right);
            sides.push(compared_side(*relation, left, right))?;
        }
    }
    Ok(sides)
}
