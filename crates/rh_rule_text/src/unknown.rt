//! Names that a rule file uses and does not declare.

ghost use Rattle.std.specs.Prelude.{◌≡◌};
ghost use Rattle.rh_rule_text.specs.Unknown.{first_of, unknown, unknown_base, unknown_operand, unknown_operation, unknown_term, unknown_atom, unknown_right, unknown_form, unknown_pattern, unknown_use, unknown_side, unknown_cond, unknown_conclusion};

use rh_names::Names;
use rh_rule_source::{
    SourceAtom, SourceBase, SourceConclusion, SourceCond, SourceForm, SourceOperand,
    SourceOperation, SourcePattern, SourceRight, SourceSide, SourceTerm, SourceUse, Spelled,
};

/// The offset of a name, if it is not declared.
fn unknown(names: &Names, spelled: Spelled) -> Option<u32>
    ensures { result ≡ unknown names.now spelled }
{
    if names.contains(&spelled.name) {
        None
    } else {
        Some(spelled.at)
    }
}

fn unknown_base(metas: &Names, base: SourceBase) -> Option<u32>
    ensures { result ≡ unknown_base metas.now base }
{
    match base {
        SourceBase::Named(name) => unknown(metas, name),
        SourceBase::Num { .. } => None,
    }
}

fn unknown_operand(metas: &Names, operand: SourceOperand) -> Option<u32>
    ensures { result ≡ unknown_operand metas.now operand }
{
    match operand {
        SourceOperand::Wild => None,
        SourceOperand::Plain(base) => unknown_base(metas, base),
    }
}

fn unknown_operation(metas: &Names, operation: SourceOperation) -> Option<u32>
    ensures { result ≡ unknown_operation metas.now operation }
{
    unknown_base(metas, operation.left).or(unknown_base(metas, operation.right))
}

fn unknown_term(metas: &Names, term: SourceTerm) -> Option<u32>
    ensures { result ≡ unknown_term metas.now term }
{
    match term {
        SourceTerm::Plain(base) => unknown_base(metas, base),
        SourceTerm::Address(name) | SourceTerm::Deref(name) => unknown(metas, name),
        SourceTerm::Compute(operation) => unknown_operation(metas, operation),
    }
}

fn unknown_atom(metas: &Names, atom: SourceAtom) -> Option<u32>
    ensures { result ≡ unknown_atom metas.now atom }
{
    match atom {
        SourceAtom::IsNumber(term) | SourceAtom::IsPointer(term) => unknown_term(metas, term),
        SourceAtom::Unaliased(name) => unknown(metas, name),
        SourceAtom::Compare(left, _, right) => {
            unknown_term(metas, left).or(unknown_term(metas, right))
        }
    }
}

pub(crate) fn unknown_in_atoms(metas: &Names, atoms: &[SourceAtom]) -> Option<u32>
    ensures { result ≡ first_of (unknown_atom metas.now) atoms.now }
{
    for atom in atoms {
        let found = unknown_atom(metas, *atom);
        if found.is_some() {
            return found;
        }
    }
    None
}

fn unknown_right(metas: &Names, right: SourceRight) -> Option<u32>
    ensures { result ≡ unknown_right metas.now right }
{
    match right {
        SourceRight::Any | SourceRight::New => None,
        SourceRight::Address(name) | SourceRight::Load(name) => unknown(metas, name),
        SourceRight::Call(arg) => unknown_operand(metas, arg),
        SourceRight::Plain(base) => unknown_base(metas, base),
        SourceRight::Compute(operation) => unknown_operation(metas, operation),
    }
}

fn unknown_form(metas: &Names, form: SourceForm) -> Option<u32>
    ensures { result ≡ unknown_form metas.now form }
{
    match form {
        SourceForm::Skip => None,
        SourceForm::Write(to, from) => unknown(metas, to).or(unknown_operand(metas, from)),
        SourceForm::If(operand) | SourceForm::Return(operand) => unknown_operand(metas, operand),
        SourceForm::Assign(to, right) => unknown(metas, to).or(unknown_right(metas, right)),
    }
}

pub(crate) fn unknown_pattern(metas: &Names, pattern: SourcePattern) -> Option<u32>
    ensures { result ≡ unknown_pattern metas.now pattern }
{
    match pattern {
        SourcePattern::Entry(name) => unknown(metas, name),
        SourcePattern::Goto => None,
        SourcePattern::Form(form) => unknown_form(metas, form),
    }
}

fn unknown_in_args(metas: &Names, args: &[SourceBase]) -> Option<u32>
    ensures { result ≡ first_of (unknown_base metas.now) args.now }
{
    for arg in args {
        let found = unknown_base(metas, *arg);
        if found.is_some() {
            return found;
        }
    }
    None
}

fn unknown_use(facts: &Names, metas: &Names, fact: &SourceUse) -> Option<u32>
    ensures { result ≡ unknown_use facts.now metas.now fact.now }
{
    unknown(facts, fact.name).or(unknown_in_args(metas, fact.args.as_slice()))
}

fn unknown_side(metas: &Names, side: SourceSide) -> Option<u32>
    ensures { result ≡ unknown_side metas.now side }
{
    match side {
        SourceSide::Plain(base) => unknown_base(metas, base),
        SourceSide::Compute(operation) => unknown_operation(metas, operation),
    }
}

fn unknown_cond(facts: &Names, metas: &Names, cond: &SourceCond) -> Option<u32>
    ensures { result ≡ unknown_cond facts.now metas.now cond.now }
{
    match cond {
        SourceCond::Fact(fact) => unknown_use(facts, metas, fact),
        SourceCond::Side(left, _, right) => {
            unknown_side(metas, *left).or(unknown_side(metas, *right))
        }
    }
}

pub(crate) fn unknown_in_conds(facts: &Names, metas: &Names, conds: &[SourceCond]) -> Option<u32>
    ensures { result ≡ first_of (unknown_cond facts.now metas.now) conds.now }
{
    for cond in conds {
        let found = unknown_cond(facts, metas, cond);
        if found.is_some() {
            return found;
        }
    }
    None
}

pub(crate) fn unknown_conclusion(
    facts: &Names,
    metas: &Names,
    conclusion: &SourceConclusion,
) -> Option<u32>
    ensures { result ≡ unknown_conclusion facts.now metas.now conclusion.now }
{
    match conclusion {
        SourceConclusion::Fact(fact, _) => unknown_use(facts, metas, fact),
        SourceConclusion::Transform(form) => unknown_form(metas, *form),
    }
}
