//! The numbers of schemas and rules are those of 64 bits. The type of a number says so of one number;
//! the functions here say it of what holds numbers. They change nothing.

ghost use Rattle.std.specs.List.{AllByRecursion};
ghost use Rattle.rh_rule.specs.Ranges.{MeaningNumberFits, TermNumbersFit, AtomNumbersFit, SchemaNumbersFit, NumberFits, NumbersFit, UseNumbersFit, SideNumbersFit, ConclusionNumbersFit, RuleNumbersFit};
ghost use Rattle.rh_rule.specs.Operands.{operands, term_operands};

use crate::rule::{Conclusion, FactUse, Form, Rule, RuleBase, Side, SideTerm};
use crate::schema::{MeaningAtom, MeaningBase, MeaningTerm, Schema};

/// What holds numbers.
trait HoldsNumbers: Drop {
    /// Its numbers are those of 64 bits.
    ghost fits: { Self → Type 0 };

    /// They are.
    fn fit(&self)
        ensures { fits self.now };
}

/// The numbers of all items.
fn all_fit<T: HoldsNumbers>(items: &[T])
    ensures { AllByRecursion T.fits items.now }
{
    for item in items {
        item.fit();
    }
}

fn meaning_fits(base: MeaningBase)
    ensures { MeaningNumberFits base }
{
    match base {
        MeaningBase::Param(_param) => {}
        MeaningBase::Num(_number) => {}
    }
}

fn term_fits(term: MeaningTerm)
    ensures { TermNumbersFit term }
{
    match term {
        MeaningTerm::Plain(base) => meaning_fits(base),
        MeaningTerm::Address(_param) => {}
        MeaningTerm::Deref(_param) => {}
        MeaningTerm::Compute(_op, left, right) => {
            meaning_fits(left);
            meaning_fits(right);
        }
    }
}

impl HoldsNumbers for MeaningAtom {
    ghost fits = { AtomNumbersFit };

    fn fit(&self) {
        match *self {
            MeaningAtom::Same(s, t) | MeaningAtom::Differ(s, t) => {
                term_fits(s);
                term_fits(t);
            }
            MeaningAtom::IsNumber(t) | MeaningAtom::IsPointer(t) => term_fits(t),
            MeaningAtom::Unaliased(_param) => {}
        }
    }
}

impl HoldsNumbers for Schema {
    ghost fits = { SchemaNumbersFit };

    fn fit(&self) {
        all_fit(self.meaning.as_slice());
    }
}

fn base_fits(base: RuleBase)
    ensures { NumberFits base }
{
    match base {
        RuleBase::Num(_number) => {}
        RuleBase::Meta(_meta) => {}
        RuleBase::Wild => {}
    }
}

impl HoldsNumbers for RuleBase {
    ghost fits = { NumberFits };

    fn fit(&self) {
        base_fits(*self);
    }
}

impl HoldsNumbers for FactUse {
    ghost fits = { UseNumbersFit };

    fn fit(&self) {
        all_fit(self.args.as_slice());
    }
}

fn side_term_fits(term: SideTerm)
    ensures { NumbersFit (term_operands term) }
{
    match term {
        SideTerm::Plain(base) => base_fits(base),
        SideTerm::Compute(_op, left, right) => {
            base_fits(left);
            base_fits(right);
        }
    }
}

impl HoldsNumbers for Side {
    ghost fits = { SideNumbersFit };

    fn fit(&self) {
        match *self {
            Side::Same(s, t) | Side::Differ(s, t) => {
                side_term_fits(s);
                side_term_fits(t);
            }
        }
    }
}

fn form_fits(form: Form)
    ensures { NumbersFit (operands form) }
{
    match form {
        Form::Compute { left, right, .. } => {
            base_fits(left);
            base_fits(right);
        }
        Form::Assign { from: base, .. }
        | Form::Write { from: base, .. }
        | Form::Call { arg: base, .. }
        | Form::If(base)
        | Form::Return(base) => base_fits(base),
        Form::Entry(_param) => {}
        Form::Goto => {}
        Form::Skip => {}
        Form::AnyAssign { .. } => {}
        Form::Address { .. } => {}
        Form::Load { .. } => {}
        Form::New { .. } => {}
    }
}

fn conclusion_fits(conclusion: &Conclusion)
    ensures { ConclusionNumbersFit conclusion.now }
{
    match conclusion {
        Conclusion::Fact { fact, .. } => fact.fit(),
        Conclusion::Transform(template) => form_fits(*template),
    }
}

impl HoldsNumbers for Rule {
    ghost fits = { RuleNumbersFit };

    fn fit(&self) {
        form_fits(self.pattern);
        all_fit(self.premises.as_slice());
        all_fit(self.sides.as_slice());
        conclusion_fits(&self.conclusion);
    }
}

/// The numbers of the schemas and rules of a file.
pub(crate) fn numbers_fit(schemas: &[Schema], rules: &[Rule])
    ensures schemas { AllByRecursion SchemaNumbersFit schemas.now }
    ensures rules { AllByRecursion RuleNumbersFit rules.now }
{
    all_fit(schemas);
    all_fit(rules);
}
