//! A rule file as it is written, with its names as they are spelled.

use crate::word::Spelled;
use rh_il::{Op, Slot};
use rh_list::Items;
use rh_rule::Kind;

/// An operand: a metavariable or a number.
#[derive(Clone, Copy)]
pub enum SourceBase {
    Named(Spelled),
    Num { negative: bool, size: u64 },
}

/// An operand, or `_`.
#[derive(Clone, Copy)]
pub enum SourceOperand {
    Wild,
    Plain(SourceBase),
}

/// `b op c`
#[derive(Clone, Copy)]
pub struct SourceOperation {
    pub left: SourceBase,
    pub op: Op,
    pub right: SourceBase,
}

/// `var X` or `const X`
#[derive(Clone, Copy)]
pub struct SourceParam {
    pub kind: Kind,
    pub name: Spelled,
}

/// `==` or `!=`
#[derive(Clone, Copy)]
pub enum Relation {
    Same,
    Differ,
}

/// A value that a meaning speaks of.
#[derive(Clone, Copy)]
pub enum SourceTerm {
    Plain(SourceBase),
    Address(Spelled),
    Deref(Spelled),
    Compute(SourceOperation),
}

/// One condition of a meaning.
#[derive(Clone, Copy)]
pub enum SourceAtom {
    IsNumber(SourceTerm),
    IsPointer(SourceTerm),
    Unaliased(Spelled),
    Compare(SourceTerm, Relation, SourceTerm),
}

/// `fact f(..) means ..;`
#[derive(Drop)]
pub struct SourceFact {
    pub name: Spelled,
    pub params: Items<SourceParam>,
    pub atoms: Items<SourceAtom>,
}

/// What stands to the right of `:=`.
#[derive(Clone, Copy)]
pub enum SourceRight {
    Any,
    New,
    Address(Spelled),
    Load(Spelled),
    Call(SourceOperand),
    Plain(SourceBase),
    Compute(SourceOperation),
}

/// The form of a statement that may stand in a pattern and in a template.
#[derive(Clone, Copy)]
pub enum SourceForm {
    Skip,
    Write(Spelled, SourceOperand),
    If(SourceOperand),
    Return(SourceOperand),
    Assign(Spelled, SourceRight),
}

/// The form of the statements that a rule is about.
#[derive(Clone, Copy)]
pub enum SourcePattern {
    Entry(Spelled),
    Goto,
    Form(SourceForm),
}

/// `f(..)`
#[derive(Drop)]
pub struct SourceUse {
    pub name: Spelled,
    pub args: Items<SourceBase>,
}

/// A value that a side condition speaks of.
#[derive(Clone, Copy)]
pub enum SourceSide {
    Plain(SourceBase),
    Compute(SourceOperation),
}

/// A condition of a rule: a fact on the edges that enter, or a side condition.
#[derive(Drop)]
pub enum SourceCond {
    Fact(SourceUse),
    Side(SourceSide, Relation, SourceSide),
}

/// What a rule concludes.
#[derive(Drop)]
pub enum SourceConclusion {
    Fact(SourceUse, Slot),
    Transform(SourceForm),
}

/// `rule q(..) { .. }`
#[derive(Drop)]
pub struct SourceRule {
    pub name: Spelled,
    pub params: Items<SourceParam>,
    pub pattern: SourcePattern,
    pub conds: Items<SourceCond>,
    pub conclusion: SourceConclusion,
}

/// A fact or a rule.
#[derive(Drop)]
pub enum SourceItem {
    Fact(SourceFact),
    Rule(SourceRule),
}

/// A rule file: whether it has the header `rhodium 1;`, and its facts and rules in their order.
#[derive(Drop)]
pub struct SourceFile {
    pub headed: bool,
    pub items: Items<SourceItem>,
}
