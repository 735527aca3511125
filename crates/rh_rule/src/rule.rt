//! Rules: from facts before a statement to a fact after it, or to another statement.
use crate::schema::Param;
use rh_il::{Name, Op, Slot};
use rh_list::Items;

/// An operand in a rule.
#[derive(Clone, Copy, Debug, PartialEq, Eq)]
pub enum RuleBase {
    /// A metavariable, by its number.
    Meta(u32),
    /// A number.
    Num(i64),
    /// `_`: any operand.
    Wild,
}

/// The form of a statement, over metavariables.
#[derive(Clone, Copy, Debug, PartialEq, Eq)]
pub enum Form {
    /// The entry of a procedure with this parameter.
    Entry(u32),
    /// `goto`
    Goto,
    /// `skip`
    Skip,
    /// `X := _`: every assignment but a call.
    AnyAssign {
        to: u32,
    },
    /// `X := b`
    Assign {
        to: u32,
        from: RuleBase,
    },
    /// `X := &Y`
    Address {
        to: u32,
        of: u32,
    },
    /// `X := *Y`
    Load {
        to: u32,
        from: u32,
    },
    /// `X := b op c`
    Compute {
        to: u32,
        op: Op,
        left: RuleBase,
        right: RuleBase,
    },
    /// `*X := b`
    Write {
        to: u32,
        from: RuleBase,
    },
    /// `X := new`
    New {
        to: u32,
    },
    /// `X := call(b)`: a call of any procedure.
    Call {
        to: u32,
        arg: RuleBase,
    },
    /// `if b`
    If(RuleBase),
    /// `return b`
    Return(RuleBase),
}

/// A fact with metavariables and numbers as its arguments.
#[derive(Drop)]
pub struct FactUse {
    /// The schema, by its number in the file.
    pub schema: u32,
    /// One argument for each parameter of the schema.
    pub args: Items<RuleBase>,
}

/// A value that a side condition speaks of.
#[derive(Clone, Copy, Debug, PartialEq, Eq)]
pub enum SideTerm {
    /// An operand.
    Plain(RuleBase),
    /// `(b op c)`
    Compute(Op, RuleBase, RuleBase),
}

/// A side condition. Two variables differ where they are two variables; other conditions speak of
/// numbers.
#[derive(Clone, Copy, Debug, PartialEq, Eq)]
pub enum Side {
    /// `s == t`
    Same(SideTerm, SideTerm),
    /// `s != t`
    Differ(SideTerm, SideTerm),
}

/// What a rule concludes.
#[derive(Drop)]
pub enum Conclusion {
    /// A fact on the edge that leaves the statement by a slot.
    Fact { fact: FactUse, slot: Slot },
    /// That the statement may be replaced by this one.
    Transform(Form),
}

/// A rule.
#[derive(Drop)]
pub struct Rule {
    /// Its name.
    pub name: Name,
    /// Its metavariables.
    pub params: Items<Param>,
    /// The form of the statements that it is about.
    pub pattern: Form,
    /// The facts that have to be there on each edge that enters the statement.
    pub premises: Items<FactUse>,
    /// The side conditions.
    pub sides: Items<Side>,
    /// What follows.
    pub conclusion: Conclusion,
}

/// Whether a rule is proved.
#[derive(Clone, Copy, Debug, PartialEq, Eq)]
pub enum Ruling {
    /// It is.
    Admitted,
    /// It is not: this one of its obligations is the first that is not shown.
    Refused(u32),
}

/// What a metavariable or a parameter is bound to.
#[derive(Clone, Copy, Debug, PartialEq, Eq)]
pub enum Arg {
    /// A variable, by its number in the procedure.
    Var(u32),
    /// A number.
    Const(i64),
}
