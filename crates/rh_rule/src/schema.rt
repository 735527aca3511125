//! Fact schemas: facts with parameters, and what they mean in a state.
use rh_il::{Name, Op};
use rh_list::Items;

/// What a parameter or a metavariable stands for.
#[derive(Clone, Copy, Debug, PartialEq, Eq)]
pub enum Kind {
    /// A variable of the procedure.
    Var,
    /// A number.
    Const,
}

/// A parameter of a schema, or a metavariable of a rule.
#[derive(Clone, Copy)]
pub struct Param {
    /// Its name.
    pub name: Name,
    /// What it stands for.
    pub kind: Kind,
}

/// An operand in a meaning.
#[derive(Clone, Copy, Debug, PartialEq, Eq)]
pub enum MeaningBase {
    /// A parameter by its number: the value of a variable, or a number.
    Param(u32),
    /// A number.
    Num(i64),
}

/// A value that a meaning speaks of.
#[derive(Clone, Copy, Debug, PartialEq, Eq)]
pub enum MeaningTerm {
    /// An operand.
    Plain(MeaningBase),
    /// `&X`
    Address(u32),
    /// `*X`
    Deref(u32),
    /// `(b op c)`
    Compute(Op, MeaningBase, MeaningBase),
}

/// One condition of a meaning.
#[derive(Clone, Copy, Debug, PartialEq, Eq)]
pub enum MeaningAtom {
    /// `s == t`
    Same(MeaningTerm, MeaningTerm),
    /// `s != t`
    Differ(MeaningTerm, MeaningTerm),
    /// `number(t)`
    IsNumber(MeaningTerm),
    /// `pointer(t)`
    IsPointer(MeaningTerm),
    /// `unaliased(X)`: no cell holds the pointer to X.
    Unaliased(u32),
}

/// A fact with parameters. It holds where each atom of its meaning does.
#[derive(Drop)]
pub struct Schema {
    /// Its name.
    pub name: Name,
    /// Its parameters.
    pub params: Items<Param>,
    /// The atoms of its meaning.
    pub meaning: Items<MeaningAtom>,
}
