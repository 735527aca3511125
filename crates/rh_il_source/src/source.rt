//! Procedures as their text has them, with names in place of numbers.
use rh_il::{Name, Op};
use rh_list::Items;

/// An operand: a variable, or a number by its sign and its size.
#[derive(Clone, Copy)]
pub enum Operand {
    Var(Name),
    Num { negative: bool, size: u64 },
}

/// A statement.
#[derive(Clone, Copy)]
pub enum Line {
    Skip,
    Copy {
        to: Name,
        from: Operand,
    },
    Address {
        to: Name,
        of: Name,
    },
    Load {
        to: Name,
        from: Name,
    },
    Compute {
        to: Name,
        op: Op,
        left: Operand,
        right: Operand,
    },
    Write {
        to: Name,
        from: Operand,
    },
    New {
        to: Name,
    },
    Call {
        to: Name,
        proc: Name,
        arg: Operand,
    },
    Goto {
        to: u32,
    },
    If {
        cond: Operand,
        yes: u32,
        no: u32,
    },
    Return {
        value: Operand,
    },
}

/// A procedure. The first of the variables is the parameter.
#[derive(Drop)]
pub struct Source {
    pub name: Name,
    pub vars: Items<Name>,
    pub body: Items<Line>,
}
