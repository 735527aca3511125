//! Statements, procedures and their edges.
use crate::name::Name;
use crate::value::Op;
use rh_list::Items;

/// An operand: a variable by its number in the procedure, or a number.
#[derive(Clone, Copy, Debug, PartialEq, Eq)]
pub enum Base {
    /// A variable, by its number in the procedure. The parameter is number 0.
    Var(u32),
    /// A number.
    Num(i64),
}

/// A statement. Variables are numbers in the procedure, targets are statements of the procedure,
/// and `proc` is a procedure of the program, all counted from 0.
#[derive(Clone, Copy, Debug, PartialEq, Eq)]
pub enum Stmt {
    /// `skip`
    Skip,
    /// `to := from`
    Copy {
        to: u32,
        from: Base,
    },
    /// `to := &of`
    Address {
        to: u32,
        of: u32,
    },
    /// `to := *from`
    Load {
        to: u32,
        from: u32,
    },
    /// `to := left op right`
    Compute {
        to: u32,
        op: Op,
        left: Base,
        right: Base,
    },
    /// `*to := from`
    Write {
        to: u32,
        from: Base,
    },
    /// `to := new`
    New {
        to: u32,
    },
    /// `to := proc(arg)`
    Call {
        to: u32,
        proc: u32,
        arg: Base,
    },
    /// `goto to`
    Goto {
        to: u32,
    },
    /// `if cond goto yes else no`
    If {
        cond: Base,
        yes: u32,
        no: u32,
    },
    /// `return value`
    Return {
        value: Base,
    },
}

/// A procedure.
#[derive(Drop)]
pub struct Proc {
    /// Its name.
    pub name: Name,
    /// Its variables. The first is the parameter, the others are the locals.
    pub vars: Items<Name>,
    /// Its statements.
    pub body: Items<Stmt>,
}

/// Where an edge of a procedure's flow graph begins.
#[derive(Clone, Copy, Debug, PartialEq, Eq)]
pub enum Node {
    /// The entry of the procedure.
    Entry,
    /// A statement, by its number.
    At(u32),
}

/// By which of its ways out an edge leaves its node.
#[derive(Clone, Copy, Debug, PartialEq, Eq)]
pub enum Slot {
    /// The only way out of a node that does not branch.
    Out,
    /// Where the condition of an `if` is not 0.
    Then,
    /// Where the condition of an `if` is 0.
    Else,
}

/// An edge of a procedure's flow graph, by where it begins.
#[derive(Clone, Copy, Debug, PartialEq, Eq)]
pub struct Edge {
    /// The node that it leaves.
    pub node: Node,
    /// By which way out.
    pub slot: Slot,
}
