//! What may be wrong with the procedures of a program.

/// A number that has a largest value.
#[derive(Clone, Copy, Debug, PartialEq, Eq)]
pub enum Limited {
    /// At most 256 procedures.
    Procs,
    /// From 1 to 64 variables in a procedure.
    Vars,
    /// At most 1,024 statements in a procedure.
    Stmts,
}

/// What is wrong.
#[derive(Clone, Copy, Debug, PartialEq, Eq)]
pub enum ProgWrong {
    /// An earlier procedure, or an earlier variable of the procedure, has the name.
    DuplicateName,
    /// There is no variable or no procedure of a number.
    BadNumber,
    /// There is no statement of a number.
    BadTarget,
    /// Control can run off the end of a body.
    FallsOff,
    /// No procedure is called `main`.
    NoMain,
    /// There are too many, or too few.
    Limit(Limited),
}

/// Why procedures are not a program.
#[derive(Clone, Copy, Debug, PartialEq, Eq)]
pub enum ProgFault {
    /// The first check that fails: in which procedure, and at which variable or statement.
    Wrong {
        kind: ProgWrong,
        proc: u32,
        item: u32,
    },
    NoMemory,
}
