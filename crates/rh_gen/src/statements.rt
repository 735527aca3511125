//! Statements that are made of drawn numbers.
ghost use Rattle.std.specs.Prelude.{◌≡◌, ◌+◌, ◌-◌, ◌<◌, ◌++◌, ◌∷◌, [], IfOk, OnOk};
ghost use Rattle.rh_il.specs.declared.program.Base.TheVariants.{Var};
ghost use Rattle.rh_il.specs.declared.program.Stmt.TheVariants.{Call, Compute, If};
ghost use Rattle.rh_gen.specs.Draws.{drawn, next};
ghost use Rattle.rh_gen.specs.Generated.{made, returning, state_after, stmts_from};

use crate::draws::Draws;
use crate::names::VARIABLES;
use rh_il::{Base, Op, Stmt};
use rh_list::Items;
use std::alloc::{AllocError, Global};

/// How many statements of a procedure are drawn.
const DRAWN: u32 = 39;

impl Draws {
    /// A variable, by its number.
    fn variable(&mut self) -> u32
        ensures state { self.new.state ≡ next self.old.state }
        ensures number { result ≡ drawn 8 self.new.state }
    {
        self.draw(VARIABLES)
    }

    /// A target after the statement with a number.
    fn target(&mut self, number: u32) -> u32
        requires { number < 39 }
        ensures state { self.new.state ≡ next self.old.state }
        ensures number { result ≡ number + 1 + drawn (39 - number) self.new.state }
    {
        number + 1 + self.draw(DRAWN - number)
    }

    /// The statement with a number, in a program of so many procedures besides `main`.
    fn stmt(&mut self, procs: u32, number: u32) -> Stmt
        requires some { 0 < procs }
        requires inside { number < 39 }
        ensures stmt { result ≡ (made procs number self.old.state).0 }
        ensures state { self.new.state ≡ (made procs number self.old.state).1 }
    {
        let kind = self.draw(10);
        let to = self.variable();
        match kind {
            0 => Stmt::Copy {
                to,
                from: Base::Num(i64::from(self.variable())),
            },
            1 => Stmt::Copy {
                to,
                from: Base::Var(self.variable()),
            },
            2 => self.computation(to, Op::Add),
            3 => self.computation(to, Op::Less),
            4 => Stmt::Address {
                to,
                of: self.variable(),
            },
            5 => Stmt::Load {
                to,
                from: self.variable(),
            },
            6 => Stmt::Write {
                to,
                from: Base::Var(self.variable()),
            },
            7 => Stmt::New { to },
            8 => self.branch(to, number),
            _ => self.call(to, procs),
        }
    }

    /// A variable, and an operator of two others.
    fn computation(&mut self, to: u32, op: Op) -> Stmt
        ensures stmt { result ≡ Compute to op (Var (drawn 8 (next self.old.state))) (Var (drawn 8 self.new.state)) }
        ensures state { self.new.state ≡ next (next self.old.state) }
    {
        Stmt::Compute {
            to,
            op,
            left: Base::Var(self.variable()),
            right: Base::Var(self.variable()),
        }
    }

    /// A branch to two statements after the one with a number.
    fn branch(&mut self, condition: u32, number: u32) -> Stmt
        requires { number < 39 }
        ensures stmt { result ≡ If (Var condition) (number + 1 + drawn (39 - number) (next self.old.state)) (number + 1 + drawn (39 - number) self.new.state) }
        ensures state { self.new.state ≡ next (next self.old.state) }
    {
        Stmt::If {
            cond: Base::Var(condition),
            yes: self.target(number),
            no: self.target(number),
        }
    }

    /// A call of one of so many procedures.
    fn call(&mut self, to: u32, procs: u32) -> Stmt
        requires { 0 < procs }
        ensures stmt { result ≡ Call to (drawn procs (next self.old.state)) (Var (drawn 8 self.new.state)) }
        ensures state { self.new.state ≡ next (next self.old.state) }
    {
        Stmt::Call {
            to,
            proc: self.draw(procs),
            arg: Base::Var(self.variable()),
        }
    }
}

/// The statements of a procedure, in a program of so many besides `main`.
pub(crate) fn statements(
    alloc: Global,
    draws: &mut Draws,
    procs: u32,
) -> Result<Items<Stmt>, AllocError>
    requires { 0 < procs }
    ensures body { IfOk result (λ body. body ≡ stmts_from procs 0 39 draws.old.state ++ returning ∷ []) }
    ensures state { OnOk result (draws.new.state ≡ state_after procs 0 39 draws.old.state) }
{
    let mut body = Items::new(alloc);
    for number in 0..DRAWN {
        body.push(draws.stmt(procs, number))?;
    }
    body.push(returning())?;
    Ok(body)
}

/// `return v1`
pub(crate) fn returning() -> Stmt
    ensures { result ≡ returning }
{
    Stmt::Return {
        value: Base::Var(1),
    }
}
