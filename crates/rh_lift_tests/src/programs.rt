//! Random programs of two procedures.
ghost use Rattle.std.specs.Prelude.{◌<◌};

use crate::random::Random;
use rh_il::{Base, Name, Op, Proc, Program, Stmt, are_proper};
use rh_list::Items;
use std::alloc::Global;
use std::process::Abort;
use std::test::Fail;

/// The variables of each procedure.
const VARS: u32 = 3;

/// A statement of the procedure with a number, which has so many statements. Most pointers go through one variable: it is
/// the parameter of `f`, to which `main` passes its own. So `f` often writes to what `main` knows.
fn statement(random: &mut Random, place: u32, size: u32) -> Stmt
    requires place { place < 2 }
    requires size { 0 < size }
{
    let pointer = 1 - place;
    let to = variable(random);
    match random.below(12) {
        0 => Stmt::Copy {
            to,
            from: operand(random),
        },
        1 | 2 => Stmt::Copy {
            to,
            from: number(random),
        },
        3 | 4 | 5 => Stmt::Address {
            to: pointer,
            of: to,
        },
        6 => Stmt::Load { to, from: pointer },
        7 | 8 | 9 | 10 if place == 0 => Stmt::Call {
            to,
            proc: 1,
            arg: Base::Var(pointer),
        },
        7 | 8 | 9 | 10 => Stmt::Write {
            to: pointer,
            from: operand(random),
        },
        _ => other(random, pointer, size),
    }
}

fn other(random: &mut Random, pointer: u32, size: u32) -> Stmt
    requires { 0 < size }
{
    match random.below(6) {
        0 => Stmt::Skip,
        1 => Stmt::New {
            to: variable(random),
        },
        2 => Stmt::Goto {
            to: random.below(size),
        },
        3 => Stmt::Compute {
            to: variable(random),
            op: operator(random),
            left: operand(random),
            right: operand(random),
        },
        4 => Stmt::Call {
            to: variable(random),
            proc: 1,
            arg: Base::Var(pointer),
        },
        _ => Stmt::If {
            cond: operand(random),
            yes: random.below(size),
            no: random.below(size),
        },
    }
}

fn operator(random: &mut Random) -> Op {
    match random.below(5) {
        0 => Op::Add,
        1 => Op::Sub,
        2 => Op::Mul,
        3 => Op::Less,
        _ => Op::Equal,
    }
}

fn operand(random: &mut Random) -> Base {
    match random.below(2) {
        0 => number(random),
        _ => Base::Var(variable(random)),
    }
}

fn number(random: &mut Random) -> Base {
    Base::Num(i64::from(random.below(3)))
}

fn variable(random: &mut Random) -> u32 {
    random.below(VARS)
}

fn name(bytes: &[u8]) -> Result<Name, Fail> {
    Ok(Name::of(bytes).ok_or("no name")?)
}

/// The procedure with a number, of two to six statements, the last of which returns.
fn procedure(alloc: Global, spelled: &[u8], place: u32, random: &mut Random) -> Result<Proc, Fail>
    requires { place < 2 }
{
    let mut vars = Items::new(alloc);
    for spelled in [b"a", b"x", b"y"] {
        vars.push(name(spelled)?)?;
    }
    let size = 2 + random.below(5);
    let mut body = Items::new(alloc);
    for _ in 1..size {
        body.push(statement(random, place, size))?;
    }
    body.push(Stmt::Return {
        value: operand(random),
    })?;
    Ok(Proc {
        name: name(spelled)?,
        vars,
        body,
    })
}

/// A program of `main` and a procedure `f`, which both may call.
pub fn random_program(
    rt: &(impl Alloc<A = Global> + Abort),
    random: &mut Random,
) -> Result<Program, Fail> {
    let main = procedure(rt.alloc(), b"main", 0, random)?;
    let other = procedure(rt.alloc(), b"f", 1, random)?;
    let procs = vec![in rt.alloc(); main, other]?;
    assert!(rt; are_proper(procs.as_slice()));
    Ok(Program::new(procs).ok().ok_or("no program")?)
}
