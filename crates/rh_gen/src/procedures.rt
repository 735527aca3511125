//! The procedures of a made program.
ghost use Rattle.std.specs.Prelude.{◌≡◌, ◌≤◌, ◌<◌, codes, IfOk, OnOk};
ghost use Rattle.rh_il.specs.Checks.{IsProgram};
ghost use Rattle.rh_gen.specs.Generated.{generated, main_proc, made_proc, state_after};

use crate::draws::Draws;
use crate::names::{numbered, variables};
use crate::statements::{returning, statements};
use rh_il::{Base, Name, Proc, Program, Stmt};
use rh_list::Items;
use std::alloc::{AllocError, Global};

/// The procedure with a number, in a program of so many besides `main`.
fn procedure(alloc: Global, draws: &mut Draws, procs: u32, number: u32) -> Result<Proc, AllocError>
    requires { 0 < procs }
    ensures proc { IfOk result (λ proc. proc ≡ made_proc procs number draws.old.state) }
    ensures state { OnOk result (draws.new.state ≡ state_after procs 0 39 draws.old.state) }
{
    let name = numbered(alloc, b'p', number)?;
    let vars = variables(alloc)?;
    let body = statements(alloc, draws, procs)?;
    Ok(Proc { name, vars, body })
}

/// A call of each procedure, and a return.
fn calls(alloc: Global, procs: u32) -> Result<Items<Stmt>, AllocError>
    ensures { IfOk result (λ body. body ≡ (main_proc procs).body) }
{
    let mut body = Items::new(alloc);
    for proc in 0..procs {
        body.push(Stmt::Call {
            to: 1,
            proc,
            arg: Base::Var(0),
        })?;
    }
    body.push(returning())?;
    Ok(body)
}

/// The name of the procedure with which a program starts.
fn main_name() -> Name
    ensures { result ≡ codes "main" }
{
    match Name::of(b"main") {
        Some(name) => name,
        None => unreachable!(),
    }
}

/// The procedure that calls so many others.
fn main_proc(alloc: Global, procs: u32) -> Result<Proc, AllocError>
    ensures { IfOk result (λ proc. proc ≡ main_proc procs) }
{
    let name = main_name();
    let vars = variables(alloc)?;
    let body = calls(alloc, procs)?;
    Ok(Proc { name, vars, body })
}

/// So many procedures and `main`.
fn procedures(alloc: Global, procs: u32) -> Result<Vec<Proc>, AllocError>
    requires { procs ≤ 255 }
    ensures { IfOk result (λ made. made.items ≡ generated procs) }
{
    let mut draws = Draws {
        state: u64::from(procs),
    };
    let mut made = Vec::new(alloc);
    for place in 0..procs {
        made.push(procedure(alloc, &mut draws, procs, place + 1)?)?;
    }
    made.push(main_proc(alloc, procs)?)?;
    Ok(made)
}

/// The program of procedures that pass every check.
fn checked(procs: Vec<Proc>) -> Program
    requires { IsProgram procs.items }
    ensures { result ≡ procs.items }
{
    match Program::new(procs) {
        Ok(program) => program,
        Err(_) => unreachable!(),
    }
}

/// The program of so many procedures and `main`.
pub(crate) fn program(alloc: Global, procs: u32) -> Result<Program, AllocError>
    requires { procs ≤ 255 }
    ensures { IfOk result (λ program. program ≡ generated procs) }
{
    let made = procedures(alloc, procs)?;
    Ok(checked(made))
}
