//! The command `run`.
ghost use Rattle.std.specs.Prelude.{ℤ, ◌≡◌, ◌≤◌, IfErr, IfOk};
ghost use Rattle.rh_top.specs.Outputs.{IsOfProgram};
ghost use Rattle.rh_top.specs.Files.{RefusesProgram};
ghost use Rattle.rh_top.specs.Result.{IsRun};

use crate::input::program_in;
use rh_il::Program;
use rh_outside::Shelf;
use rh_report::{Status, run_line};
use std::alloc::{AllocError, Global};

/// The line that says how a run of at most so many steps ends.
fn end_of(alloc: Global, program: &Program, arg: i64, steps: u32) -> Result<Vec<u8>, AllocError>
    requires { steps ≤ 1000000 }
    ensures { IfOk result (λ text. IsRun program.now arg steps text.items) }
{
    let end = rh_il_step::run(alloc, program, arg, steps)?;
    run_line(alloc, program, steps, end)
}

/// Runs a program with a number as the argument of `main`.
pub(crate) fn run<S: Shelf>(
    alloc: Global,
    steps: u32,
    program: &str,
    arg: i64,
    shelf: &mut S,
) -> Result<Vec<u8>, Status>
    requires { steps ≤ 1000000 }
    ensures made { IfOk result (λ text. IsOfProgram steps (S.holds shelf.old program.now) arg text.items) }
    ensures refused { IfErr result (RefusesProgram (record { held = S.holds shelf.old program.now; faults_before = S.faults shelf.old program.now; faults_after = S.faults shelf.new program.now })) }
{
    let program = program_in(alloc, shelf, program)?;
    Ok(end_of(alloc, &program, arg, steps)?)
}
