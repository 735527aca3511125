//! Runs of a program.
ghost use Rattle.std.specs.Prelude.{◌≡◌, ◌≤◌, IfOk};
ghost use Rattle.rh_il_step.specs.State.{IsStateOf};
ghost use Rattle.rh_il_step.specs.Run.{start};
ghost use Rattle.rh_il_step.specs.RunEnd.{IsRunEnd, TellsStuck};

use crate::laws::starts_are_states;
use crate::state::State;
use crate::stepping::{Outcome, statement_at, step};
use rh_il::{Program, Value};
use std::alloc::{AllocError, Global};

/// The most steps of a run.
pub const MOST_STEPS: u32 = 1_000_000;

/// How a run of so many steps ends.
#[derive(Clone, Copy, Debug, PartialEq, Eq)]
pub enum RunEnd {
    /// `main` returned the value, in so many steps, the return among them.
    Returned { value: Value, steps: u32 },
    /// After so many steps the statement `node` of the procedure `proc` cannot step.
    Stuck { proc: u32, node: u32, steps: u32 },
    /// All steps were made, and the program is not over.
    Running,
}

/// `main` at its entry, with a number as its argument.
pub fn start(alloc: Global, program: &Program, arg: i64) -> Result<State, AllocError>
    ensures { IfOk result (λ state. state ≡ start program.now arg) }
{
    let main = program.main();
    let Some(code) = program.proc(main) else {
        unreachable!()
    };
    let mut state = State::empty(alloc);
    state.enter(main, Value::Num(arg), code.vars.len().saturating_sub(1))?;
    Ok(state)
}

/// Where a state that cannot step is at.
fn stuck_at(program: &Program, state: &State, steps: u32) -> RunEnd
    requires { IsStateOf program.now state.now }
    ensures { TellsStuck program.now state.now steps result }
{
    let Some(top) = state.top() else {
        unreachable!()
    };
    let Some((node, _)) = statement_at(program, top) else {
        unreachable!()
    };
    RunEnd::Stuck {
        proc: top.proc,
        node,
        steps,
    }
}

/// Runs a program for at most so many steps.
pub fn run(alloc: Global, program: &Program, arg: i64, most: u32) -> Result<RunEnd, AllocError>
    requires { most ≤ MOST_STEPS }
    ensures { IfOk result (IsRunEnd program.now arg most) }
{
    starts_are_states(program);
    let mut state = start(alloc, program, arg)?;
    for steps in 0..most {
        match step(program, &mut state)? {
            Outcome::Went => {}
            Outcome::Returned(value) => {
                let steps = steps + 1;
                return Ok(RunEnd::Returned { value, steps });
            }
            Outcome::Stuck => return Ok(stuck_at(program, &state, steps)),
        }
    }
    Ok(RunEnd::Running)
}
