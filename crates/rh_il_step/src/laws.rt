//! Laws of states: a run never leaves the states of its program.
ghost use Rattle.std.specs.Prelude.{ℕ, ℤ, ◌≡◌, Some};
ghost use Rattle.rh_il.specs.Value.{IsNumber};
ghost use Rattle.rh_il_step.specs.Run.{run, start};
ghost use Rattle.rh_il_step.specs.State.{State, IsStateOf};
ghost use Rattle.rh_il_step.specs.Step.{Went, step};

use rh_il::{Program, numbers_fit};

/// The state in which a program begins is one of its states.
pub fn starts_are_states(program: &Program)
    ensures { (arg : ℤ) → IsNumber arg → IsStateOf program.now (start program.now arg) }
{
    numbers_fit(program);
    let _count = program.count();
}

/// Each step leads from a state of the program to a state of the program.
pub fn steps_keep_states(program: &Program)
    ensures { (state next : State) → IsStateOf program.now state → step program.now state ≡ Went next → IsStateOf program.now next }
{
    numbers_fit(program);
    let _count = program.count();
}

/// Each state of a run is a state of the program.
pub fn runs_are_states(program: &Program)
    ensures { (arg : ℤ) → IsNumber arg → (steps : ℕ) (state : State) → run program.now arg steps ≡ Some state → IsStateOf program.now state }
{
    numbers_fit(program);
    let _count = program.count();
}
