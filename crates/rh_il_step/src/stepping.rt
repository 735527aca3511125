//! One step of a program.
ghost use Rattle.std.specs.Prelude.{ℕ, List, Some, ◌≡◌, ◌<◌, ◌+◌, ◌^◌, ◌∷◌, length, slice_get, IfOk, OnErr};
ghost use Rattle.rh_list.specs.Each.{Each};
ghost use Rattle.rh_il.specs.Numbers.{HasNumbers};
ghost use Rattle.rh_il.specs.Checks.{IsProgram};
ghost use Rattle.rh_il.specs.Op.{apply};
ghost use Rattle.rh_il.specs.declared.program.Stmt.TheVariants.{Call};
ghost use Rattle.rh_il_step.specs.State.{IsStateOf, cell, statement_at, width_of};
ghost use Rattle.rh_il_step.specs.Step.{branches, calls, computes, executed, goes_on, loads, renews, returns, sets, step, writes};
ghost use Rattle.rh_il_step.specs.Told.{Does, DoesOrFails, Leaves};

use crate::frame::Frame;
use crate::state::State;
use rh_il::{Base, Program, Slot, Stmt, Value, numbers_fit};
use std::alloc::{AllocError, Global};

/// What a step comes to.
#[derive(Clone, Copy, Debug, PartialEq, Eq)]
pub enum Outcome {
    /// The state is the next one.
    Went,
    /// The program is over: `main` returned the value.
    Returned(Value),
    /// The statement cannot step.
    Stuck,
}

/// The statement that the frame's edge enters, with its number.
pub(crate) fn statement_at(program: &Program, frame: Frame) -> Option<(u32, Stmt)>
    ensures { result ≡ statement_at program.now frame }
{
    let number = program.target(frame.proc, frame.edge)?;
    let proc = program.proc(frame.proc)?;
    let stmt = proc.body.as_slice().get(number as usize)?;
    Some((number, *stmt))
}

/// Control goes on after the statement.
fn go_on(state: &mut State, top: Frame, number: u32) -> Outcome
    ensures { Does top (λ below. goes_on top below number state.old.cells) state.old state.new result }
{
    state.leave(number, Slot::Out);
    Outcome::Went
}

/// A variable gets a value.
fn assign(state: &mut State, top: Frame, number: u32, to: u32, value: Value) -> Outcome
    ensures { Does top (λ below. sets top below number state.old.cells to value) state.old state.new result }
{
    state.set(top.base, to, value);
    state.leave(number, Slot::Out);
    Outcome::Went
}

/// A variable gets what a cell holds.
fn load(state: &mut State, top: Frame, number: u32, to: u32, address: Value) -> Outcome
    ensures { Does top (λ below. loads top below number state.old.cells to address) state.old state.new result }
{
    match address {
        Value::Num(_) => Outcome::Stuck,
        Value::Ptr(location) => {
            let value = state.cell(location);
            assign(state, top, number, to, value)
        }
    }
}

/// A variable gets what an operator gives, if it gives a value.
fn compute(state: &mut State, top: Frame, number: u32, to: u32, value: Option<Value>) -> Outcome
    ensures { Does top (λ below. computes top below number state.old.cells to value) state.old state.new result }
{
    match value {
        None => Outcome::Stuck,
        Some(value) => assign(state, top, number, to, value),
    }
}

/// A cell gets a value.
fn write(state: &mut State, top: Frame, number: u32, address: Value, value: Value) -> Outcome
    ensures { Does top (λ below. writes top below number state.old.cells address value) state.old state.new result }
{
    match address {
        Value::Num(_) => Outcome::Stuck,
        Value::Ptr(location) => {
            state.set(location, 0, value);
            state.leave(number, Slot::Out);
            Outcome::Went
        }
    }
}

/// Control goes one of two ways.
fn branch(state: &mut State, top: Frame, number: u32, condition: Value) -> Outcome
    ensures { Does top (λ below. branches top below number state.old.cells condition) state.old state.new result }
{
    match condition {
        Value::Ptr(_) => Outcome::Stuck,
        Value::Num(condition) => {
            let slot = if condition == 0 {
                Slot::Else
            } else {
                Slot::Then
            };
            state.leave(number, slot);
            Outcome::Went
        }
    }
}

/// The running procedure is over, and the call below it gets its value, or `main` is over.
fn end(program: &Program, state: &mut State, top: Frame, value: Value) -> Outcome
    ensures { Does top (λ below. returns program.now below state.old.cells value) state.old state.new result }
{
    let Some(caller) = state.caller() else {
        return Outcome::Returned(value);
    };
    let Some((number, stmt)) = statement_at(program, caller) else {
        return Outcome::Stuck;
    };
    match stmt {
        Stmt::Call { to, .. } => {
            state.exit();
            assign(state, caller, number, to, value)
        }
        _ => Outcome::Stuck,
    }
}

/// A procedure is called.
fn call(
    program: &Program,
    state: &mut State,
    top: Frame,
    proc: u32,
    value: Value,
) -> Result<Outcome, AllocError>
    requires { proc < length program.now }
    ensures { DoesOrFails top (λ below. calls program.now top below state.old.cells proc value) state.old state.new result }
{
    let Some(code) = program.proc(proc) else {
        unreachable!()
    };
    state.enter(proc, value, code.vars.len().saturating_sub(1))?;
    Ok(Outcome::Went)
}

/// A variable gets a pointer to a new cell.
fn renew(state: &mut State, top: Frame, number: u32, to: u32) -> Result<Outcome, AllocError>
    ensures { DoesOrFails top (λ below. renews top below number state.old.cells to) state.old state.new result }
{
    let location = state.grow()?;
    Ok(assign(state, top, number, to, Value::Ptr(location)))
}

/// What a statement does that the running procedure is at.
fn execute(
    program: &Program,
    state: &mut State,
    top: Frame,
    number: u32,
    stmt: Stmt,
) -> Result<Outcome, AllocError>
    requires at { statement_at program.now top ≡ Some (number, stmt) }
    requires inside { top.base + width_of program.now top < 2 ^ 64 }
    ensures { DoesOrFails top (λ below. executed program.now top below state.old.cells number stmt) state.old state.new result }
{
    let base = top.base;
    let _count = program.count();
    match stmt {
        Stmt::Skip | Stmt::Goto { .. } => Ok(go_on(state, top, number)),
        Stmt::Copy { to, from } => {
            let value = state.operand(base, from);
            Ok(assign(state, top, number, to, value))
        }
        Stmt::Address { to, of } => {
            let location = base + u64::from(of);
            Ok(assign(state, top, number, to, Value::Ptr(location)))
        }
        Stmt::Load { to, from } => {
            let address = state.variable(base, from);
            Ok(load(state, top, number, to, address))
        }
        Stmt::Compute {
            to,
            op,
            left,
            right,
        } => {
            let value = op.apply(state.operand(base, left), state.operand(base, right));
            Ok(compute(state, top, number, to, value))
        }
        Stmt::Write { to, from } => {
            let address = state.variable(base, to);
            let value = state.operand(base, from);
            Ok(write(state, top, number, address, value))
        }
        Stmt::New { to } => renew(state, top, number, to),
        Stmt::Call { proc, arg, .. } => {
            let value = state.operand(base, arg);
            call(program, state, top, proc, value)
        }
        Stmt::If { cond, .. } => {
            let condition = state.operand(base, cond);
            Ok(branch(state, top, number, condition))
        }
        Stmt::Return { value } => {
            let value = state.operand(base, value);
            Ok(end(program, state, top, value))
        }
    }
}

/// Makes one step. The state is as it was where the statement cannot step, where `main` returns,
/// and where memory ran out.
pub fn step(program: &Program, state: &mut State) -> Result<Outcome, AllocError>
    requires { IsStateOf program.now state.old }
    ensures stepped { IfOk result (Leaves (step program.now state.old) state.old state.new) }
    ensures unchanged { OnErr result (state.new ≡ state.old) }
    ensures kept { IsStateOf program.now state.new }
{
    numbers_fit(program);
    let _count = program.count();
    let _size = state.cells().len();
    let Some(top) = state.top() else {
        return Ok(Outcome::Stuck);
    };
    let Some((number, stmt)) = statement_at(program, top) else {
        return Ok(Outcome::Stuck);
    };
    execute(program, state, top, number, stmt)
}
