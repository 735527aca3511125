//! The checks of a program.

ghost use Rattle.std.specs.Prelude.{◌≡◌, ◌+◌, ◌<◌, ◌≤◌, ◌^◌, nat_lt, length, codes};
ghost use Rattle.std.specs.List.{list_any, position};
ghost use Rattle.std.specs.Str.{bytes_eq};
ghost use Rattle.rh_il.specs.Checks.{first_some, unless, is_new_at, is_base, has_numbers, has_targets, is_jump, is_closed, stmt_fault, proc_fault, program_fault, is_called, is_new_proc_at};
ghost use Rattle.std.specs.Option.{option_and_then};
ghost use Rattle.std.specs.Result.{result_err};
ghost use Rattle.std.specs.Prelude.{slice_get};
ghost use Rattle.rh_il.specs.declared.fault.ProgWrong.TheVariants.{DuplicateName};

use crate::fault::{Limited, ProgFault, ProgWrong};
use crate::name::Name;
use crate::program::{Base, Proc, Stmt};

/// The most procedures of a program.
const MOST_PROCS: usize = 256;

/// The most variables of a procedure.
const MOST_VARS: usize = 64;

/// The most statements of a procedure.
const MOST_STMTS: usize = 1024;

/// Fails unless the test holds.
fn ensure(holds: bool, kind: ProgWrong, proc: u32, item: u32) -> Result<(), ProgFault>
    ensures { result_err result ≡ unless holds kind proc item }
{
    if holds {
        Ok(())
    } else {
        Err(ProgFault::Wrong { kind, proc, item })
    }
}

fn is_base(vars: usize, base: Base) -> bool
    ensures { result ≡ is_base vars base }
{
    match base {
        Base::Var(x) => (x as usize) < vars,
        Base::Num(_) => true,
    }
}

fn is_below(number: u32, count: usize) -> bool
    ensures { result ≡ nat_lt number count }
{
    (number as usize) < count
}

/// Whether the variables and the procedure of a statement are in range.
fn has_numbers(procs: usize, vars: usize, stmt: Stmt) -> bool
    ensures { result ≡ has_numbers procs vars stmt }
{
    match stmt {
        Stmt::Skip | Stmt::Goto { .. } => true,
        Stmt::Copy { to, from } | Stmt::Write { to, from } => {
            is_below(to, vars) && is_base(vars, from)
        }
        Stmt::Address { to, of } => is_below(to, vars) && is_below(of, vars),
        Stmt::Load { to, from } => is_below(to, vars) && is_below(from, vars),
        Stmt::Compute {
            to,
            left,
            right,
            ..
        } => { is_below(to, vars) && is_base(vars, left) && is_base(vars, right) }
        Stmt::New { to } => is_below(to, vars),
        Stmt::Call { to, proc, arg } => {
            is_below(to, vars) && is_below(proc, procs) && is_base(vars, arg)
        }
        Stmt::If { cond, .. } => is_base(vars, cond),
        Stmt::Return { value } => is_base(vars, value),
    }
}

/// Whether the targets of a statement are in range.
fn has_targets(stmts: usize, stmt: Stmt) -> bool
    ensures { result ≡ has_targets stmts stmt }
{
    match stmt {
        Stmt::Goto { to } => is_below(to, stmts),
        Stmt::If { yes, no, .. } => is_below(yes, stmts) && is_below(no, stmts),
        _ => true,
    }
}

fn is_jump(stmt: Stmt) -> bool
    ensures { result ≡ is_jump stmt }
{
    matches!(
        stmt,
        Stmt::Goto { .. } | Stmt::If { .. } | Stmt::Return { .. }
    )
}

/// Whether control cannot run off the end of a body.
fn is_closed(body: &[Stmt]) -> bool
    ensures { result ≡ is_closed body.now }
{
    match body.last() {
        Some(stmt) => is_jump(*stmt),
        None => false,
    }
}

fn check_stmt(
    procs: usize,
    number: u32,
    proc: &Proc,
    item: u32,
    stmt: Stmt,
) -> Result<(), ProgFault>
    ensures { result_err result ≡ stmt_fault procs number proc.now item stmt }
{
    let vars = proc.vars.len();
    let stmts = proc.body.len();
    let in_range = has_numbers(procs, vars, stmt);
    ensure(in_range, ProgWrong::BadNumber, number, item)?;
    ensure(has_targets(stmts, stmt), ProgWrong::BadTarget, number, item)
}

fn is_among(names: &[Name], name: &[u8]) -> bool
    ensures { result ≡ list_any (bytes_eq name.now) names.now }
{
    names.iter().any(|other| name == other.bytes())
}

/// Whether no earlier name equals the one at the place.
fn is_new_at(names: &[Name], place: usize) -> bool
    requires { place < length names.now }
    ensures { result ≡ is_new_at names.now place }
{
    !is_among(&names[..place], names[place].bytes())
}

/// Fails at the first variable whose name an earlier one has.
fn check_vars(vars: &[Name], number: u32) -> Result<(), ProgFault>
    requires { length vars.now < 2 ^ 32 }
    ensures { result_err result ≡ first_some (length vars.now) (λ item. unless (is_new_at vars.now item) DuplicateName number item) }
{
    for item in 0..vars.len() {
        let is_new = is_new_at(vars, item);
        ensure(is_new, ProgWrong::DuplicateName, number, item as u32)?;
    }
    Ok(())
}

fn check_body(procs: usize, number: u32, proc: &Proc) -> Result<(), ProgFault>
    requires { length proc.now.body < 2 ^ 32 }
    ensures { result_err result ≡ first_some (length proc.now.body) (λ item. option_and_then (stmt_fault procs number proc.now item) (slice_get proc.now.body item)) }
{
    for (item, stmt) in proc.body.as_slice().iter().enumerate() {
        check_stmt(procs, number, proc, item as u32, *stmt)?;
    }
    Ok(())
}

/// The checks of one procedure, in a program of so many.
#[tactic(auto, unfolding(crate::specs::Checks::proc_fault))]
fn check_proc(procs: usize, number: u32, proc: &Proc) -> Result<(), ProgFault>
    ensures { result_err result ≡ proc_fault procs number proc.now }
{
    let vars = proc.vars.as_slice();
    let body = proc.body.as_slice();
    let too_many = ProgWrong::Limit(Limited::Vars);
    let fits = 1 <= vars.len() && vars.len() <= MOST_VARS;
    ensure(fits, too_many, number, 0)?;
    check_vars(vars, number)?;
    let too_many = ProgWrong::Limit(Limited::Stmts);
    ensure(body.len() <= MOST_STMTS, too_many, number, 0)?;
    check_body(procs, number, proc)?;
    let end = body.len() as u32;
    ensure(is_closed(body), ProgWrong::FallsOff, number, end)
}

/// The place of the first procedure of a name.
pub(crate) fn place_of(procs: &[Proc], name: &[u8]) -> Option<usize>
    ensures { result ≡ position (is_called name.now) procs.now }
{
    procs.iter().position(|proc| name == proc.name.bytes())
}

/// Whether no earlier procedure has the name of the one at the place.
fn is_new_proc_at(procs: &[Proc], place: usize) -> bool
    requires { place < length procs.now }
    ensures { result ≡ is_new_proc_at procs.now place }
{
    let name = &procs[place].name;
    !has_proc(&procs[..place], name.bytes())
}

fn has_proc(procs: &[Proc], name: &[u8]) -> bool
    ensures { result ≡ list_any (is_called name.now) procs.now }
{
    procs.iter().any(|proc| name == proc.name.bytes())
}

/// Fails at the first procedure whose name an earlier one has.
fn check_names(procs: &[Proc]) -> Result<(), ProgFault>
    requires { length procs.now < 2 ^ 32 }
    ensures { result_err result ≡ first_some (length procs.now) (λ proc. unless (is_new_proc_at procs.now proc) DuplicateName proc 0) }
{
    for proc in 0..procs.len() {
        let is_new = is_new_proc_at(procs, proc);
        ensure(is_new, ProgWrong::DuplicateName, proc as u32, 0)?;
    }
    Ok(())
}

fn check_procs(procs: &[Proc]) -> Result<(), ProgFault>
    requires { length procs.now < 2 ^ 32 }
    ensures { result_err result ≡ first_some (length procs.now) (λ proc. option_and_then (proc_fault (length procs.now) proc) (slice_get procs.now proc)) }
{
    for (number, proc) in procs.iter().enumerate() {
        check_proc(procs.len(), number as u32, proc)?;
    }
    Ok(())
}

/// The checks of the procedures of a program, in their order.
#[tactic(auto, unfolding(crate::specs::Checks::program_fault))]
pub(crate) fn check_program(procs: &[Proc]) -> Result<(), ProgFault>
    ensures { result_err result ≡ program_fault procs.now }
{
    let too_many = ProgWrong::Limit(Limited::Procs);
    ensure(procs.len() <= MOST_PROCS, too_many, 0, 0)?;
    check_names(procs)?;
    check_procs(procs)?;
    ensure(has_proc(procs, b"main"), ProgWrong::NoMain, 0, 0)
}
