//! The program that rules rewrite.
ghost use Rattle.std.specs.Prelude.{◌≡◌, ◌≤◌, Some, IfOk, length, slice_get};
ghost use Rattle.rh_il.specs.declared.program.Proc.{Proc as AProc};
ghost use Rattle.rh_il.specs.Checks.{IsProgram};
ghost use Rattle.rh_domain.specs.Facts.{Known};
ghost use Rattle.rh_rows.specs.Known.{known_in};
ghost use Rattle.rh_transform.specs.Rewritten.{rewritten, rewritten_proc, rewritten_statement};

use crate::templates::first_rewrite;
use rh_il::{Proc, Program, Stmt, numbers_fit};
use rh_list::Items;
use rh_rows::Ground;
use std::alloc::{AllocError, Global};

/// What takes the place of a statement.
fn replaced(ground: &Ground, words: &[u64], place: u32, number: u32, stmt: Stmt) -> Stmt
    ensures { (proc : AProc) → slice_get ground.now.program place ≡ Some proc → slice_get proc.body number ≡ Some stmt
        → result ≡ rewritten_statement (known_in ground.now.file.schemas ground.now.program words.now) ground.now.file.rules ground.now.rulings place proc number stmt }
{
    first_rewrite(ground, words, place, number).unwrap_or(stmt)
}

/// A procedure with each of its statements rewritten.
fn rewrite_proc(
    alloc: Global,
    ground: &Ground,
    words: &[u64],
    place: u32,
    proc: &Proc,
) -> Result<Proc, AllocError>
    requires stands { slice_get ground.now.program place ≡ Some proc.now }
    requires few { length proc.now.body ≤ 1024 }
    ensures { IfOk result (λ new.
        new ≡ rewritten_proc (known_in ground.now.file.schemas ground.now.program words.now) ground.now.file.rules ground.now.rulings place proc.now) }
{
    let name = proc.name;
    let vars = proc.vars.copy(alloc)?;
    let mut body = Items::new(alloc);
    for (number, stmt) in proc.body.as_slice().iter().enumerate() {
        body.push(replaced(ground, words, place, number as u32, *stmt))?;
    }
    Ok(Proc { name, vars, body })
}

/// The rewritten program passes every check. It does nothing: callers learn it.
fn passes(ground: &Ground)
    ensures { (known : Known) → IsProgram (rewritten known ground.now.file.rules ground.now.rulings ground.now.program) }
{
    ground.file().rules();
    ground.program().count();
    numbers_fit(ground.program());
}

/// The program of procedures that pass every check.
fn checked(procs: Vec<Proc>) -> Program
    requires { IsProgram procs.items }
    ensures { result ≡ procs.items }
{
    match Program::new(procs) {
        Ok(program) => program,
        Err(_) => unreachable!(),
    }
}

/// The program with each statement replaced by the template of the first transformation rule that
/// applies to it, where the words hold the facts that are known.
pub fn rewrite(alloc: Global, ground: &Ground, words: &[u64]) -> Result<Program, AllocError>
    ensures { IfOk result (λ new.
        new ≡ rewritten (known_in ground.now.file.schemas ground.now.program words.now) ground.now.file.rules ground.now.rulings ground.now.program) }
{
    passes(ground);
    let program = ground.program();
    let mut procs = Vec::new(alloc);
    for place in 0..program.count() {
        if let Some(proc) = program.proc(place) {
            procs.push(rewrite_proc(alloc, ground, words, place, proc)?)?;
        }
    }
    Ok(checked(procs))
}
