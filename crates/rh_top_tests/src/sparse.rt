//! The bits that have rows, and that hints save turns on them: no clause says that.
ghost use Rattle.std.specs.Prelude.{◌≡◌, IfOk, vec_len};

use crate::gates::{PROGRAM, RULES};
use rh_engine::{Solved, solve, solve_hinted};
use rh_il::{Base, Name, Proc, Program, Stmt, are_proper};
use rh_il_text::read_program;
use rh_list::Items;
use rh_outside::OpenGate;
use rh_rows::Ground;
use rh_rule::Ruling;
use rh_rule_text::read_rules;
use rh_sparse::Sparse;
use rh_system::System;
use rh_top::analyse;
use std::alloc::{AllocError, Global};
use std::process::Abort;
use std::test::Fail;
use std::thread::Threads;

/// A fact that flows over jumps and begins nowhere.
const FLOW: &[u8] = b"fact con(var X, const C) means X == C;
rule con_goto(var X, const C) { goto when con(X, C) @ in => con(X, C) @ out }
";

/// A ruling on each of so many rules, by which it is proved.
fn all_admitted(alloc: Global, count: usize) -> Result<Vec<Ruling>, AllocError>
    ensures { IfOk result (λ rulings. vec_len rulings ≡ count) }
{
    vec![in alloc; Ruling::Admitted; count]
}

/// The facts of a program, where all rules are taken for proved.
fn grounded(
    rt: &(impl Alloc<A = Global> + Abort),
    rules: &[u8],
    program: &Program,
) -> Result<Ground, Fail> {
    assert!(rt; rules.len() < 1000);
    let file = read_rules(rt.alloc(), rules).ok().ok_or("no rule file")?;
    let rulings = all_admitted(rt.alloc(), file.rules().len())?;
    let ground = Ground::new(rt.alloc(), &file, rulings.as_slice(), program);
    Ok(ground.ok().ok_or("too many facts")?)
}

/// Forty jumps one after another, from the last statement to the first, and then `return a`:
/// `goto 40; return a; goto 1; goto 2; .. goto 39;`.
fn body(alloc: Global) -> Result<Items<Stmt>, AllocError> {
    let mut body = Items::new(alloc);
    body.push(Stmt::Goto { to: 40 })?;
    body.push(Stmt::Return {
        value: Base::Var(0),
    })?;
    for to in 1..40 {
        body.push(Stmt::Goto { to })?;
    }
    Ok(body)
}

fn name(bytes: &[u8]) -> Result<Name, Fail> {
    Ok(Name::of(bytes).ok_or("no name")?)
}

/// `main(a)` with the jumps.
fn jumping(alloc: Global) -> Result<Proc, Fail> {
    let name_of_main = name(b"main")?;
    let a = name(b"a")?;
    Ok(Proc {
        name: name_of_main,
        vars: Items::from(vec![in alloc; a]?),
        body: body(alloc)?,
    })
}

fn jumps(rt: &(impl Alloc<A = Global> + Abort)) -> Result<Program, Fail> {
    let procs = vec![in rt.alloc(); jumping(rt.alloc())?]?;
    assert!(rt; are_proper(procs.as_slice()));
    Ok(Program::new(procs).ok().ok_or("no program")?)
}

/// The candidates of the loop with a branch: how many there are, and some of them by their numbers.
fn has_25_candidates(alloc: Global, ground: &Ground) -> Result<bool, Fail> {
    let sparse = Sparse::new(alloc, ground)?;
    Ok(
        sparse.count() == 25
            && sparse.words() == 1
            && sparse.bit_at(0) == Some(69)
            && sparse.bit_at(1) == Some(128)
            && sparse.bit_at(24) == Some(325)
            && sparse.bit_at(25) == None
            && sparse.place_of(0) == None,
    )
}

/// Whether one worker finds its facts.
fn is_analysed<R: Threads + Sync>(rt: &R, alloc: Global, ground: &Ground) -> Result<bool, Fail> {
    let analysed = analyse(rt, alloc, ground, 1, &OpenGate)?;
    let words = [0, 32, 32, 32, 32, 32];
    Ok(
        analysed.words.as_slice() == words.as_slice()
            && analysed.candidates == 25
            && analysed.cleared == 20,
    )
}

/// The facts of the loop.
fn facts_of_loop(rt: &(impl Alloc<A = Global> + Abort)) -> Result<Ground, Fail> {
    let program = read_program(rt.alloc(), PROGRAM).ok().ok_or("no program")?;
    grounded(rt, RULES, &program)
}

#[test]
fn a_loop_with_a_branch_has_25_candidates(rt: HostRuntime) -> Result<(), Fail> {
    let ground = facts_of_loop(&rt)?;
    let has_candidates = has_25_candidates(rt.alloc(), &ground)?;
    let is_found = is_analysed(&rt, rt.alloc(), &ground)?;
    assert!(rt; has_candidates && is_found);
    Ok(())
}

/// The turns of workers that find that no fact holds.
fn turns_of(solved: &Solved) -> Result<u64, Fail> {
    if solved.words.as_slice() == [0, 0].as_slice() && solved.cleared == 80 {
        Ok(solved.turns)
    } else {
        Err("a fact holds".into())
    }
}

/// The turns of one worker, in the order of the words.
fn turns_in_order<R: Threads + Sync>(rt: &R, alloc: Global, sparse: &Sparse) -> Result<u64, Fail> {
    let solved = solve(rt, alloc, sparse, 1, &OpenGate)?;
    turns_of(&solved)
}

/// The turns of one worker that follows hints.
fn turns_by_hints<R: Threads + Sync>(rt: &R, alloc: Global, sparse: &Sparse) -> Result<u64, Fail> {
    let solved = solve_hinted(rt, alloc, sparse, 1, &OpenGate)?;
    turns_of(&solved)
}

/// The turns on the 80 candidates of the jumps, in order and by hints.
fn both_turns<R: Threads + Sync>(
    rt: &R,
    alloc: Global,
    ground: &Ground,
) -> Result<(u64, u64), Fail> {
    let sparse = Sparse::new(alloc, ground)?;
    if sparse.count() != 80 {
        return Err("not 80 candidates".into());
    }
    let in_order = turns_in_order(rt, alloc, &sparse)?;
    let by_hints = turns_by_hints(rt, alloc, &sparse)?;
    Ok((in_order, by_hints))
}

/// The facts of the jumps.
fn facts_of_jumps(rt: &(impl Alloc<A = Global> + Abort)) -> Result<Ground, Fail> {
    let program = jumps(rt)?;
    grounded(rt, FLOW, &program)
}

/// A turn goes up the words, and so against the jumps.
#[test]
fn hints_save_turns(rt: HostRuntime) -> Result<(), Fail> {
    let ground = facts_of_jumps(&rt)?;
    let (in_order, by_hints) = both_turns(&rt, rt.alloc(), &ground)?;
    assert!(rt; in_order >= 40 && by_hints == 2);
    Ok(())
}
