//! Times of the solver on any system. What came of it goes to standard output, times and turns go to
//! standard error.
ghost use Rattle.std.specs.Prelude.{◌≡◌, ◌<◌, ◌≤◌, IfOk, length, vec_len};

use rh_engine::{Solved, solve, solve_hinted};
use rh_outside::OpenGate;
use rh_system::{Hints, System, greatest};
use std::alloc::Global;
use std::io;
use std::rt::Clock;
use std::thread::Threads;
use std::time::Instant;

/// How long something took.
pub fn tell_time<R: Eprint + Clock>(rt: &R, what: &str, start: &Instant) -> io::Result<()> {
    let taken = start.elapsed(rt)?.as_micros();
    eprintln!(rt; "  {taken} us: {what}")?;
    Ok(())
}

/// What workers found, beside the words that are wanted.
fn tell_solved<R: Print>(rt: &R, workers: u32, solved: &Solved, wanted: &[u64]) -> io::Result<()> {
    let same = solved.words.as_slice() == wanted;
    println!(rt;
        "{} bits cleared with workers: {workers}, the same words: {same}",
        solved.cleared
    )?;
    Ok(())
}

/// The greatest supported set by one thread.
pub fn by_one_thread<R: Eprint + Clock, S: System>(
    rt: &R,
    alloc: Global,
    name: &str,
    system: &S,
) -> io::Result<Vec<u64>>
    ensures { IfOk result (λ words. vec_len words ≡ length (S.full_words system.now)) }
{
    let start = Instant::now(rt)?;
    let words = greatest(alloc, system)?;
    tell_time(rt, name, &start)?;
    Ok(words)
}

/// How long workers took, and what they found.
fn tell_run<R: Print + Eprint>(
    rt: &R,
    taken: u128,
    workers: u32,
    solved: &Solved,
    wanted: &[u64],
) -> io::Result<()> {
    eprintln!(rt; "  {taken} us, {} turns, workers: {workers}", solved.turns)?;
    tell_solved(rt, workers, solved, wanted)
}

/// So many workers that go over all words in each turn.
fn time_workers<R: Threads + Print + Eprint + Clock + Sync, S: System + Sync>(
    rt: &R,
    alloc: Global,
    system: &S,
    workers: u32,
    wanted: &[u64],
) -> io::Result<()>
    requires some { 0 < workers }
    requires few { workers ≤ 16 }
{
    let start = Instant::now(rt)?;
    let solved = solve(rt, alloc, system, workers, &OpenGate)?;
    let taken = start.elapsed(rt)?.as_micros();
    tell_run(rt, taken, workers, &solved, wanted)
}

/// Workers that go over all words in each turn.
pub fn by_workers<R: Threads + Print + Eprint + Clock + Sync, S: System + Sync>(
    rt: &R,
    alloc: Global,
    name: &str,
    system: &S,
    wanted: &[u64],
) -> io::Result<()> {
    eprintln!(rt; "{name}, solve")?;
    for workers in [1u32, 2, 4] {
        time_workers(rt, alloc, system, workers, wanted)?;
    }
    Ok(())
}

/// So many workers that follow hints.
fn time_hinted<R: Threads + Print + Eprint + Clock + Sync, S: Hints + Sync>(
    rt: &R,
    alloc: Global,
    system: &S,
    workers: u32,
    wanted: &[u64],
) -> io::Result<()>
    requires some { 0 < workers }
    requires few { workers ≤ 16 }
{
    let start = Instant::now(rt)?;
    let solved = solve_hinted(rt, alloc, system, workers, &OpenGate)?;
    let taken = start.elapsed(rt)?.as_micros();
    tell_run(rt, taken, workers, &solved, wanted)
}

/// Workers that follow hints.
pub fn by_hints<R: Threads + Print + Eprint + Clock + Sync, S: Hints + Sync>(
    rt: &R,
    alloc: Global,
    name: &str,
    system: &S,
    wanted: &[u64],
) -> io::Result<()> {
    eprintln!(rt; "{name}, solve_hinted")?;
    for workers in [1u32, 2, 4] {
        time_hinted(rt, alloc, system, workers, wanted)?;
    }
    Ok(())
}
