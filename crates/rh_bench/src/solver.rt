//! Times of the solver on systems in layers.
use crate::layers::{Direction, Layers};
use crate::rounds::rounds;
use crate::runs::{by_hints, by_one_thread, by_workers};
use std::alloc::Global;
use std::io;
use std::rt::Clock;
use std::thread::Threads;

/// Solves a system in layers of words whose bits are lost forward, and then one whose bits are lost
/// backward.
pub fn time_solver<R: Threads + Print + Eprint + Clock + Sync>(
    rt: &R,
    alloc: Global,
    depth: u32,
    width: u32,
) -> io::Result<()> {
    time_direction(rt, alloc, depth, width, Direction::Forward)?;
    time_direction(rt, alloc, depth, width, Direction::Backward)
}

fn time_direction<R: Threads + Print + Eprint + Clock + Sync>(
    rt: &R,
    alloc: Global,
    depth: u32,
    width: u32,
    direction: Direction,
) -> io::Result<()> {
    let Some(system) = Layers::new(alloc, width, depth, direction)? else {
        println!(rt; "too many words")?;
        return Ok(());
    };
    let name = direction.name();
    let words = by_one_thread(rt, alloc, name, &system)?;
    eprintln!(rt; "  {} rounds", rounds(alloc, &system)?)?;
    println!(rt; "{name}: {} words", words.len())?;
    by_workers(rt, alloc, name, &system, words.as_slice())?;
    by_hints(rt, alloc, name, &system, words.as_slice())
}
