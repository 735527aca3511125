//! Both solvers and `greatest` on random systems.
ghost use Rattle.std.specs.Prelude.{◌<◌, ◌≤◌};

use rh_engine::{solve, solve_hinted};
use rh_list::Items;
use rh_outside::OpenGate;
use rh_system::{HintedList, ListedSystem, Row, greatest};
use std::alloc::{AllocError, Global};
use std::test::Fail;
use std::thread::Threads;

/// A number below a limit, by a linear congruential generator.
fn next_below(state: &mut u64, limit: u64) -> u64
    requires { 0 < limit }
    ensures { result < limit }
{
    *state = state
        .wrapping_mul(6_364_136_223_846_793_005)
        .wrapping_add(1_442_695_040_888_963_407);
    (*state >> 33) % limit
}

/// A bit of six words of eight bits.
fn random_bit(state: &mut u64) -> u64 {
    64 * next_below(state, 6) + next_below(state, 8)
}

/// A row with up to two premises.
fn random_row(alloc: Global, state: &mut u64) -> Result<Row, AllocError> {
    let mut premises = Items::new(alloc);
    for _ in 0..next_below(state, 3) {
        premises.push(random_bit(state))?;
    }
    Ok(Row {
        bit: random_bit(state),
        premises,
    })
}

fn random_rows(alloc: Global, seed: u64) -> Result<Items<Row>, AllocError> {
    let mut state = seed;
    let mut rows = Items::new(alloc);
    for _ in 0..80 {
        rows.push(random_row(alloc, &mut state)?)?;
    }
    Ok(rows)
}

fn random_system(alloc: Global, seed: u64) -> Result<HintedList, Fail> {
    let rows = random_rows(alloc, seed)?;
    let full = Items::from(vec![in alloc; 255; 6]?);
    let system = ListedSystem::new(full, rows).ok_or("a row outside the full words")?;
    Ok(HintedList::new(alloc, system)?)
}

/// Whether workers find these words.
fn is_found<R: Threads + Sync>(
    rt: &R,
    alloc: Global,
    system: &HintedList,
    workers: u32,
    words: &[u64],
) -> Result<bool, Fail>
    requires some { 0 < workers }
    requires few { workers ≤ 16 }
{
    let solved = solve(rt, alloc, system, workers, &OpenGate)?;
    Ok(solved.words.as_slice() == words)
}

/// Whether workers that follow hints find these words.
fn is_found_by_hints<R: Threads + Sync>(
    rt: &R,
    alloc: Global,
    system: &HintedList,
    workers: u32,
    words: &[u64],
) -> Result<bool, Fail>
    requires some { 0 < workers }
    requires few { workers ≤ 16 }
{
    let solved = solve_hinted(rt, alloc, system, workers, &OpenGate)?;
    Ok(solved.words.as_slice() == words)
}

/// Whether all workers find what `greatest` finds.
fn agree<R: Threads + Sync>(rt: &R, alloc: Global, system: &HintedList) -> Result<bool, Fail> {
    let words = greatest(alloc, system)?;
    for workers in [1, 2, 4, 16] {
        let plain = is_found(rt, alloc, system, workers, words.as_slice())?;
        let hinted = is_found_by_hints(rt, alloc, system, workers, words.as_slice())?;
        if !plain || !hinted {
            return Ok(false);
        }
    }
    Ok(true)
}

/// The turns of one worker that follows hints, where some of the 48 bits stand, and not all.
fn turns_of_partial<R: Threads + Sync>(
    rt: &R,
    alloc: Global,
    system: &HintedList,
) -> Result<Option<u64>, Fail> {
    let hinted = solve_hinted(rt, alloc, system, 1, &OpenGate)?;
    let is_partial = 0 < hinted.cleared && hinted.cleared < 48;
    Ok(if is_partial { Some(hinted.turns) } else { None })
}

/// The same for a random system, on which all agree.
fn look<R: Threads + Sync>(rt: &R, alloc: Global, seed: u64) -> Result<Option<u64>, Fail> {
    let system = random_system(alloc, seed)?;
    if !agree(rt, alloc, &system)? {
        return Err("the solvers disagree".into());
    }
    turns_of_partial(rt, alloc, &system)
}

/// The hints of these systems name all readers. So one worker's second turn finds nothing.
#[test]
fn solvers_agree(rt: HostRuntime) -> Result<(), Fail> {
    let mut partial = 0u64;
    for seed in 0..20 {
        if let Some(turns) = look(&rt, rt.alloc(), seed)? {
            assert!(rt; turns == 2);
            partial = partial.wrapping_add(1);
        }
    }
    // systems of which all bits stand, or none, would show little
    assert!(rt; partial > 10);
    Ok(())
}
