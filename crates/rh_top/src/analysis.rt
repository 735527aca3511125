//! The greatest set of facts of a program.
ghost use Rattle.std.specs.Prelude.{◌≡◌, ◌<◌, ◌≤◌, IfOk, length};
ghost use Rattle.rh_sparse.specs.Parts.{full_in, rows_in};
ghost use Rattle.rh_sparse.specs.Sparse.{candidate_count, missing_count};
ghost use Rattle.rh_system.specs.Rows.{IsGreatest};

use rh_engine::solve_hinted;
use rh_list::Items;
use rh_outside::Gate;
use rh_rows::Ground;
use rh_sparse::Sparse;
use std::alloc::{AllocError, Global};
use std::thread::Threads;

/// What is known of a program, and what it took to find that out.
#[derive(Drop)]
pub struct Analysed {
    /// The greatest set of facts.
    pub words: Items<u64>,
    /// How many bits have rows.
    pub candidates: u64,
    /// How many of these are not in the set.
    pub cleared: u64,
    /// The turns of all workers, added up. What they do by hints between two turns is not counted.
    pub turns: u64,
}

/// The greatest set of facts of a program, by so many workers, who look at the bits that have rows alone. Where no
/// thread can be made they work one after another.
pub fn analyse<R: Threads + Sync, G: Gate + Sync>(
    rt: &R,
    alloc: Global,
    ground: &Ground,
    workers: u32,
    gate: &G,
) -> Result<Analysed, AllocError>
    requires some { 0 < workers }
    requires few { workers ≤ 16 }
    ensures length { IfOk result (λ analysed. length analysed.words ≡ length (full_in ground.now)) }
    ensures greatest { IfOk result (λ analysed. IsGreatest (rows_in ground.now) analysed.words) }
    ensures candidates { IfOk result (λ analysed. analysed.candidates ≡ candidate_count (full_in ground.now) (rows_in ground.now)) }
    ensures cleared { IfOk result (λ analysed. analysed.cleared ≡ missing_count (full_in ground.now) (rows_in ground.now) analysed.words) }
{
    let sparse = Sparse::new(alloc, ground)?;
    let solved = solve_hinted(rt, alloc, &sparse, workers, gate)?;
    let words = sparse.expand(alloc, solved.words.as_slice())?;
    Ok(Analysed {
        words: Items::from(words),
        candidates: sparse.count(),
        cleared: solved.cleared,
        turns: solved.turns,
    })
}
