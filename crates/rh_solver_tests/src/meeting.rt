//! Workers that meet at a gate.
ghost use Rattle.std.specs.Prelude.{◌<◌, ◌≤◌};

use crate::example::{FOUND, example};
use rh_engine::{Solved, solve, solve_hinted};
use rh_outside::Gate;
use rh_system::HintedList;
use std::alloc::Global;
use std::sync::atomic::{AtomicU64, Ordering};
use std::test::Fail;
use std::thread::{self, Threads};

/// A gate that lets each worker go on only after all have asked.
#[derive(Drop)]
struct Meeting {
    /// A bit for each number of a worker.
    all: u64,
    asked_by: AtomicU64,
    most: AtomicU64,
}

impl Meeting {
    fn new(all: u64) -> Meeting {
        Meeting {
            all,
            asked_by: AtomicU64::new(0),
            most: AtomicU64::new(0),
        }
    }

    /// All have asked.
    fn has_been(&self) -> bool {
        self.asked_by.load(Ordering::SeqCst) == self.all
    }

    /// All have asked, and none as often as a gate is asked at most.
    fn has_opened(&self) -> bool {
        self.has_been() && self.most.load(Ordering::SeqCst) < 999_999
    }
}

impl Gate for Meeting {
    fn ready(&self, worker: u32, asked: u64) -> bool {
        let bit = 1u64.checked_shl(worker).unwrap_or(0);
        self.asked_by.fetch_or(bit, Ordering::SeqCst);
        self.most.fetch_max(asked, Ordering::SeqCst);
        for _ in 0..1000 {
            if self.asked_by.load(Ordering::SeqCst) == self.all {
                return true;
            }
            thread::yield_now();
        }
        false
    }
}

/// The example solved by workers at a gate.
fn solved_at<R: Threads + Sync>(
    rt: &R,
    alloc: Global,
    workers: u32,
    gate: &Meeting,
) -> Result<Solved, Fail>
    requires some { 0 < workers }
    requires few { workers ≤ 16 }
{
    let system = example(alloc)?;
    Ok(solve(rt, alloc, &system, workers, gate)?)
}

/// The example solved by two workers that follow hints.
fn solved_by_hints<R: Threads + Sync>(
    rt: &R,
    alloc: Global,
    gate: &Meeting,
) -> Result<Solved, Fail> {
    let system = HintedList::new(alloc, example(alloc)?)?;
    Ok(solve_hinted(rt, alloc, &system, 2, gate)?)
}

#[test]
fn gate_two(rt: HostRuntime) -> Result<(), Fail> {
    let gate = Meeting::new(0b11);
    let solved = solved_at(&rt, rt.alloc(), 2, &gate)?;
    assert!(rt; solved.words.as_slice() == FOUND.as_slice() && solved.cleared == 31);
    assert!(rt; gate.has_opened());
    Ok(())
}

#[test]
fn gate_two_by_hints(rt: HostRuntime) -> Result<(), Fail> {
    let gate = Meeting::new(0b11);
    let solved = solved_by_hints(&rt, rt.alloc(), &gate)?;
    assert!(rt; solved.cleared == 31 && gate.has_opened());
    Ok(())
}

#[test]
fn each_worker_asks_by_its_number(rt: HostRuntime) -> Result<(), Fail> {
    let gate = Meeting::new(0b1111);
    let solved = solved_at(&rt, rt.alloc(), 4, &gate)?;
    assert!(rt; solved.cleared == 31 && gate.has_been());
    Ok(())
}
