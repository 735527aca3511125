//! The turns of one worker, and what it asks its gate.
use rh_engine::solve;
use rh_list::Items;
use rh_outside::Gate;
use rh_system::{ListedSystem, Row};
use std::alloc::{AllocError, Global};
use std::sync::atomic::{AtomicU64, Ordering};
use std::test::Fail;
use std::thread::Threads;

/// A gate that opens at the question of one number, and keeps account of what one worker asks.
#[derive(Drop)]
struct Account {
    opens_at: u64,
    questions: AtomicU64,
    /// The questions with the number 0.
    turns: AtomicU64,
    /// The number that the next question of a turn has.
    next: AtomicU64,
    out_of_order: AtomicU64,
}

impl Account {
    fn new(opens_at: u64) -> Account {
        Account {
            opens_at,
            questions: AtomicU64::new(0),
            turns: AtomicU64::new(0),
            next: AtomicU64::new(0),
            out_of_order: AtomicU64::new(0),
        }
    }

    /// So many turns and questions, all in order.
    fn has(&self, turns: u64, questions: u64) -> bool {
        self.turns.load(Ordering::SeqCst) == turns
            && self.questions.load(Ordering::SeqCst) == questions
            && self.out_of_order.load(Ordering::SeqCst) == 0
    }
}

impl Gate for Account {
    fn ready(&self, worker: u32, asked: u64) -> bool {
        self.questions.fetch_add(1, Ordering::SeqCst);
        let next = self.next.swap(asked.wrapping_add(1), Ordering::SeqCst);
        if asked == 0 {
            self.turns.fetch_add(1, Ordering::SeqCst);
        } else if asked != next {
            self.out_of_order.store(1, Ordering::SeqCst);
        }
        if worker != 0 {
            self.out_of_order.store(1, Ordering::SeqCst);
        }
        asked == self.opens_at
    }
}

/// A row of a bit and its one premise, or of a bit that begins by itself.
fn row(alloc: Global, bit: u64, premise: Option<u64>) -> Result<Row, AllocError> {
    let mut premises = Items::new(alloc);
    if let Some(premise) = premise {
        premises.push(premise)?;
    }
    Ok(Row { bit, premises })
}

fn rows_of_two_chains(alloc: Global) -> Result<Items<Row>, AllocError> {
    let mut rows = Items::new(alloc);
    rows.push(row(alloc, 2, None)?)?;
    for (bit, premise) in [(0, 64), (64, 128), (65, 1)] {
        rows.push(row(alloc, bit, Some(premise))?)?;
    }
    Ok(rows)
}

/// Three words with the bits 0 to 2, 64 to 65 and 128. Bit 2 begins by itself, 0 needs 64, and 64
/// needs 128; 65 needs 1. From word 0 on the first turn clears 1, 65 and 128, the second 64, the
/// third 0, and the fourth nothing. From another word on, or backwards, there would be three turns.
fn two_chains(alloc: Global) -> Result<ListedSystem, Fail> {
    let rows = rows_of_two_chains(alloc)?;
    let full = Items::from([7, 3, 1].to_vec(alloc)?);
    Ok(ListedSystem::new(full, rows).ok_or("a row outside the full words")?)
}

/// Whether one worker takes four turns, the fourth of which finds nothing, to the fact that begins by itself.
fn takes_four_turns<R: Threads + Sync>(
    rt: &R,
    alloc: Global,
    system: &ListedSystem,
    gate: &Account,
) -> Result<bool, Fail> {
    let solved = solve(rt, alloc, system, 1, gate)?;
    Ok(solved.words.as_slice() == [4, 0, 0].as_slice() && solved.turns == 4)
}

#[test]
fn one_worker_takes_the_turns_that_are_worked_by_hand(rt: HostRuntime) -> Result<(), Fail> {
    let system = two_chains(rt.alloc())?;
    // where the gate opens, and how many questions three turns make that clear something
    for (opens_at, questions) in [(0, 3), (2, 9), (u64::MAX, 3_000_000)] {
        let gate = Account::new(opens_at);
        let takes_four = takes_four_turns(&rt, rt.alloc(), &system, &gate)?;
        assert!(rt; takes_four && gate.has(3, questions));
    }
    Ok(())
}
