//! The workers' answers on random programs and rules. By hints, on the bits that have rows alone, they find what they
//! find on all bits. That is proved; the tests show that it isn't so because they find nothing.
use crate::programs::random_program;
use crate::random::Random;
use crate::rules::{grounded, rule_file};
use rh_engine::{Solved, solve, solve_hinted};
use rh_outside::OpenGate;
use rh_rows::Ground;
use rh_rule::{RuleFile, Ruling};
use rh_sparse::Sparse;
use std::alloc::Global;
use std::process::Abort;
use std::test::Fail;
use std::thread::Threads;

/// How many workers there are.
const WORKERS: [u32; 4] = [1, 2, 4, 16];

/// How many programs there are for each number of workers on all bits.
const PROGRAMS: u32 = 10;

const SEED: u64 = 7;

/// A ruling on each rule, of which one in four is refused.
fn random_rulings(
    alloc: Global,
    file: &RuleFile,
    random: &mut Random,
) -> Result<Vec<Ruling>, Fail> {
    let mut rulings = Vec::new(alloc);
    for _ in file.rules() {
        let ruling = match random.below(4) {
            0 => Ruling::Refused(0),
            _ => Ruling::Admitted,
        };
        rulings.push(ruling)?;
    }
    Ok(rulings)
}

/// How many candidates are facts, and how many are not.
#[derive(Clone, Copy)]
struct Tally {
    facts: u64,
    cleared: u64,
}

impl Tally {
    const NONE: Tally = Tally {
        facts: 0,
        cleared: 0,
    };

    fn plus(self, other: Tally) -> Tally {
        Tally {
            facts: self.facts.wrapping_add(other.facts),
            cleared: self.cleared.wrapping_add(other.cleared),
        }
    }
}

/// What workers find on all bits.
fn on_all_bits(
    rt: &(impl Alloc<A = Global> + Abort + Threads + Sync),
    ground: &Ground,
    workers: u32,
) -> Result<Solved, Fail> {
    assert!(rt; workers > 0);
    assert!(rt; workers <= 16);
    Ok(solve(rt, rt.alloc(), ground, workers, &OpenGate)?)
}

/// How many bits workers by hints clear on the bits that have rows, where they find these words.
fn cleared_by_hints(
    rt: &(impl Alloc<A = Global> + Abort + Threads + Sync),
    sparse: &Sparse,
    workers: u32,
    words: &[u64],
) -> Result<u64, Fail> {
    assert!(rt; workers > 0);
    assert!(rt; workers <= 16);
    let hinted = solve_hinted(rt, rt.alloc(), sparse, workers, &OpenGate)?;
    let expanded = sparse.expand(rt.alloc(), hinted.words.as_slice())?;
    if expanded.as_slice() == words {
        Ok(hinted.cleared)
    } else {
        Err("other words by hints".into())
    }
}

/// Finds these words by hints, with each number of workers.
fn find_by_hints(
    rt: &(impl Alloc<A = Global> + Abort + Threads + Sync),
    ground: &Ground,
    words: &[u64],
) -> Result<Tally, Fail> {
    let sparse = Sparse::new(rt.alloc(), ground)?;
    let mut cleared = 0;
    for workers in WORKERS {
        cleared = cleared_by_hints(rt, &sparse, workers, words)?;
    }
    Ok(Tally {
        facts: sparse.count().wrapping_sub(cleared),
        cleared,
    })
}

/// The facts of a random program under random rulings.
fn random_facts(
    rt: &(impl Alloc<A = Global> + Abort),
    file: &RuleFile,
    random: &mut Random,
) -> Result<Ground, Fail> {
    let program = random_program(rt, random)?;
    let rulings = random_rulings(rt.alloc(), file, random)?;
    grounded(rt, file, rulings.as_slice(), &program)
}

/// Workers find the same set on all bits of a random program and, by hints, on those that have rows.
fn compare(
    rt: &(impl Alloc<A = Global> + Abort + Threads + Sync),
    file: &RuleFile,
    random: &mut Random,
    workers: u32,
) -> Result<Tally, Fail> {
    let ground = random_facts(rt, file, random)?;
    let whole = on_all_bits(rt, &ground, workers)?;
    find_by_hints(rt, &ground, whole.words.as_slice())
}

#[test]
fn workers_find_the_same_on_all_bits_and_on_those_that_have_rows(
    rt: HostRuntime,
) -> Result<(), Fail> {
    let file = rule_file(rt.alloc())?;
    let mut random = Random::new(SEED);
    let mut tally = Tally::NONE;
    for workers in WORKERS {
        for _ in 0..PROGRAMS {
            tally = tally.plus(compare(&rt, &file, &mut random, workers)?);
        }
    }
    assert!(rt; tally.facts > 500);
    assert!(rt; tally.cleared > 500);
    Ok(())
}
