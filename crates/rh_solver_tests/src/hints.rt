//! Hints that lead back through a chain.
ghost use Rattle.std.specs.Prelude.{◌≡◌, ◌<◌, length};

use rh_edge_words::{EdgeWords, SystemName};
use rh_engine::{Worker, solve, solve_hinted};
use rh_list::Items;
use rh_outside::OpenGate;
use rh_system::{HintedList, ListedSystem, Row, System};
use std::alloc::{AllocError, Global};
use std::marker::Brand;
use std::test::Fail;
use std::thread::Threads;

/// The first bit of each word before the last rests on that of the next, but that of the first on that of the last, which
/// has no row.
fn rows_of_chain(alloc: Global, words: u32) -> Result<Items<Row>, AllocError>
    requires { 0 < words }
{
    let last = words - 1;
    let mut rows = Items::new(alloc);
    for word in 0..last {
        let next = if word == 0 { last } else { word + 1 };
        let premises = Items::from(vec![in alloc; 64 * u64::from(next)]?);
        rows.push(Row {
            bit: 64 * u64::from(word),
            premises,
        })?;
    }
    Ok(rows)
}

/// So many words with one bit each.
fn chain(alloc: Global, words: u32) -> Result<HintedList, Fail>
    requires { 0 < words }
{
    let rows = rows_of_chain(alloc, words)?;
    let full = Items::from(vec![in alloc; 1; words as usize]?);
    let system = ListedSystem::new(full, rows).ok_or("a row outside the full words")?;
    Ok(HintedList::new(alloc, system)?)
}

/// The turns and the hint rounds of one worker.
fn turns_and_hints<N: SystemName + Send + Sync>(
    alloc: Global,
    system: &HintedList,
) -> Result<(u64, u64), Fail>
    requires full { N.meaning.full ≡ system.now.system.full }
    requires rows { N.meaning.rows ≡ system.now.system.rows }
    requires some { 0 < length system.now.system.full }
{
    let (words, seat) = EdgeWords::<HintedList, N>::new_hinted(alloc, system)?;
    let mut worker = Worker::new(0, 1, seat);
    worker.run_hinted(&words, &OpenGate);
    Ok((worker.turns(), worker.hints()))
}

/// The turns of one worker without hints, and with them.
fn both_turns<R: Threads + Sync>(
    rt: &R,
    alloc: Global,
    system: &HintedList,
) -> Result<(u64, u64), Fail> {
    let slow = solve(rt, alloc, system, 1, &OpenGate)?.turns;
    let fast = solve_hinted(rt, alloc, system, 1, &OpenGate)?.turns;
    Ok((slow, fast))
}

/// Each turn of `run` clears the last bit that is left. The first of `run_hinted` clears that of
/// word 65, and marks its readers 0 and 64, in two dirty words. One hint round clears these, the
/// next leads back from word 63 through all others, and the third finds nothing.
#[test]
fn marks_lead_back(rt: HostRuntime) -> Result<(), Fail> {
    let system = chain(rt.alloc(), 66)?;
    assert!(rt; system.words() > 0);
    let turns = both_turns(&rt, rt.alloc(), &system)?;
    let rounds = turns_and_hints::<Brand>(rt.alloc(), &system)?;
    assert!(rt; turns == (66, 2) && rounds == (2, 3));
    Ok(())
}
