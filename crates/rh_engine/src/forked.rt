//! Workers on shared words, forked and joined.
ghost use Rattle.std.specs.Prelude.{◌≡◌, ◌+◌, ◌*◌, ◌<◌, ◌≤◌, [], IfOk, length, replicate, sum_by, vec_len, All, ℕ, slice_index_or};
ghost use Rattle.rh_system.specs.Bits.{bit_count};
ghost use Rattle.rh_system.specs.Rows.{IsGreatest};
ghost use Rattle.rh_engine.specs.Turns.{more_loads};
ghost use Rattle.rh_engine.specs.Crew.{Seen, HasLoaded, IsCrew, HasRun};
ghost use Rattle.rh_edge_words.specs.Views.{first_view};
ghost use Rattle.rh_edge_words.specs.Seated.{dirty_words};

use crate::worker::Worker;
use rh_edge_words::{EdgeWords, SystemName, WordSeat};
use rh_list::Items;
use rh_outside::Gate;
use rh_system::{Hints, System};
use std::alloc::{AllocError, Global};
use std::marker::Brand;
use std::thread::{Threads, for_each_mut};

/// What the workers found.
#[derive(Drop)]
pub struct Solved {
    /// The greatest supported set.
    pub words: Items<u64>,
    /// How many of the full bits are not in it.
    pub cleared: u64,
    /// The turns of all workers, added up.
    pub turns: u64,
}

/// The workers with a seat each. The last one's is the first seat, with what is left of the stake.
fn crew<S: System, N: SystemName>(
    alloc: Global,
    words: &EdgeWords<S, N>,
    mut first: WordSeat<N>,
    workers: u32,
) -> Result<Vec<Worker<N>>, AllocError>
    requires table { first.0 ≡ words.now.0 }
    requires view { first.1 ≡ first_view N.meaning.full }
    requires some { 0 < workers }
    requires few { workers ≤ 16 }
    ensures { IfOk result (λ crew. IsCrew words.now.0 (length N.meaning.full) workers crew.items) }
{
    let last = workers - 1;
    let mut crew = Vec::with_capacity(alloc, workers as usize)?;
    for id in 0..last {
        let seat = words.split(alloc, &mut first)?;
        crew.push(Worker::new(id, workers, seat))?;
    }
    crew.push(Worker::new(last, workers, first))?;
    Ok(crew)
}

/// Runs all workers side by side.
fn run_all<R: Threads + Sync, S: System + Sync, N: SystemName + Send + Sync, G: Gate + Sync>(
    rt: &R,
    crew: &mut [Worker<N>],
    words: &EdgeWords<S, N>,
    gate: &G,
)
    requires some { 0 < length crew.old }
    requires tables { All (λ w. w.0 ≡ words.now.0) crew.old }
    ensures tables { All (λ w. w.0 ≡ words.now.0) crew.new }
    ensures run { All (HasRun N.meaning.full N.meaning.rows) crew.new }
    ensures stakes { (i : ℕ) (d : Seen) → i < length crew.old → (slice_index_or crew.new i d).1.stake ≡ (slice_index_or crew.old i d).1.stake }
    ensures loads { (i : ℕ) (d : Seen) → i < length crew.old → (slice_index_or crew.new i d).1.loads ≡ more_loads (slice_index_or crew.new i d).2 (slice_index_or crew.old i d).1.loads }
    ensures numbers { (i : ℕ) (d : Seen) → i < length crew.old → (slice_index_or crew.new i d).3 ≡ (slice_index_or crew.old i d).3 }
{
    let threads = crew.len();
    for_each_mut(rt, crew, threads, &|_, worker| worker.run(words, gate));
}

/// Runs all workers side by side, by hints.
fn run_all_hinted<R: Threads + Sync, S: Hints + Sync, N: SystemName + Send + Sync, G: Gate + Sync>(
    rt: &R,
    crew: &mut [Worker<N>],
    words: &EdgeWords<S, N>,
    gate: &G,
)
    requires some { 0 < length crew.old }
    requires tables { All (λ w. w.0 ≡ words.now.0) crew.old }
    requires dirty { words.now.0.words ≡ length N.meaning.full + dirty_words (S.node_count words.now.1) }
    ensures tables { All (λ w. w.0 ≡ words.now.0) crew.new }
    ensures run { All (HasRun N.meaning.full N.meaning.rows) crew.new }
    ensures stakes { (i : ℕ) (d : Seen) → i < length crew.old → (slice_index_or crew.new i d).1.stake ≡ (slice_index_or crew.old i d).1.stake }
{
    let threads = crew.len();
    for_each_mut(
        rt,
        crew,
        threads,
        &|_, worker| worker.run_hinted(words, gate),
    );
}

/// Joins all seats into one, and adds up the turns. If each worker loaded every word once in each
/// of its turns, each word was loaded as often as there were turns.
fn gather<S: System, N: SystemName>(
    words: &EdgeWords<S, N>,
    mut crew: Vec<Worker<N>>,
) -> (WordSeat<N>, u64)
    requires some { 0 < vec_len crew }
    requires few { vec_len crew ≤ 16 }
    requires tables { All (λ w. w.0 ≡ words.now.0) crew.items }
    requires run { All (HasRun N.meaning.full N.meaning.rows) crew.items }
    requires stakes { sum_by (λ w. w.1.stake) crew.items ≡ 16 }
    ensures table { result.0.0 ≡ words.now.0 }
    ensures stake { result.0.1.stake ≡ 16 }
    ensures greatest { IsGreatest N.meaning.rows result.0.1.seen }
    ensures loaded { All (λ w. HasLoaded (length N.meaning.full) w.2 w) crew.items → result.0.1.loads ≡ replicate (length N.meaning.full) result.1 }
    ensures enough { vec_len crew ≤ result.1 }
    ensures most { result.1 ≤ vec_len crew * (bit_count N.meaning.full + 1) }
{
    words.is_named();
    let Some(last) = crew.pop() else {
        unreachable!()
    };
    let mut turns = last.turns();
    let mut seat = last.into_seat();
    while let Some(worker) = crew.pop() {
        turns += worker.turns();
        words.join(&mut seat, worker.into_seat());
        seat.is_seated();
    }
    (seat, turns)
}

/// Ends the table.
fn close<S: System, N: SystemName>(words: EdgeWords<S, N>, seat: WordSeat<N>, turns: u64) -> Solved
    requires table { seat.0 ≡ words.0 }
    requires stake { seat.1.stake ≡ 16 }
    requires greatest { IsGreatest N.meaning.rows seat.1.seen }
    ensures words { result.words ≡ seat.1.seen }
    ensures cleared { result.cleared + bit_count result.words ≡ bit_count N.meaning.full }
    ensures turns { result.turns ≡ turns }
{
    let cleared = seat.cleared();
    let found = words.close(seat);
    Solved {
        words: Items::from(found),
        cleared,
        turns,
    }
}

/// Ends the table. The turns are those that the loads of its last seat show.
fn close_loaded<S: System, N: SystemName>(
    words: EdgeWords<S, N>,
    seat: WordSeat<N>,
    turns: u64,
) -> Solved
    requires table { seat.0 ≡ words.0 }
    requires stake { seat.1.stake ≡ 16 }
    requires greatest { IsGreatest N.meaning.rows seat.1.seen }
    requires loaded { seat.1.loads ≡ replicate (length N.meaning.full) turns }
    ensures words { result.words ≡ seat.1.seen }
    ensures cleared { result.cleared + bit_count result.words ≡ bit_count N.meaning.full }
    ensures turns { result.turns ≡ turns }
{
    close(words, seat, turns)
}

/// Solves a system that has a name and words.
fn solve_named<R: Threads + Sync, S: System + Sync, N: SystemName + Send + Sync, G: Gate + Sync>(
    rt: &R,
    alloc: Global,
    system: &S,
    workers: u32,
    gate: &G,
) -> Result<Solved, AllocError>
    requires full { N.meaning.full ≡ S.full_words system.now }
    requires rows { N.meaning.rows ≡ S.rows system.now }
    requires words { 0 < length (S.full_words system.now) }
    requires some { 0 < workers }
    requires few { workers ≤ 16 }
    ensures length { IfOk result (λ solved. length solved.words ≡ length N.meaning.full) }
    ensures greatest { IfOk result (λ solved. IsGreatest N.meaning.rows solved.words) }
    ensures cleared { IfOk result (λ solved. solved.cleared + bit_count solved.words ≡ bit_count N.meaning.full) }
    ensures enough { IfOk result (λ solved. workers ≤ solved.turns) }
    ensures most { IfOk result (λ solved. solved.turns ≤ workers * (bit_count N.meaning.full + 1)) }
{
    let (words, first) = EdgeWords::<S, N>::new(alloc, system)?;
    let mut crew = crew(alloc, &words, first, workers)?;
    run_all(rt, crew.as_mut_slice(), &words, gate);
    let (seat, turns) = gather(&words, crew);
    seat.is_seated();
    Ok(close_loaded(words, seat, turns))
}

/// Solves a system that has a name and words, by hints.
fn solve_named_hinted<
    R: Threads + Sync,
    S: Hints + Sync,
    N: SystemName + Send + Sync,
    G: Gate + Sync,
>(rt: &R, alloc: Global, system: &S, workers: u32, gate: &G) -> Result<Solved, AllocError>
    requires full { N.meaning.full ≡ S.full_words system.now }
    requires rows { N.meaning.rows ≡ S.rows system.now }
    requires words { 0 < length (S.full_words system.now) }
    requires some { 0 < workers }
    requires few { workers ≤ 16 }
    ensures length { IfOk result (λ solved. length solved.words ≡ length N.meaning.full) }
    ensures greatest { IfOk result (λ solved. IsGreatest N.meaning.rows solved.words) }
    ensures cleared { IfOk result (λ solved. solved.cleared + bit_count solved.words ≡ bit_count N.meaning.full) }
    ensures enough { IfOk result (λ solved. workers ≤ solved.turns) }
    ensures most { IfOk result (λ solved. solved.turns ≤ workers * (bit_count N.meaning.full + 1)) }
{
    let (words, first) = EdgeWords::<S, N>::new_hinted(alloc, system)?;
    let mut crew = crew(alloc, &words, first, workers)?;
    run_all_hinted(rt, crew.as_mut_slice(), &words, gate);
    let (seat, turns) = gather(&words, crew);
    seat.is_seated();
    Ok(close(words, seat, turns))
}

/// A system without words has no bits.
fn solve_empty<S: System>(alloc: Global, _system: &S) -> Solved
    requires { length (S.full_words _system.now) ≡ 0 }
    ensures words { result.words ≡ [] }
    ensures greatest { IsGreatest (S.rows _system.now) result.words }
    ensures nothing { (result.cleared ≡ 0) × (result.turns ≡ 0) }
{
    Solved {
        words: Items::new(alloc),
        cleared: 0,
        turns: 0,
    }
}

/// The greatest supported set, by so many workers on shared words. The memory for all seats is
/// taken before the first worker starts. Where no thread can be made the workers run one after
/// another.
pub fn solve<R: Threads + Sync, S: System + Sync, G: Gate + Sync>(
    rt: &R,
    alloc: Global,
    system: &S,
    workers: u32,
    gate: &G,
) -> Result<Solved, AllocError>
    requires some { 0 < workers }
    requires few { workers ≤ 16 }
    ensures length { IfOk result (λ solved. length solved.words ≡ length (S.full_words system.now)) }
    ensures greatest { IfOk result (λ solved. IsGreatest (S.rows system.now) solved.words) }
    ensures cleared { IfOk result (λ solved. solved.cleared + bit_count solved.words ≡ bit_count (S.full_words system.now)) }
    ensures enough { IfOk result (λ solved. 0 < length (S.full_words system.now) → workers ≤ solved.turns) }
    ensures most { IfOk result (λ solved. solved.turns ≤ workers * (bit_count (S.full_words system.now) + 1)) }
    ensures none { IfOk result (λ solved. length (S.full_words system.now) ≡ 0 → solved.turns ≡ 0) }
{
    if system.words() == 0 {
        return Ok(solve_empty(alloc, system));
    }
    solve_named::<R, S, Brand, G>(rt, alloc, system, workers, gate)
}

/// The greatest supported set, as `solve` gives it, by workers that follow the system's hints and
/// share each turn's clears out among themselves. They take fewer turns where the hints name all
/// readers of a word.
pub fn solve_hinted<R: Threads + Sync, S: Hints + Sync, G: Gate + Sync>(
    rt: &R,
    alloc: Global,
    system: &S,
    workers: u32,
    gate: &G,
) -> Result<Solved, AllocError>
    requires some { 0 < workers }
    requires few { workers ≤ 16 }
    ensures length { IfOk result (λ solved. length solved.words ≡ length (S.full_words system.now)) }
    ensures greatest { IfOk result (λ solved. IsGreatest (S.rows system.now) solved.words) }
    ensures cleared { IfOk result (λ solved. solved.cleared + bit_count solved.words ≡ bit_count (S.full_words system.now)) }
    ensures enough { IfOk result (λ solved. 0 < length (S.full_words system.now) → workers ≤ solved.turns) }
    ensures most { IfOk result (λ solved. solved.turns ≤ workers * (bit_count (S.full_words system.now) + 1)) }
    ensures none { IfOk result (λ solved. length (S.full_words system.now) ≡ 0 → solved.turns ≡ 0) }
{
    if system.words() == 0 {
        return Ok(solve_empty(alloc, system));
    }
    solve_named_hinted::<R, S, Brand, G>(rt, alloc, system, workers, gate)
}
