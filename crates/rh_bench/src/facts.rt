//! Times of the solver on the facts of a program.
ghost use Rattle.std.specs.Prelude.{◌≡◌, ◌≤◌, IfOk, length, map};
ghost use Rattle.rh_log.specs.Admission.{ruling_of};
ghost use Rattle.rh_sparse.specs.Parts.{full_in, rows_in};
ghost use Rattle.rh_sparse.specs.Sparse.{sparse_full};

use crate::runs::{by_hints, by_one_thread, by_workers, tell_time};
use rh_admit::{AdmitFault, admit};
use rh_il::Program;
use rh_il_text::read_program;
use rh_log::Admission;
use rh_rows::Ground;
use rh_rule::{RuleFile, Ruling};
use rh_rule_text::read_rules;
use rh_sparse::Sparse;
use std::alloc::{AllocError, Global};
use std::io;
use std::rt::Clock;
use std::thread::Threads;
use std::time::Instant;

fn tell_refused<R: Print>(rt: &R) -> io::Result<()> {
    println!(rt; "refused")?;
    Ok(())
}

/// Reads a rule file and a program, proves the rules, and solves the program's facts.
pub fn time_facts<R: Threads + Print + Eprint + Clock + Sync>(
    rt: &R,
    alloc: Global,
    rules: &[u8],
    program: &[u8],
) -> io::Result<()>
    requires rules { length rules.now ≤ 1048576 }
    requires program { length program.now ≤ 1048576 }
{
    match read_rules(alloc, rules) {
        Ok(file) => time_facts_by(rt, alloc, &file, program),
        Err(_) => tell_refused(rt),
    }
}

fn time_facts_by<R: Threads + Print + Eprint + Clock + Sync>(
    rt: &R,
    alloc: Global,
    file: &RuleFile,
    program: &[u8],
) -> io::Result<()>
    requires { length program.now ≤ 1048576 }
{
    match read_program(alloc, program) {
        Ok(program) => time_program_facts(rt, alloc, file, &program),
        Err(_) => tell_refused(rt),
    }
}

fn rulings_of(alloc: Global, admissions: &[Admission]) -> Result<Vec<Ruling>, AllocError>
    ensures { IfOk result (λ rulings. rulings.items ≡ map ruling_of admissions.now) }
{
    let mut rulings = Vec::with_capacity(alloc, admissions.len())?;
    for admission in admissions {
        rulings.push(admission.ruling())?;
    }
    Ok(rulings)
}

/// A ruling on each rule of a file.
fn ruled<R: Threads + Sync>(
    rt: &R,
    alloc: Global,
    file: &RuleFile,
) -> Result<Vec<Ruling>, AdmitFault>
    ensures { IfOk result (λ rulings. length file.now.rules ≡ length rulings.items) }
{
    let admissions = admit(rt, alloc, file)?;
    Ok(rulings_of(alloc, admissions.as_slice())?)
}

/// The facts of a program, if they are not too many.
fn timed_ground<R: Eprint + Clock>(
    rt: &R,
    alloc: Global,
    file: &RuleFile,
    rulings: &[Ruling],
    program: &Program,
) -> io::Result<Option<Ground>>
    requires { length file.now.rules ≡ length rulings.now }
{
    let start = Instant::now(rt)?;
    let ground = Ground::new(alloc, file, rulings, program).ok();
    tell_time(rt, "Ground::new", &start)?;
    Ok(ground)
}

fn time_program_facts<R: Threads + Print + Eprint + Clock + Sync>(
    rt: &R,
    alloc: Global,
    file: &RuleFile,
    program: &Program,
) -> io::Result<()> {
    match ruled(rt, alloc, file) {
        Ok(rulings) => time_ruled_facts(rt, alloc, file, rulings.as_slice(), program),
        Err(_) => {
            println!(rt; "too many terms")?;
            Ok(())
        }
    }
}

fn time_ruled_facts<R: Threads + Print + Eprint + Clock + Sync>(
    rt: &R,
    alloc: Global,
    file: &RuleFile,
    rulings: &[Ruling],
    program: &Program,
) -> io::Result<()>
    requires { length file.now.rules ≡ length rulings.now }
{
    match timed_ground(rt, alloc, file, rulings, program)? {
        Some(ground) => time_ground(rt, alloc, &ground),
        None => {
            println!(rt; "too many facts")?;
            Ok(())
        }
    }
}

fn fact_count(words: &[u64]) -> u64 {
    let mut count: u64 = 0;
    for word in words {
        count = count.saturating_add(u64::from(word.count_ones()));
    }
    count
}

fn timed_sparse<'g, R: Eprint + Clock>(
    rt: &R,
    alloc: Global,
    ground: &'g Ground,
) -> io::Result<Sparse<'g>> {
    let start = Instant::now(rt)?;
    let sparse = Sparse::new(alloc, ground)?;
    tell_time(rt, "Sparse::new", &start)?;
    Ok(sparse)
}

fn tell_counts<R: Print>(rt: &R, expanded: &[u64], candidates: u64) -> io::Result<()> {
    let facts = fact_count(expanded);
    println!(rt;
        "{} words, {candidates} candidates, {facts} facts",
        expanded.len()
    )?;
    Ok(())
}

/// The words of one thread as those of all bits.
fn timed_words<R: Print + Eprint + Clock>(
    rt: &R,
    alloc: Global,
    sparse: &Sparse,
    words: &[u64],
) -> io::Result<Vec<u64>>
    requires { length words.now ≡ length (sparse_full (full_in sparse.now.facts.now) (rows_in sparse.now.facts.now)) }
{
    let start = Instant::now(rt)?;
    let expanded = sparse.expand(alloc, words)?;
    tell_time(rt, "expand", &start)?;
    tell_counts(rt, expanded.as_slice(), sparse.count())?;
    Ok(expanded)
}

/// Solves the sparse system, and gives its words as those of all bits.
fn time_sparse<R: Threads + Print + Eprint + Clock + Sync>(
    rt: &R,
    alloc: Global,
    sparse: &Sparse,
) -> io::Result<Vec<u64>> {
    let words = by_one_thread(rt, alloc, "sparse, one thread", sparse)?;
    let expanded = timed_words(rt, alloc, sparse, words.as_slice())?;
    by_workers(rt, alloc, "sparse", sparse, words.as_slice())?;
    by_hints(rt, alloc, "sparse", sparse, words.as_slice())?;
    Ok(expanded)
}

fn sparse_words<R: Threads + Print + Eprint + Clock + Sync>(
    rt: &R,
    alloc: Global,
    ground: &Ground,
) -> io::Result<Vec<u64>> {
    let sparse = timed_sparse(rt, alloc, ground)?;
    time_sparse(rt, alloc, &sparse)
}

/// Solves the sparse system first, since the other one takes longest.
fn time_ground<R: Threads + Print + Eprint + Clock + Sync>(
    rt: &R,
    alloc: Global,
    ground: &Ground,
) -> io::Result<()> {
    let words = sparse_words(rt, alloc, ground)?;
    by_workers(rt, alloc, "ground", ground, words.as_slice())
}
