//! Times parts of the product, for the scripts in `bench/`. The words of the command line are one of
//!
//!     solver LAYERS WORDS    solves systems in layers of words, by one thread and by workers
//!     facts RULES PROGRAM    solves the facts of a program, as all its bits and as candidates alone
//!     rules FILE             reads a rule file and proves its rules, by one thread and by several
//!     program FILE           reads a program
//!     hard SPLITS            refutes an obligation of 512 terms that is made to be hard
//!
//! What came of it goes to standard output, and times go to standard error.
#![tactic(auto)]

mod facts;
mod hard;
mod layers;
mod rounds;
mod runs;
mod solver;
mod texts;

ghost use Rattle.std.specs.Prelude.{◌≤◌, length};

use facts::time_facts;
use hard::{hard_obligation, is_small};
use rh_admit::{admit, admit_rule};
use rh_il_text::read_program;
use rh_log::Admission;
use rh_oblig::ObligFault;
use rh_refuter::{Verdict, refute};
use rh_rule::RuleFile;
use rh_rule_text::read_rules;
use solver::time_solver;
use std::alloc::{AllocError, Global};
use std::rt::Clock;
use std::thread::Threads;
use std::time::Instant;
use std::{env, io};
use texts::text_of;

/// How many rules are admitted.
fn admitted(admissions: &[Admission]) -> usize {
    admissions
        .iter()
        .filter(|admission| matches!(admission, Admission::Admitted(_)))
        .count()
}

/// The rulings on the rules of a file, made one after another by one thread.
fn admit_in_turn(alloc: Global, file: &RuleFile) -> Result<Vec<Admission>, ObligFault> {
    let mut made = Vec::new(alloc);
    let count = file.rules().len().min(u32::MAX as usize) as u32;
    for rule in 0..count {
        made.push(admit_rule(alloc, file, rule)?)?;
    }
    Ok(made)
}

/// Proves the rules of a file by one thread: whether no obligation has too many terms.
fn prove_in_turn<R: Eprint + Clock>(rt: &R, alloc: Global, file: &RuleFile) -> io::Result<bool> {
    let start = Instant::now(rt)?;
    let in_turn = admit_in_turn(alloc, file);
    let taken = start.elapsed(rt)?.as_micros();
    let is_ruled = in_turn.is_ok();
    eprintln!(rt; "  {taken} us to prove by one thread")?;
    Ok(is_ruled)
}

/// Proves them by several threads: how many are admitted.
fn prove_by_several<R: Threads + Eprint + Clock + Sync>(
    rt: &R,
    alloc: Global,
    file: &RuleFile,
) -> io::Result<Option<usize>> {
    let start = Instant::now(rt)?;
    let ruled = admit(rt, alloc, file);
    let taken = start.elapsed(rt)?.as_micros();
    eprintln!(rt; "  {taken} us to prove by several threads")?;
    Ok(match ruled {
        Ok(admissions) => Some(admitted(admissions.as_slice())),
        Err(_) => None,
    })
}

/// Proves the rules of a file, by one thread and by several.
fn time_proofs<R: Threads + Print + Eprint + Clock + Sync>(
    rt: &R,
    alloc: Global,
    file: &RuleFile,
) -> io::Result<()> {
    let is_ruled = prove_in_turn(rt, alloc, file)?;
    match prove_by_several(rt, alloc, file)? {
        Some(count) if is_ruled => {
            println!(rt; "{} rules, {count} admitted", file.rules().len())?;
        }
        _ => println!(rt; "too many terms")?,
    }
    Ok(())
}

/// Reads a rule file.
fn timed_rules<R: Eprint + Clock>(
    rt: &R,
    alloc: Global,
    text: &[u8],
) -> io::Result<Option<RuleFile>>
    requires { length text.now ≤ 1048576 }
{
    let start = Instant::now(rt)?;
    let read = read_rules(alloc, text).ok();
    let reading = start.elapsed(rt)?.as_micros();
    eprintln!(rt; "  {reading} us to read")?;
    Ok(read)
}

/// Reads a rule file and proves its rules.
fn time_rules<R: Threads + Print + Eprint + Clock + Sync>(
    rt: &R,
    alloc: Global,
    text: &[u8],
) -> io::Result<()>
    requires { length text.now ≤ 1048576 }
{
    match timed_rules(rt, alloc, text)? {
        Some(file) => time_proofs(rt, alloc, &file),
        None => {
            println!(rt; "refused")?;
            Ok(())
        }
    }
}

/// Reads a program: how many procedures it has.
fn timed_program(rt: &HostRuntime, text: &[u8]) -> io::Result<Option<u32>>
    requires { length text.now ≤ 1048576 }
{
    let start = Instant::now(rt)?;
    let read = read_program(rt.alloc(), text);
    let reading = start.elapsed(rt)?.as_micros();
    eprintln!(rt; "  {reading} us to read")?;
    Ok(match read {
        Ok(program) => Some(program.count()),
        Err(_) => None,
    })
}

/// Reads a program.
fn time_program(rt: &HostRuntime, text: &[u8]) -> io::Result<()>
    requires { length text.now ≤ 1048576 }
{
    match timed_program(rt, text)? {
        Some(count) => println!(rt; "{count} procedures")?,
        None => println!(rt; "refused")?,
    }
    Ok(())
}

/// The nodes of the closed tree of the obligation with so many splits, and 0 where there is none.
fn hard_nodes(alloc: Global, splits: u32) -> Result<usize, AllocError> {
    if splits > 100 {
        return Ok(0);
    }
    let Some(obligation) = hard_obligation(alloc, splits)? else {
        return Ok(0);
    };
    if !is_small(&obligation) {
        return Ok(0);
    }
    Ok(match refute(alloc, &obligation)? {
        Verdict::Closed(log) => log.nodes.len(),
        Verdict::Open(_) => 0,
    })
}

/// Refutes an obligation that is made to be hard.
fn time_hard(rt: &HostRuntime, splits: u32) -> io::Result<()> {
    let start = Instant::now(rt)?;
    let nodes = hard_nodes(rt.alloc(), splits)?;
    let taken = start.elapsed(rt)?.as_micros();
    println!(rt; "{splits} splits: {nodes} nodes")?;
    eprintln!(rt; "  {taken} us")?;
    Ok(())
}

/// The number that a word spells, and 0 where it spells none.
fn number(word: Option<&str>) -> u32 {
    match word {
        Some(word) => word.parse().unwrap_or(0),
        None => 0,
    }
}

fn main(rt: HostRuntime) -> io::Result<()> {
    let mut words = env::args(&rt)?;
    let _program = words.next();
    let kind = words.next();
    let first = words.next();
    let second = words.next();
    let (first, second) = (first.as_deref(), second.as_deref());
    match kind.as_deref() {
        Some("solver") => time_solver(&rt, rt.alloc(), number(first), number(second)),
        Some("facts") => {
            let rules = text_of(&rt, first);
            let program = text_of(&rt, second);
            time_facts(&rt, rt.alloc(), rules.as_slice(), program.as_slice())
        }
        Some("rules") => time_rules(&rt, rt.alloc(), text_of(&rt, first).as_slice()),
        Some("program") => time_program(&rt, text_of(&rt, first).as_slice()),
        Some("hard") => time_hard(&rt, number(first)),
        _ => Ok(()),
    }
}
