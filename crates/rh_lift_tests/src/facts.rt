//! What is known of random programs, in the states of their runs.
ghost use Rattle.std.specs.Prelude.{◌≡◌, ◌≤◌, IsTrue, length};
ghost use Rattle.std.specs.List.{All};
ghost use Rattle.rh_meaning.specs.Holds.{HasCell, HaveCells};

use crate::programs::random_program;
use crate::random::Random;
use crate::rules::{grounded, rule_file};
use rh_admit::admit;
use rh_domain::FactAt;
use rh_il::Program;
use rh_il_step::{Outcome, State, start, starts_are_states, step};
use rh_meaning::holds;
use rh_rows::Ground;
use rh_rule::{Arg, RuleFile, Ruling, Schema};
use rh_system::greatest;
use std::alloc::Global;
use std::process::Abort;
use std::test::Fail;
use std::thread::Threads;

const PROGRAMS: u32 = 100;

/// With these programs the test fails, as it was tried by hand, where `con_call` or `con_write` loses its second premise, or
/// `una_addr` its condition, and they are taken for proved.
const SEED: u64 = 9;

/// The most steps of a run.
const STEPS: u32 = 60;

/// The rule file, and that each of its rules is proved.
fn proved_rules(
    rt: &(impl Alloc<A = Global> + Abort + Threads + Sync),
) -> Result<(RuleFile, Vec<Ruling>), Fail> {
    let file = rule_file(rt.alloc())?;
    let mut rulings = Vec::new(rt.alloc());
    for admission in admit(rt, rt.alloc(), &file).map_err(|_| "no rulings")? {
        assert!(rt; admission.ruling() == Ruling::Admitted);
        rulings.push(admission.ruling())?;
    }
    Ok((file, rulings))
}

/// The facts that the proved rules support on the edges of a program.
fn known_facts(
    rt: &(impl Alloc<A = Global> + Abort),
    file: &RuleFile,
    rulings: &[Ruling],
    program: &Program,
) -> Result<Vec<FactAt>, Fail> {
    let ground = grounded(rt, file, rulings, program)?;
    let words = greatest(rt.alloc(), &ground)?;
    facts_of(rt.alloc(), &ground, words.as_slice())
}

/// The facts of the bits that are set.
fn facts_of(alloc: Global, ground: &Ground, words: &[u64]) -> Result<Vec<FactAt>, Fail> {
    let mut known = Vec::new(alloc);
    let mut bit = 0u64;
    for word in words {
        for place in 0..u64::BITS {
            if (*word >> place) & 1 == 1 {
                known.push(ground.fact_of(bit).ok_or("a bit without a fact")?)?;
            }
            bit = bit.wrapping_add(1);
        }
    }
    Ok(known)
}

/// Each variable among the arguments has a cell.
fn have_cells(state: &State, args: &[Arg]) -> bool
    ensures { IsTrue result → HaveCells state.now.frames (length state.now.cells) args.now }
{
    match state.frames().last() {
        Some(top) => all_have_cells(top.base, state.cells().len(), args),
        None => true,
    }
}

fn all_have_cells(base: u64, count: usize, args: &[Arg]) -> bool
    ensures { IsTrue result → All (HasCell base count) args.now }
{
    args.iter().all(|arg| has_cell(base, count, *arg))
}

fn has_cell(base: u64, count: usize, arg: Arg) -> bool
    ensures { IsTrue result → HasCell base count arg }
{
    match arg {
        Arg::Var(number) => match base.checked_add(u64::from(number)) {
            Some(location) => location < count as u64,
            None => false,
        },
        Arg::Const(_) => true,
    }
}

/// Asserts that each fact on the edge that the running procedure took last holds: how many there are.
fn look(
    rt: &(impl Alloc<A = Global> + Abort),
    schemas: &[Schema],
    known: &[FactAt],
    state: &State,
) -> Result<u64, Fail> {
    let top = state.frames().last().copied().ok_or("no frame")?;
    let mut count = 0u64;
    for at in known {
        if at.proc == top.proc && at.edge == top.edge {
            let args = at.fact.args.as_slice();
            let schema = schemas.get(at.fact.schema as usize).ok_or("no schema")?;
            assert!(rt; have_cells(state, args));
            assert!(rt; holds(schema, args, state));
            count = count.wrapping_add(1);
        }
    }
    Ok(count)
}

/// Looks at each state of a run: how many facts were looked at.
fn watch(
    rt: &(impl Alloc<A = Global> + Abort),
    schemas: &[Schema],
    known: &[FactAt],
    program: &Program,
    arg: i64,
) -> Result<u64, Fail> {
    starts_are_states(program);
    let mut state = start(rt.alloc(), program, arg)?;
    let mut count = 0u64;
    for _ in 0..STEPS {
        count = count.wrapping_add(look(rt, schemas, known, &state)?);
        match step(program, &mut state)? {
            Outcome::Went => {}
            Outcome::Returned(_) | Outcome::Stuck => break,
        }
    }
    Ok(count)
}

#[test]
fn known_facts_hold(rt: HostRuntime) -> Result<(), Fail> {
    let (file, rulings) = proved_rules(&rt)?;
    let mut random = Random::new(SEED);
    let mut count = 0u64;
    for _ in 0..PROGRAMS {
        let program = random_program(&rt, &mut random)?;
        let known = known_facts(&rt, &file, rulings.as_slice(), &program)?;
        for arg in [0, 1, -1] {
            let more = watch(&rt, file.schemas(), known.as_slice(), &program, arg)?;
            count = count.wrapping_add(more);
        }
    }
    assert!(rt; count > 10_000, "{count} facts");
    Ok(())
}
