//! Workers at gates: that they meet, and that no gate changes the output.
use crate::calls::{shelf_with, sink, words_of};
use rh_outside::{Gate, MemSink, OpenGate};
use rh_report::Status;
use rh_top::rhodium;
use std::alloc::Global;
use std::sync::atomic::{AtomicU64, Ordering};
use std::test::Fail;
use std::thread::{self, Threads};

/// A fact that flows around a loop with a branch.
pub(crate) const RULES: &[u8] = b"fact con(var X, const C) means X == C;
rule con_gen(var X, const C) { X := C => con(X, C) @ out }
rule con_skip(var X, const C) { skip when con(X, C) @ in => con(X, C) @ out }
rule con_goto(var X, const C) { goto when con(X, C) @ in => con(X, C) @ out }
rule con_then(var X, const C) { if _ when con(X, C) @ in => con(X, C) @ then }
rule con_else(var X, const C) { if _ when con(X, C) @ in => con(X, C) @ else }
rule use_ret(var X, const C) { return X when con(X, C) @ in => transform return C }
";

pub(crate) const PROGRAM: &[u8] =
    b"main(a) var y { y := 3; if a goto 2 else 4; skip; goto 1; return y; }";

/// A gate that lets each of two workers go on only after both have asked.
#[derive(Drop)]
struct Meeting {
    asked_by: AtomicU64,
    most: AtomicU64,
}

impl Meeting {
    fn new() -> Meeting {
        Meeting {
            asked_by: AtomicU64::new(0),
            most: AtomicU64::new(0),
        }
    }

    /// Both workers have asked, neither as often as a gate is asked at most.
    fn has_been(&self) -> bool {
        self.asked_by.load(Ordering::SeqCst) == 0b11 && self.most.load(Ordering::SeqCst) < 999_999
    }
}

impl Gate for Meeting {
    fn ready(&self, worker: u32, asked: u64) -> bool {
        let bit = 1u64.checked_shl(worker).unwrap_or(0);
        self.asked_by.fetch_or(bit, Ordering::SeqCst);
        self.most.fetch_max(asked, Ordering::SeqCst);
        for _ in 0..1000 {
            if self.asked_by.load(Ordering::SeqCst) == 0b11 {
                return true;
            }
            thread::yield_now();
        }
        false
    }
}

/// A gate that never opens.
struct Shut;

impl Gate for Shut {
    fn ready(&self, _worker: u32, _asked: u64) -> bool {
        false
    }
}

/// What `opt` writes for the loop with these words.
fn output<R: Threads + Sync, G: Gate + Sync>(
    rt: &R,
    alloc: Global,
    words: &[&str],
    gate: &G,
) -> Result<MemSink, Fail> {
    let words = words_of(alloc, words)?;
    let mut shelf = shelf_with(alloc, RULES, PROGRAM, &[])?;
    let mut out = sink(alloc)?;
    match rhodium(rt, alloc, words.as_slice(), &mut shelf, &mut out, gate) {
        Status::Done => Ok(out),
        _ => Err("not done".into()),
    }
}

/// Whether one worker at an open gate writes these bytes.
fn is_by_one<R: Threads + Sync>(rt: &R, alloc: Global, bytes: &[u8]) -> Result<bool, Fail> {
    let one = output(rt, alloc, &["opt", "--workers=1", "r", "p"], &OpenGate)?;
    Ok(one.bytes() == bytes)
}

#[test]
fn two_workers_meet(rt: HostRuntime) -> Result<(), Fail> {
    let gate = Meeting::new();
    let two = output(&rt, rt.alloc(), &["opt", "--workers=2", "r", "p"], &gate)?;
    let is_same = is_by_one(&rt, rt.alloc(), two.bytes())?;
    assert!(rt; is_same && gate.has_been() && two.bytes().len() == 370);
    Ok(())
}

/// Whether four workers at an open gate write these bytes.
fn is_by_four<R: Threads + Sync>(rt: &R, alloc: Global, bytes: &[u8]) -> Result<bool, Fail> {
    let four = output(rt, alloc, &["opt", "r", "p"], &OpenGate)?;
    Ok(four.bytes() == bytes)
}

#[test]
fn workers_go_on_past_a_gate_that_never_opens(rt: HostRuntime) -> Result<(), Fail> {
    let shut = output(&rt, rt.alloc(), &["opt", "r", "p"], &Shut)?;
    let is_same = is_by_four(&rt, rt.alloc(), shut.bytes())?;
    assert!(rt; is_same);
    Ok(())
}
