//! Sinks that take little, or fail.
use crate::calls::{OUTPUT, PROGRAM, RULES, shelf_with, words_of};
use rh_outside::{MemSink, OpenGate};
use rh_report::Status;
use rh_top::rhodium;
use std::alloc::Global;
use std::test::Fail;
use std::thread::Threads;

/// The status of a call whose sink takes so many bytes at a time and fails at one call, and what it holds then.
fn written<R: Threads + Sync>(
    rt: &R,
    alloc: Global,
    piece: u32,
    fails: u64,
) -> Result<(Status, MemSink), Fail> {
    let words = words_of(alloc, &["opt", "r", "p"])?;
    let mut shelf = shelf_with(alloc, RULES, PROGRAM, &[])?;
    let mut out = MemSink::new(alloc, 1000, piece, Vec::from_slice(alloc, &[fails])?)?;
    let status = rhodium(rt, alloc, words.as_slice(), &mut shelf, &mut out, &OpenGate);
    Ok((status, out))
}

#[test]
fn a_failing_sink_holds_a_front_of_the_output(rt: HostRuntime) -> Result<(), Fail> {
    for call in 1..66 {
        let (status, out) = written(&rt, rt.alloc(), 1, call)?;
        assert_eq!(rt; status, Status::WriteFault(call - 1));
        assert_eq!(rt; out.bytes(), &OUTPUT[..call as usize - 1]);
    }
    Ok(())
}

#[test]
fn a_sink_that_takes_little_gets_all(rt: HostRuntime) -> Result<(), Fail> {
    let (status, out) = written(&rt, rt.alloc(), 1, 66)?;
    assert_eq!(rt; status, Status::Done);
    assert_eq!(rt; out.bytes(), OUTPUT);
    let (status, out) = written(&rt, rt.alloc(), 10, 2)?;
    assert_eq!(rt; status, Status::WriteFault(10));
    assert_eq!(rt; out.bytes(), &OUTPUT[..10]);
    Ok(())
}

#[test]
fn a_sink_that_takes_nothing_is_told(rt: HostRuntime) -> Result<(), Fail> {
    let (status, out) = written(&rt, rt.alloc(), 0, 100)?;
    assert_eq!(rt; status, Status::WriteFault(0));
    assert!(rt; out.bytes().is_empty());
    Ok(())
}
