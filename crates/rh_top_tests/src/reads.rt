//! What is asked of the shelf, reads that fail, and programs that are cut short.
use crate::calls::{OUTPUT, PROGRAM, RULES, opt, shelf_with, sink};
use rh_il::{ProgFault, ProgWrong};
use rh_il_text::ReadFault;
use rh_outside::{Failed, MemShelf, Shelf};
use rh_report::{Part, Status};
use rh_text::LexFault;
use std::alloc::{AllocError, Global};
use std::test::Fail;
use std::thread::Threads;

/// Which file is read, the place and the length of the buffer.
type Asked = (Part, u64, usize);

/// A shelf that keeps what each call asks.
#[derive(Drop)]
struct AskedShelf {
    shelf: MemShelf,
    asked: Vec<Asked>,
}

impl Shelf for AskedShelf {
    ghost use Rattle.rh_outside.specs.Untold.{untold};

    ghost holds = { λ s name. untold };

    ghost faults = { λ s name. s.shelf.faults };

    fn read_at(&mut self, name: &str, at: u64, buf: &mut [u8]) -> Result<usize, Failed> {
        let part = if name == "r" {
            Part::Rules
        } else {
            Part::Program
        };
        let _kept = self.asked.push((part, at, buf.len()));
        self.shelf.read_at(name, at, buf)
    }
}

const ONCE: [Asked; 4] = [
    (Part::Rules, 0, 65536),
    (Part::Rules, 62, 65536),
    (Part::Program, 0, 65536),
    (Part::Program, 39, 65536),
];

fn asked_shelf(alloc: Global) -> Result<AskedShelf, AllocError> {
    Ok(AskedShelf {
        shelf: shelf_with(alloc, RULES, PROGRAM, &[])?,
        asked: Vec::new(alloc),
    })
}

/// What a call asks of its shelf, and whether it wrote the output.
fn asked_by_call<R: Threads + Sync>(rt: &R, alloc: Global) -> Result<(Vec<Asked>, bool), Fail> {
    let mut shelf = asked_shelf(alloc)?;
    let mut out = sink(alloc)?;
    let status = opt(rt, alloc, &mut shelf, &mut out)?;
    let is_made = status == Status::Done && out.bytes() == OUTPUT;
    Ok((shelf.asked, is_made))
}

#[test]
fn each_file_is_read_once_in_pieces(rt: HostRuntime) -> Result<(), Fail> {
    let (asked, is_made) = asked_by_call(&rt, rt.alloc())?;
    assert!(rt; is_made && asked.as_slice() == ONCE.as_slice());
    Ok(())
}

/// The status for a program on a shelf whose calls with these numbers fail, and whether nothing was written.
fn status_for<R: Threads + Sync>(
    rt: &R,
    alloc: Global,
    program: &[u8],
    fails: &[u64],
) -> Result<(Status, bool), Fail> {
    let mut shelf = shelf_with(alloc, RULES, program, fails)?;
    let mut out = sink(alloc)?;
    let status = opt(rt, alloc, &mut shelf, &mut out)?;
    Ok((status, out.bytes().is_empty()))
}

#[test]
fn a_failing_shelf_is_told(rt: HostRuntime) -> Result<(), Fail> {
    for (call, told) in [
        (1, Status::ReadFault(Part::Rules)),
        (2, Status::ReadFault(Part::Rules)),
        (3, Status::ReadFault(Part::Program)),
        (4, Status::ReadFault(Part::Program)),
        (5, Status::Done),
    ] {
        let found = status_for(&rt, rt.alloc(), PROGRAM, &[call])?;
        assert!(rt; found == (told, told != Status::Done), "call {call}");
    }
    Ok(())
}

/// The status for the program when it is cut to so many bytes.
fn status_at(length: u32) -> Status {
    let fault = match length {
        0 => ReadFault::Program(ProgFault::Wrong {
            kind: ProgWrong::NoMain,
            proc: 0,
            item: 0,
        }),
        9 | 10 => ReadFault::Syntax(8),
        19 => ReadFault::Lex(LexFault::BadByte(18)),
        _ => ReadFault::Syntax(length),
    };
    Status::BadProgram(fault)
}

#[test]
fn programs_that_are_cut_short_are_told(rt: HostRuntime) -> Result<(), Fail> {
    for length in 0..PROGRAM.len() {
        let found = status_for(&rt, rt.alloc(), &PROGRAM[..length], &[])?;
        assert!(rt;
            found == (status_at(length as u32), true),
            "cut to {length}"
        );
    }
    Ok(())
}
