//! The shelves, the sinks and the gate of the outside world: pieces, failing calls, and what the system gives and takes.
use rh_list::{Items, Text};
use rh_outside::{
    Failed, FileShelf, Gate, MemShelf, MemSink, NamedFile, OpenGate, ReadError, Shelf, StdSink,
    read_whole, write_whole,
};
use std::alloc::{AllocError, Global};
use std::fs;
use std::test::Fail;

fn shelf_of(alloc: Global, bytes: &[u8], fails: &[u64]) -> Result<MemShelf, AllocError> {
    let file = NamedFile {
        name: Text::from(String::from_str(alloc, "f")?),
        bytes: Items::from(Vec::from_slice(alloc, bytes)?),
    };
    Ok(MemShelf::new(vec![in alloc; file]?, Vec::from_slice(alloc, fails)?))
}

#[test]
fn a_shelf_in_memory_reads_pieces(rt: HostRuntime) -> Result<(), Fail> {
    let mut shelf = shelf_of(rt.alloc(), b"hello", &[4])?;
    let mut buffer = [0u8; 3];
    for (name, at, wanted) in [
        ("f", 0, Ok(3)),
        ("f", 3, Ok(2)),
        ("f", 9, Ok(0)),
        ("f", 0, Err(Failed)),
        ("g", 0, Err(Failed)),
    ] {
        let count = shelf.read_at(name, at, &mut buffer);
        assert!(rt; count == wanted, "{name} at {at}");
    }
    Ok(())
}

/// Whether a file of at most so many bytes is read as these.
fn is_read<S: Shelf>(alloc: Global, shelf: &mut S, name: &str, limit: u32, bytes: &[u8]) -> bool {
    match read_whole(alloc, shelf, name, limit as usize) {
        Ok(found) => found.as_slice() == bytes,
        Err(_) => false,
    }
}

/// Whether the file is longer.
fn is_too_long<S: Shelf>(alloc: Global, shelf: &mut S, name: &str, limit: u32) -> bool {
    match read_whole(alloc, shelf, name, limit as usize) {
        Err(ReadError::TooLong) => true,
        _ => false,
    }
}

/// Whether the shelf fails.
fn is_fault<S: Shelf>(alloc: Global, shelf: &mut S, name: &str, limit: u32) -> bool {
    match read_whole(alloc, shelf, name, limit as usize) {
        Err(ReadError::Fault) => true,
        _ => false,
    }
}

#[test]
fn whole_files_are_read(rt: HostRuntime) -> Result<(), Fail> {
    let mut shelf = shelf_of(rt.alloc(), b"hello", &[4])?;
    assert!(rt; is_read(rt.alloc(), &mut shelf, "f", 5, b"hello"));
    assert!(rt; is_too_long(rt.alloc(), &mut shelf, "f", 4));
    assert!(rt; is_fault(rt.alloc(), &mut shelf, "f", 5));
    Ok(())
}

/// The place and the length of the buffer of a call.
type Asked = (u64, usize);

/// A file of so many bytes, with what each call asks.
#[derive(Drop)]
struct AskedShelf {
    len: u64,
    asked: Vec<Asked>,
    faults: u64,
}

impl Shelf for AskedShelf {
    ghost use Rattle.rh_outside.specs.Untold.{untold};

    ghost holds = { λ s name. untold };

    ghost faults = { λ s name. s.faults };

    fn read_at(&mut self, name: &str, at: u64, buf: &mut [u8]) -> Result<usize, Failed> {
        if name != "f" || self.asked.push((at, buf.len())).is_err() {
            self.faults = self.faults.saturating_add(1);
            return Err(Failed);
        }
        let rest = self.len.saturating_sub(at) as usize;
        Ok(rest.min(buf.len()))
    }
}

/// What `read_whole` asks of a file of so many bytes.
fn asked_of(alloc: Global, len: u64, limit: u32) -> Vec<Asked> {
    let mut shelf = AskedShelf {
        len,
        asked: Vec::new(alloc),
        faults: 0,
    };
    let _read = read_whole(alloc, &mut shelf, "f", limit as usize);
    shelf.asked
}

const PIECES: [Asked; 5] = [
    (0, 65536),
    (65536, 65536),
    (131_072, 65536),
    (196_608, 3393),
    (200_000, 1),
];

const PIECES_PAST_A_LIMIT: [Asked; 3] = [(0, 65536), (65536, 65536), (131_072, 1)];

#[test]
fn files_are_read_in_pieces_up_to_one_byte_past_the_limit(rt: HostRuntime) -> Result<(), Fail> {
    let whole = asked_of(rt.alloc(), 200_000, 200_000);
    let too_long = asked_of(rt.alloc(), 200_000, 131_072);
    assert!(rt; whole.as_slice() == PIECES.as_slice());
    assert!(rt; too_long.as_slice() == PIECES_PAST_A_LIMIT.as_slice());
    Ok(())
}

#[test]
fn whole_outputs_are_written(rt: HostRuntime) -> Result<(), Fail> {
    let fails = Vec::from_slice(rt.alloc(), &[4])?;
    let mut sink = MemSink::new(rt.alloc(), 9, 2, fails)?;
    assert!(rt; write_whole(&mut sink, b"hello") == Ok(()));
    assert!(rt; write_whole(&mut sink, b" you") == Err(0));
    assert!(rt; write_whole(&mut sink, b" you all") == Err(4));
    assert!(rt; sink.bytes() == b"hello you".as_slice());
    Ok(())
}

/// More bytes than a piece has, which tell at each place which place it is.
fn counted_up(alloc: Global) -> Result<Vec<u8>, AllocError> {
    let mut bytes = Vec::new(alloc);
    for number in 0..20_000u32 {
        bytes.extend_from_slice(&number.to_be_bytes())?;
    }
    Ok(bytes)
}

#[test]
fn the_system_gives_what_it_took(rt: HostRuntime) -> Result<(), Fail> {
    let long = counted_up(rt.alloc())?;
    fs::write(&rt, "long", long.as_slice())
        .ok()
        .ok_or("not written")?;
    let mut shelf = FileShelf::new(&rt);
    assert!(rt; is_read(rt.alloc(), &mut shelf, "long", 100_000, long.as_slice()));
    assert!(rt; is_fault(rt.alloc(), &mut shelf, "missing", 100));
    assert!(rt; is_fault(rt.alloc(), &mut shelf, ".", 100));
    Ok(())
}

#[test]
fn standard_output_is_written(rt: HostRuntime) {
    let mut sink = StdSink::new(&rt);
    assert!(rt; write_whole(&mut sink, b"to standard output\n") == Ok(()));
}

fn shared<T: Send + Sync>(_value: &T) {}

#[test]
fn the_open_gate_is_open_to_all_threads(rt: HostRuntime) {
    shared(&OpenGate);
    assert!(rt; OpenGate.ready(3, 9));
}
