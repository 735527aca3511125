//! One call of the top on two files.
use rh_list::{Items, Text};
use rh_outside::{MemShelf, MemSink, NamedFile, OpenGate, Shelf};
use rh_report::Status;
use rh_top::rhodium;
use std::alloc::{AllocError, Global};
use std::thread::Threads;

/// A rule file, and a program of 39 bytes.
pub(crate) const RULES: &[u8] = b"rule add_zero(var X, var A) { X := A + 0 => transform X := A }";

pub(crate) const PROGRAM: &[u8] = b"main(a) var y { y := a + 0; return y; }";

/// What `opt` writes for them: 65 bytes.
pub(crate) const OUTPUT: &[u8] =
    b"# rule add_zero admitted\nmain(a) var y {\n  y := a;\n  return y;\n}\n";

fn file(alloc: Global, name: &str, bytes: &[u8]) -> Result<NamedFile, AllocError> {
    Ok(NamedFile {
        name: Text::from(String::from_str(alloc, name)?),
        bytes: Items::from(Vec::from_slice(alloc, bytes)?),
    })
}

/// A shelf with a rule file `r` and a program `p`, the calls of which with these numbers fail.
pub(crate) fn shelf_with(
    alloc: Global,
    rules: &[u8],
    program: &[u8],
    fails: &[u64],
) -> Result<MemShelf, AllocError> {
    let files = vec![in alloc; file(alloc, "r", rules)?, file(alloc, "p", program)?]?;
    Ok(MemShelf::new(files, Vec::from_slice(alloc, fails)?))
}

pub(crate) fn words_of(alloc: Global, texts: &[&str]) -> Result<Vec<String>, AllocError> {
    let mut words = Vec::new(alloc);
    for text in texts {
        words.push(String::from_str(alloc, text)?)?;
    }
    Ok(words)
}

/// A sink with room for the output.
pub(crate) fn sink(alloc: Global) -> Result<MemSink, AllocError> {
    MemSink::new(alloc, 1000, 1000, Vec::new(alloc))
}

/// The status of `opt r p`.
pub(crate) fn opt<R: Threads + Sync, S: Shelf>(
    rt: &R,
    alloc: Global,
    shelf: &mut S,
    out: &mut MemSink,
) -> Result<Status, AllocError> {
    let words = words_of(alloc, &["opt", "r", "p"])?;
    Ok(rhodium(rt, alloc, words.as_slice(), shelf, out, &OpenGate))
}
