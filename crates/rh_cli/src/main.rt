//! The command `rhodium`.
#![tactic(auto)]

use rh_outside::{FileShelf, OpenGate, StdSink};
use rh_report::{Status, refusal_line};
use rh_top::rhodium;
use std::alloc::AllocError;
use std::env;
use std::io::{ErrorKind, Write};
use std::process::ExitCode;

/// The words after the program's name.
fn collected(rt: &HostRuntime, args: env::Args) -> Result<Vec<String>, AllocError> {
    let mut words = Vec::new(rt.alloc());
    for (place, word) in args.enumerate() {
        if place > 0 {
            words.push(word)?;
        }
    }
    Ok(words)
}

/// The words of the command line. Where one is not UTF-8, there is no list of words.
fn words_of(rt: &HostRuntime) -> Result<Vec<String>, Status> {
    match env::args(rt) {
        Ok(args) => match collected(rt, args) {
            Ok(words) => Ok(words),
            Err(_) => Err(Status::NoMemory),
        },
        Err(error) if error.kind() == ErrorKind::OutOfMemory => Err(Status::NoMemory),
        Err(_) => Err(Status::Usage(0)),
    }
}

fn main(rt: HostRuntime) -> ExitCode {
    let status = match words_of(&rt) {
        Ok(words) => {
            let mut shelf = FileShelf::new(&rt);
            let mut out = StdSink::new(&rt);
            rhodium(
                &rt,
                rt.alloc(),
                words.as_slice(),
                &mut shelf,
                &mut out,
                &OpenGate,
            )
        }
        Err(status) => status,
    };
    if let Ok(line) = refusal_line(rt.alloc(), status) {
        let _told = rt.stderr().write_all(line.as_slice());
    }
    ExitCode::from(status.number())
}
