//! Real files and standard output: the edge that is trusted. Neither tells any bytes.
ghost use Rattle.std.specs.Prelude.{ℕ, ◌≡◌, ◌<◌, ◌≤◌, List, length, take, IfOk, IfSome, OnErr, is_err};
ghost use Rattle.rh_outside.specs.Faults.{Rises, count_after};
ghost use Rattle.rh_outside.specs.Untold.{untold};
ghost use Rattle.rh_outside.specs.Reading.{ReadsAt};
ghost use Rattle.rh_outside.specs.Writing.{appended, is_write_fault};

use crate::shelf::{Failed, Shelf};
use crate::sink::Sink;
use std::fs::File;
use std::io;
use std::io::{Read, Seek, SeekFrom};
use std::marker::Model;
use std::rt::Files;

/// The files of the system, by their paths. Each piece is read at its place, so the file must be one
/// that can be read anywhere: a pipe fails.
#[derive(Drop)]
pub struct FileShelf<'r, R: Files> {
    rt: &'r R,
    faults: u64,
}

/// A contract sees its count of faults.
impl<'r, R: Files> Model for FileShelf<'r, R> {
    ghost use Rattle.std.specs.Prelude.{ℕ};

    ghost Value = { ℕ };

    ghost view = { λ s. s.faults };
}

impl<'r, R: Files> FileShelf<'r, R> {
    /// A shelf at which no fault has come yet.
    pub fn new(rt: &'r R) -> FileShelf<'r, R>
        ensures { result ≡ 0 }
    {
        FileShelf { rt, faults: 0 }
    }
}

impl<R: Files> Shelf for FileShelf<'_, R> {
    ghost holds = { λ s name. untold };

    ghost faults = { λ s name. s };

    fn read_at(&mut self, name: &str, at: u64, buf: &mut [u8]) -> Result<usize, Failed>
        ensures failed { OnErr result (Rises self.old self.new) }
        ensures never_falls { (other : List ℕ) → self.old ≤ self.new }
        ensures unchanged { (other : List ℕ) → untold ≡ untold }
        ensures within { IfOk result (λ count. count ≤ length buf.new) }
        ensures bytes { IfOk result (λ count. IfSome untold (λ bytes. ReadsAt bytes at count buf.new)) }

        // A failed call adds one, and no other call changes the count.
        ensures counted { self.new ≡ count_after (is_err result) self.old }
    {
        match read_piece(self.rt, name, at, buf) {
            Ok(count) => Ok(count),
            Err(_) => {
                self.faults = self.faults.saturating_add(1);
                Err(Failed)
            }
        }
    }
}

fn read_piece<R: Files>(rt: &R, name: &str, at: u64, buf: &mut [u8]) -> io::Result<usize>
    ensures { IfOk result (λ count. count ≤ length buf.new) }
{
    let mut file = File::open(rt, name)?;
    file.seek(SeekFrom::Start(at))?;
    file.read(buf)
}

/// Standard output.
#[derive(Drop)]
pub struct StdSink<'r, R: Print> {
    rt: &'r R,
    faults: u64,
}

/// A contract sees its count of faults.
impl<'r, R: Print> Model for StdSink<'r, R> {
    ghost use Rattle.std.specs.Prelude.{ℕ};

    ghost Value = { ℕ };

    ghost view = { λ s. s.faults };
}

impl<'r, R: Print> StdSink<'r, R> {
    /// A sink at which no fault has come yet.
    pub fn new(rt: &'r R) -> StdSink<'r, R>
        ensures { result ≡ 0 }
    {
        StdSink { rt, faults: 0 }
    }
}

impl<R: Print> Sink for StdSink<'_, R> {
    ghost written = { λ s. untold };

    ghost faults = { λ s. s };

    fn write(&mut self, piece: &[u8]) -> Result<usize, Failed>
        ensures failed { OnErr result (Rises self.old self.new) }
        ensures failed_unchanged { OnErr result (untold ≡ untold) }
        ensures never_falls { self.old ≤ self.new }
        ensures within { IfOk result (λ count. count ≤ length piece.now) }
        ensures appends { IfOk result (λ count. untold ≡ appended untold (take count piece.now)) }
        ensures took_none { IfOk result (λ count. count ≡ 0 → 0 < length piece.now → Rises self.old self.new) }

        // A failed call, and one that takes no byte of a piece that is not empty, adds one, and no other call
        // changes the count.
        ensures counted { self.new ≡ count_after (is_write_fault piece.now result) self.old }
    {
        let written = self.rt.write_some(piece);
        match written {
            Ok(count) if count > 0 || piece.is_empty() => Ok(count),
            Ok(count) => {
                self.faults = self.faults.saturating_add(1);
                Ok(count)
            }
            Err(_) => {
                self.faults = self.faults.saturating_add(1);
                Err(Failed)
            }
        }
    }
}
