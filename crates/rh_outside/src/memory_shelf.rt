//! A shelf in memory.
ghost use Rattle.std.specs.Prelude.{ℕ, ◌≡◌, ◌≤◌, ◌↔◌, ◌⊎◌, min, List, Option, None, length, drop, Contains, IfOk, IfSome, IsErr, OnErr, is_err, option_copied};
ghost use Rattle.rh_outside.specs.Faults.{Rises, count_after, next_count};
ghost use Rattle.rh_outside.specs.Reading.{ReadsAt};
ghost use Rattle.rh_outside.specs.MemoryShelf.{bytes_named};

use crate::shelf::{Failed, Shelf};
use rh_list::{Items, Text};
use std::marker::Model;

/// A file in memory.
#[derive(Drop)]
pub struct NamedFile {
    /// Its name.
    pub name: Text,
    /// Its bytes.
    pub bytes: Items<u8>,
}

/// Files in memory. Of two files of one name the first counts. The calls with certain numbers fail,
/// where the first call has the number 1.
#[derive(Drop)]
pub struct MemShelf {
    files: Vec<NamedFile>,
    fails: Vec<u64>,
    calls: u64,
    faults: u64,
}

impl Model for MemShelf {
    ghost use Rattle.rh_outside.specs.MemoryShelf.{ShelfState};

    ghost Value = { ShelfState };

    ghost view = { λ s. record { files = s.files.items; fails = s.fails.items; calls = s.calls; faults = s.faults } };
}

impl MemShelf {
    /// A shelf with these files, at which the calls with these numbers fail.
    pub fn new(files: Vec<NamedFile>, fails: Vec<u64>) -> MemShelf
        ensures { result ≡ record { files = files.items; fails = fails.items; calls = 0; faults = 0 } }
    {
        MemShelf {
            files,
            fails,
            calls: 0,
            faults: 0,
        }
    }
}

impl Shelf for MemShelf {
    ghost use Rattle.rh_outside.specs.MemoryShelf.{bytes_named};

    ghost holds = { λ s name. bytes_named s.files name };

    ghost faults = { λ s name. s.faults };

    fn read_at(&mut self, name: &str, at: u64, buf: &mut [u8]) -> Result<usize, Failed>
        ensures failed { OnErr result (Rises self.old.faults self.new.faults) }
        ensures never_falls { (other : List ℕ) → self.old.faults ≤ self.new.faults }
        ensures unchanged { (other : List ℕ) → bytes_named self.new.files other ≡ bytes_named self.old.files other }
        ensures within { IfOk result (λ count. count ≤ length buf.new) }
        ensures bytes { IfOk result (λ count. IfSome (bytes_named self.old.files name.now) (λ bytes. ReadsAt bytes at count buf.new)) }

        // It fails exactly at the numbers that it was given, and where no file has the name. Any other
        // call gives all that the buffer takes and the file has.
        ensures fails { IsErr result ↔ (Contains self.old.fails (next_count self.old.calls) ⊎ (bytes_named self.old.files name.now ≡ None)) }
        ensures count { IfOk result (λ count. IfSome (bytes_named self.old.files name.now) (λ bytes. count ≡ min (length buf.new) (length (drop at bytes)))) }
        ensures after { self.new ≡ record self.old { calls = next_count self.old.calls; faults = count_after (is_err result) self.old.faults } }
    {
        self.calls = self.calls.saturating_add(1);
        if self.fails.contains(&self.calls) {
            self.faults = self.faults.saturating_add(1);
            return Err(Failed);
        }
        let Some(bytes) = find(&self.files, name) else {
            self.faults = self.faults.saturating_add(1);
            return Err(Failed);
        };
        Ok(copy_from(bytes, at, buf))
    }
}

/// The bytes of the first file of that name.
fn find<'a>(files: &'a [NamedFile], name: &str) -> Option<&'a [u8]>
    ensures { option_copied result ≡ bytes_named files.now name.now }
{
    for file in files {
        if file.name.as_str() == name {
            return Some(file.bytes.as_slice());
        }
    }
    None
}

/// Copies what the buffer takes of the bytes from a place on, and answers how many bytes it copied.
fn copy_from(bytes: &[u8], at: u64, buf: &mut [u8]) -> usize
    ensures count { result ≡ min (length buf.new) (length (drop at bytes.now)) }
    ensures bytes { ReadsAt bytes.now at result buf.new }
{
    let rest = match usize::try_from(at) {
        Ok(at) if at < bytes.len() => &bytes[at..],
        _ => &[],
    };
    let count = rest.len().min(buf.len());
    buf[..count].copy_from_slice(&rest[..count]);
    count
}
