//! Whole files in, and whole outputs out.
ghost use Rattle.std.specs.Prelude.{ℕ, ◌≡◌, ◌<◌, ◌≤◌, ◌+◌, ◌^◌, List, length, take, IfOk, IfSome, IfErr, OnOk, IsErrOf, vec_len};
ghost use Rattle.rh_outside.specs.Faults.{Rises};
ghost use Rattle.rh_outside.specs.Reading.{IsFront};
ghost use Rattle.rh_outside.specs.Writing.{appended};

use crate::shelf::Shelf;
use crate::sink::Sink;
use std::alloc::{AllocError, Global};

/// The most bytes that one read asks for.
const PIECE: usize = 65536;

/// Why a file was not read.
#[derive(Clone, Copy, Debug, PartialEq, Eq)]
pub enum ReadError {
    /// A read failed.
    Fault,
    /// The file has more bytes than the limit.
    TooLong,
    /// There was no memory for its bytes.
    NoMemory,
}

impl From<AllocError> for ReadError {
    ghost use Rattle.rh_outside.specs.declared.transfer.ReadError.TheVariants.{NoMemory};

    ghost from_gives = { λ _ error. error ≡ NoMemory };

    fn from(_error: AllocError) -> ReadError {
        ReadError::NoMemory
    }
}

/// Reads a file of at most so many bytes from its start to its end, in pieces of at most 65,536
/// bytes, and never more than one byte past the limit.
pub fn read_whole<S: Shelf>(
    alloc: Global,
    shelf: &mut S,
    name: &str,
    limit: usize,
) -> Result<Vec<u8>, ReadError>
    requires { limit < 2 ^ 32 }
    ensures bytes { IfOk result (λ bytes. IfSome (S.holds shelf.old name.now) (λ held. bytes.items ≡ held)) }
    ensures within { IfOk result (λ bytes. length bytes.items ≤ limit) }
    ensures too_long { IsErrOf result ReadError.TooLong → IfSome (S.holds shelf.old name.now) (λ held. limit < length held) }
    ensures fault { IsErrOf result ReadError.Fault → Rises (S.faults shelf.old name.now) (S.faults shelf.new name.now) }
    ensures never_falls { (other : List ℕ) → S.faults shelf.old other ≤ S.faults shelf.new other }
    ensures unchanged { (other : List ℕ) → S.holds shelf.new other ≡ S.holds shelf.old other }
{
    let mut buffer = zeros(alloc, PIECE)?;
    let mut bytes = Vec::new(alloc);
    while bytes.len() <= limit {
        let wanted = PIECE.min(limit + 1 - bytes.len());
        if read_piece(shelf, name, &mut buffer[..wanted], &mut bytes)? == 0 {
            return Ok(bytes);
        }
    }
    Err(ReadError::TooLong)
}

/// Reads the bytes after those that were read so far into the buffer, and appends them.
fn read_piece<S: Shelf>(
    shelf: &mut S,
    name: &str,
    buffer: &mut [u8],
    bytes: &mut Vec<u8>,
) -> Result<usize, ReadError>
    ensures within { IfOk result (λ count. count ≤ length buffer.old) }
    ensures longer { IfOk result (λ count. vec_len bytes.new ≡ vec_len bytes.old + count) }
    ensures front { OnOk result (IfSome (S.holds shelf.old name.now) (IsFront bytes.old.items) → IfSome (S.holds shelf.old name.now) (IsFront bytes.new.items)) }
    ensures whole { IfOk result (λ count. count ≡ 0 → 0 < length buffer.old → IfSome (S.holds shelf.old name.now) (λ held. length held ≤ vec_len bytes.new)) }
    ensures not_too_long { IsErrOf result ReadError.TooLong → ⊥ }
    ensures fault { IsErrOf result ReadError.Fault → Rises (S.faults shelf.old name.now) (S.faults shelf.new name.now) }
    ensures never_falls { (other : List ℕ) → S.faults shelf.old other ≤ S.faults shelf.new other }
    ensures unchanged { (other : List ℕ) → S.holds shelf.new other ≡ S.holds shelf.old other }
{
    let Ok(count) = shelf.read_at(name, bytes.len() as u64, buffer) else {
        return Err(ReadError::Fault);
    };
    bytes.extend_from_slice(&buffer[..count])?;
    Ok(count)
}

fn zeros(alloc: Global, count: usize) -> Result<Vec<u8>, AllocError>
    ensures { IfOk result (λ bytes. vec_len bytes ≡ count) }
{
    vec![in alloc; 0u8; count]
}

/// Offers the bytes whole, and what is left of them again until all are taken. An error tells how
/// many were taken.
pub fn write_whole<K: Sink>(sink: &mut K, bytes: &[u8]) -> Result<(), usize>
    ensures taken { OnOk result (K.written sink.new ≡ appended (K.written sink.old) bytes.now) }
    ensures broken { IfErr result (λ count. K.written sink.new ≡ appended (K.written sink.old) (take count bytes.now)) }
    ensures short { IfErr result (λ count. count < length bytes.now) }
    ensures fault { IfErr result (λ _. Rises (K.faults sink.old) (K.faults sink.new)) }
    ensures never_falls { K.faults sink.old ≤ K.faults sink.new }
{
    let mut taken = 0;
    while taken < bytes.len() {
        match sink.write(&bytes[taken..]) {
            Ok(count) if count > 0 => taken += count,
            _ => return Err(taken),
        }
    }
    Ok(())
}
