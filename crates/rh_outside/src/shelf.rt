//! Shelves: named files that are read in pieces.
ghost use Rattle.std.specs.Prelude.{ℕ, ◌≡◌, ◌≤◌, List, Option, length, IfOk, IfSome, OnErr};
ghost use Rattle.rh_outside.specs.Faults.{Rises};
ghost use Rattle.rh_outside.specs.Reading.{ReadsAt};

/// A read or a write failed.
#[derive(Clone, Copy, Debug, PartialEq, Eq)]
pub struct Failed;

/// Files by their names.
pub trait Shelf {
    /// The bytes of the file of a name, where the shelf tells them.
    ghost holds: { Self → List ℕ → Option (List ℕ) };

    /// How many faults have come at the file of a name. One count may serve for all names.
    ghost faults: { Self → List ℕ → ℕ };

    /// Reads from a place of a file into the buffer, and answers how many bytes it read. An answer
    /// of 0 into a buffer that has room is the end of the file.
    fn read_at(&mut self, name: &str, at: u64, buf: &mut [u8]) -> Result<usize, Failed>
        ensures failed { OnErr result (Rises (faults self.old name.now) (faults self.new name.now)) }
        ensures never_falls { (other : List ℕ) → faults self.old other ≤ faults self.new other }
        ensures unchanged { (other : List ℕ) → holds self.new other ≡ holds self.old other }
        ensures within { IfOk result (λ count. count ≤ length buf.new) }
        ensures bytes { IfOk result (λ count. IfSome (holds self.old name.now) (λ bytes. ReadsAt bytes at count buf.new)) };
}
