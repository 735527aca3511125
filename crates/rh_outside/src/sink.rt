//! Sinks: where output goes.
ghost use Rattle.std.specs.Prelude.{ℕ, ◌≡◌, ◌<◌, ◌≤◌, List, Option, length, take, IfOk, OnErr};
ghost use Rattle.rh_outside.specs.Faults.{Rises};
ghost use Rattle.rh_outside.specs.Writing.{appended};

use crate::shelf::Failed;

/// What takes output.
pub trait Sink {
    /// What was written so far, where the sink tells it.
    ghost written: { Self → Option (List ℕ) };

    /// How many faults have come.
    ghost faults: { Self → ℕ };

    /// Takes bytes from the front of the piece, and answers how many it took. To take none of a
    /// piece that is not empty is a fault.
    fn write(&mut self, piece: &[u8]) -> Result<usize, Failed>
        ensures failed { OnErr result (Rises (faults self.old) (faults self.new)) }
        ensures failed_unchanged { OnErr result (written self.new ≡ written self.old) }
        ensures never_falls { faults self.old ≤ faults self.new }
        ensures within { IfOk result (λ count. count ≤ length piece.now) }
        ensures appends { IfOk result (λ count. written self.new ≡ appended (written self.old) (take count piece.now)) }
        ensures took_none { IfOk result (λ count. count ≡ 0 → 0 < length piece.now → Rises (faults self.old) (faults self.new)) };
}
