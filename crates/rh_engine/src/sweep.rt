//! One turn of a worker: it loads every word, and then clears what its words do not support. Turns
//! by shares and hint rounds use the parts.
ghost use Rattle.std.specs.Prelude.{◌≡◌, ◌+◌, ◌<◌, ◌≤◌, length};
ghost use Rattle.std.specs.Bool.{OnTrue, OnFalse};
ghost use Rattle.rh_system.specs.Bits.{bits_in, bit_count};
ghost use Rattle.rh_system.specs.Rows.{IsSupported};
ghost use Rattle.rh_engine.specs.Turns.{more_loads, round_end, LoadsRange, KeepsLoads, AreWithin, IsWordSupported, IsSwept, AreSwept};

use rh_edge_words::{EdgeWords, SystemName, WordSeat};
use rh_outside::Gate;
use rh_system::{System, supported_part};

/// How often a worker asks the gate in a turn before it goes on in any case.
const MOST_ASKED: u64 = 1_000_000;

/// Asks the gate until it answers true, at most 1,000,000 times.
fn pass<G: Gate>(gate: &G, id: u32) {
    for asked in 0..MOST_ASKED {
        if gate.ready(id, asked) {
            return;
        }
    }
}

/// Loads the words from `from` up to `to`.
pub(crate) fn load_range<S: System, N: SystemName>(
    words: &EdgeWords<S, N>,
    seat: &mut WordSeat<N>,
    from: u32,
    to: u32,
)
    requires table { seat.old.0 ≡ words.now.0 }
    requires in_range { to ≤ length N.meaning.full }
    requires rising { from ≤ to }
    ensures table { seat.new.0 ≡ seat.old.0 }
    ensures loaded { LoadsRange seat.old.1 seat.new.1 from to }
{
    seat.is_seated();
    for word in from..to {
        words.load(seat, word);
    }
}

/// Loads every word once, from the beginning of the worker's share of the words on and round.
pub(crate) fn load_all<S: System, N: SystemName>(
    words: &EdgeWords<S, N>,
    seat: &mut WordSeat<N>,
    id: u32,
)
    requires table { seat.old.0 ≡ words.now.0 }
    requires id { id < 16 }
    ensures table { seat.new.0 ≡ seat.old.0 }
    ensures stake { seat.new.1.stake ≡ seat.old.1.stake }
    ensures loads { seat.new.1.loads ≡ more_loads 1 seat.old.1.loads }
    ensures last { seat.new.1.last ≡ round_end id (length N.meaning.full) }
    ensures within { AreWithin seat.new.1.seen seat.old.1.seen }
    ensures fewer { bit_count seat.new.1.seen ≤ bit_count seat.old.1.seen }
{
    words.is_named();
    let count = words.count();
    let first = (u64::from(id) * u64::from(count) / 16) as u32;
    seat.is_seated();
    load_range(words, seat, first, count);
    load_range(words, seat, 0, first);
}

/// Clears the bits of a word that the seen words do not support, and says whether there were any.
/// The first clear of a turn waits at the gate.
pub(crate) fn clear_word<S: System, N: SystemName, G: Gate>(
    words: &EdgeWords<S, N>,
    seat: &mut WordSeat<N>,
    word: u32,
    id: u32,
    gate: &G,
    first: bool,
) -> bool
    requires table { seat.old.0 ≡ words.now.0 }
    requires in_range { word < length N.meaning.full }
    ensures table { seat.new.0 ≡ seat.old.0 }
    ensures loads { KeepsLoads seat.old.1 seat.new.1 }
    ensures within { AreWithin seat.new.1.seen seat.old.1.seen }
    ensures swept { IsSwept N.meaning.rows seat.old.1.seen seat.new.1.seen word }
    ensures cleared { OnTrue result (bit_count seat.new.1.seen < bit_count seat.old.1.seen) }
    ensures kept { OnFalse result ((seat.new.1 ≡ seat.old.1) × IsWordSupported N.meaning.rows seat.old.1.seen word) }
{
    words.is_named();
    let seen = seat.seen()[word as usize];
    let part = supported_part(words.system(), seat.seen(), word);
    if part == seen {
        return false;
    }
    if first {
        pass(gate, id);
    }
    words.clear(seat, word, part);
    true
}

/// Clears in each word, in one step, what the seen words do not support, and says whether there
/// was anything.
fn clear_all<S: System, N: SystemName, G: Gate>(
    words: &EdgeWords<S, N>,
    seat: &mut WordSeat<N>,
    id: u32,
    gate: &G,
) -> bool
    requires table { seat.old.0 ≡ words.now.0 }
    ensures table { seat.new.0 ≡ seat.old.0 }
    ensures loads { KeepsLoads seat.old.1 seat.new.1 }
    ensures swept { AreSwept N.meaning.rows seat.old.1.seen seat.new.1.seen }
    ensures cleared { OnTrue result (bit_count seat.new.1.seen < bit_count seat.old.1.seen) }
    ensures closed { OnFalse result (IsSupported N.meaning.rows (bits_in seat.new.1.seen)) }
{
    let mut cleared = false;
    for word in 0..words.count() {
        if clear_word(words, seat, word, id, gate, !cleared) {
            cleared = true;
        }
    }
    seat.is_seated();
    cleared
}

/// One turn. It says whether it cleared anything.
pub(crate) fn turn<S: System, N: SystemName, G: Gate>(
    words: &EdgeWords<S, N>,
    seat: &mut WordSeat<N>,
    id: u32,
    gate: &G,
) -> bool
    requires table { seat.old.0 ≡ words.now.0 }
    requires id { id < 16 }
    ensures table { seat.new.0 ≡ seat.old.0 }
    ensures stake { seat.new.1.stake ≡ seat.old.1.stake }
    ensures loads { seat.new.1.loads ≡ more_loads 1 seat.old.1.loads }
    ensures last { seat.new.1.last ≡ round_end id (length N.meaning.full) }
    ensures swept { AreSwept N.meaning.rows seat.old.1.seen seat.new.1.seen }
    ensures cleared { OnTrue result (bit_count seat.new.1.seen < bit_count seat.old.1.seen) }
    ensures closed { OnFalse result (IsSupported N.meaning.rows (bits_in seat.new.1.seen)) }
{
    load_all(words, seat, id);
    clear_all(words, seat, id, gate)
}
