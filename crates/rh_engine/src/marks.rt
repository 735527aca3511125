//! Clears that leave a mark at the nodes that may lose support by them.
ghost use Rattle.std.specs.Prelude.{◌≡◌, ◌+◌, ◌<◌, ◌≤◌, length};
ghost use Rattle.std.specs.Bool.{OnTrue, OnFalse};
ghost use Rattle.rh_system.specs.Bits.{bit_count};
ghost use Rattle.rh_edge_words.specs.Seated.{dirty_words};
ghost use Rattle.rh_engine.specs.Turns.{KeepsLoads, AreWordsSupported, IsWordSupported};

use crate::sweep::clear_word;
use rh_edge_words::{EdgeWords, SystemName, WordSeat};
use rh_outside::Gate;
use rh_system::{Hints, System, with_bit};

/// Sets bits of a dirty word, if any.
fn mark_some<S: System, N: SystemName>(
    words: &EdgeWords<S, N>,
    seat: &mut WordSeat<N>,
    dirty: u32,
    mask: u64,
)
    requires table { seat.old.0 ≡ words.now.0 }
    requires in_range { 0 < mask → length N.meaning.full + dirty < words.now.0.words }
    ensures { seat.new ≡ seat.old }
{
    if mask != 0 {
        words.mark(seat, dirty, mask);
    }
}

/// Marks the nodes that read a word. The marks of neighbours in one dirty word are made in one
/// step.
fn mark_readers<S: Hints, N: SystemName>(words: &EdgeWords<S, N>, seat: &mut WordSeat<N>, word: u32)
    requires table { seat.old.0 ≡ words.now.0 }
    requires dirty { words.now.0.words ≡ length N.meaning.full + dirty_words (S.node_count words.now.1) }
    requires in_range { word < length N.meaning.full }
    ensures { seat.new ≡ seat.old }
{
    words.is_named();
    let mut dirty = 0;
    let mut mask = 0;
    for node in words.system().readers(word) {
        if node / 64 != dirty {
            mark_some(words, seat, dirty, mask);
            dirty = node / 64;
            mask = 0;
        }
        mask = with_bit(mask, node % 64);
    }
    mark_some(words, seat, dirty, mask);
}

/// Clears the bits of a word that the seen words do not support, and then marks the nodes that read
/// the word. Says whether there were any such bits.
fn clear_marked<S: Hints, N: SystemName, G: Gate>(
    words: &EdgeWords<S, N>,
    seat: &mut WordSeat<N>,
    word: u32,
    id: u32,
    gate: &G,
    first: bool,
) -> bool
    requires table { seat.old.0 ≡ words.now.0 }
    requires dirty { words.now.0.words ≡ length N.meaning.full + dirty_words (S.node_count words.now.1) }
    requires in_range { word < length N.meaning.full }
    ensures table { seat.new.0 ≡ seat.old.0 }
    ensures loads { KeepsLoads seat.old.1 seat.new.1 }
    ensures cleared { OnTrue result (bit_count seat.new.1.seen < bit_count seat.old.1.seen) }
    ensures kept { OnFalse result ((seat.new.1 ≡ seat.old.1) × IsWordSupported N.meaning.rows seat.old.1.seen word) }
{
    let cleared = clear_word(words, seat, word, id, gate, first);
    if cleared {
        mark_readers(words, seat, word);
    }
    cleared
}

/// Clears in each word from `from` up to `to`, in one step, what the seen words do not support, and
/// marks the nodes that read it. Says whether there was anything. The first clear waits at the
/// gate.
pub(crate) fn clear_range<S: Hints, N: SystemName, G: Gate>(
    words: &EdgeWords<S, N>,
    seat: &mut WordSeat<N>,
    from: u32,
    to: u32,
    id: u32,
    gate: &G,
) -> bool
    requires table { seat.old.0 ≡ words.now.0 }
    requires dirty { words.now.0.words ≡ length N.meaning.full + dirty_words (S.node_count words.now.1) }
    requires in_range { to ≤ length N.meaning.full }
    ensures table { seat.new.0 ≡ seat.old.0 }
    ensures loads { KeepsLoads seat.old.1 seat.new.1 }
    ensures cleared { OnTrue result (bit_count seat.new.1.seen < bit_count seat.old.1.seen) }
    ensures kept { OnFalse result ((seat.new.1 ≡ seat.old.1) × AreWordsSupported N.meaning.rows seat.old.1.seen from to) }
{
    let mut cleared = false;
    for word in from..to {
        if clear_marked(words, seat, word, id, gate, !cleared) {
            cleared = true;
        }
    }
    cleared
}
