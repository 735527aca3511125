//! Runs by hints: between two turns a worker looks again only at the nodes that are marked.
ghost use Rattle.std.specs.Prelude.{◌≡◌, ◌+◌, ◌<◌, ◌≤◌, length};
ghost use Rattle.std.specs.Bool.{OnTrue};
ghost use Rattle.rh_system.specs.Bits.{bit_count};
ghost use Rattle.rh_system.specs.Rows.{IsGreatest};
ghost use Rattle.rh_edge_words.specs.Seated.{dirty_words};
ghost use Rattle.rh_engine.specs.Turns.{Descends, LoadsAtLeast};

use crate::marks::clear_range;
use crate::shares::turn_by_shares;
use crate::sweep::load_range;
use rh_edge_words::{EdgeWords, SystemName, WordSeat};
use rh_outside::{Gate, OpenGate};
use rh_system::{Hints, System, next_set};

/// How long a run was.
#[derive(Clone, Copy)]
pub(crate) struct HintedRun {
    pub(crate) turns: u64,
    pub(crate) hints: u64,
}

/// Loads the words on which the bits of a node may rest.
fn load_entering<S: Hints, N: SystemName>(
    words: &EdgeWords<S, N>,
    seat: &mut WordSeat<N>,
    node: u32,
)
    requires table { seat.old.0 ≡ words.now.0 }
    requires in_range { node < S.node_count words.now.1 }
    ensures table { seat.new.0 ≡ seat.old.0 }
    ensures descends { Descends seat.old.1 seat.new.1 }
{
    words.is_named();
    for word in words.system().entering(node) {
        seat.is_seated();
        words.load(seat, *word);
    }
}

/// Loads the words around a node, and clears what they do not support of the node's bits. Says
/// whether there was anything. It asks no gate.
fn visit<S: Hints, N: SystemName>(
    words: &EdgeWords<S, N>,
    seat: &mut WordSeat<N>,
    node: u32,
) -> bool
    requires table { seat.old.0 ≡ words.now.0 }
    requires dirty { words.now.0.words ≡ length N.meaning.full + dirty_words (S.node_count words.now.1) }
    requires in_range { node < S.node_count words.now.1 }
    ensures table { seat.new.0 ≡ seat.old.0 }
    ensures descends { Descends seat.old.1 seat.new.1 }
    ensures cleared { OnTrue result (bit_count seat.new.1.seen < bit_count seat.old.1.seen) }
{
    words.is_named();
    load_entering(words, seat, node);
    let (from, to) = words.system().leaving(node);
    seat.is_seated();
    load_range(words, seat, from, to);
    clear_range(words, seat, from, to, 0, &OpenGate)
}

/// Takes a dirty word and visits the nodes that are marked in it. Says whether there was anything
/// to clear.
fn visit_marked<S: Hints, N: SystemName>(
    words: &EdgeWords<S, N>,
    seat: &mut WordSeat<N>,
    dirty: u32,
) -> bool
    requires table { seat.old.0 ≡ words.now.0 }
    requires dirty { words.now.0.words ≡ length N.meaning.full + dirty_words (S.node_count words.now.1) }
    requires in_range { length N.meaning.full + dirty < words.now.0.words }
    ensures table { seat.new.0 ≡ seat.old.0 }
    ensures descends { Descends seat.old.1 seat.new.1 }
    ensures cleared { OnTrue result (bit_count seat.new.1.seen < bit_count seat.old.1.seen) }
{
    let nodes = words.system().nodes();
    let marked = words.take(seat, dirty);
    let mut cleared = false;
    let mut from = 0;
    while let Some(place) = next_set(marked, from) {
        let node = u64::from(dirty) * 64 + u64::from(place);
        if node < u64::from(nodes) && visit(words, seat, node as u32) {
            cleared = true;
        }
        from = place + 1;
    }
    cleared
}

/// Visits the nodes that are marked in a dirty word, again and again until there is nothing to
/// clear at them: a clear at one may mark another. Says whether there was anything.
fn visit_again<S: Hints, N: SystemName>(
    words: &EdgeWords<S, N>,
    seat: &mut WordSeat<N>,
    dirty: u32,
) -> bool
    requires table { seat.old.0 ≡ words.now.0 }
    requires dirty { words.now.0.words ≡ length N.meaning.full + dirty_words (S.node_count words.now.1) }
    requires in_range { length N.meaning.full + dirty < words.now.0.words }
    ensures table { seat.new.0 ≡ seat.old.0 }
    ensures descends { Descends seat.old.1 seat.new.1 }
    ensures cleared { OnTrue result (bit_count seat.new.1.seen < bit_count seat.old.1.seen) }
{
    let mut cleared = false;
    while visit_marked(words, seat, dirty) {
        cleared = true;
    }
    cleared
}

/// One hint round: it goes over the dirty words, and says whether there was anything to clear.
fn hint_round<S: Hints, N: SystemName>(words: &EdgeWords<S, N>, seat: &mut WordSeat<N>) -> bool
    requires table { seat.old.0 ≡ words.now.0 }
    requires dirty { words.now.0.words ≡ length N.meaning.full + dirty_words (S.node_count words.now.1) }
    ensures table { seat.new.0 ≡ seat.old.0 }
    ensures descends { Descends seat.old.1 seat.new.1 }
    ensures cleared { OnTrue result (bit_count seat.new.1.seen < bit_count seat.old.1.seen) }
{
    let mut cleared = false;
    for dirty in 0..words.dirty() {
        if visit_again(words, seat, dirty) {
            cleared = true;
        }
    }
    cleared
}

/// Goes through hint rounds until one clears nothing, and counts them.
fn hint_rounds<S: Hints, N: SystemName>(words: &EdgeWords<S, N>, seat: &mut WordSeat<N>) -> u64
    requires table { seat.old.0 ≡ words.now.0 }
    requires dirty { words.now.0.words ≡ length N.meaning.full + dirty_words (S.node_count words.now.1) }
    ensures table { seat.new.0 ≡ seat.old.0 }
    ensures descends { Descends seat.old.1 seat.new.1 }
    ensures few { result + bit_count seat.new.1.seen ≤ bit_count seat.old.1.seen + 1 }
{
    words.is_named();
    seat.is_seated();
    let mut rounds = 1;
    while hint_round(words, seat) {
        rounds += 1;
    }
    rounds
}

/// Takes turns, each but the last with its hint rounds, until one clears nothing, and counts them.
pub(crate) fn take_hinted<S: Hints, N: SystemName, G: Gate>(
    words: &EdgeWords<S, N>,
    seat: &mut WordSeat<N>,
    id: u32,
    workers: u32,
    gate: &G,
) -> HintedRun
    requires table { seat.old.0 ≡ words.now.0 }
    requires dirty { words.now.0.words ≡ length N.meaning.full + dirty_words (S.node_count words.now.1) }
    requires id { id < workers }
    requires workers { workers ≤ 16 }
    ensures table { seat.new.0 ≡ seat.old.0 }
    ensures stake { seat.new.1.stake ≡ seat.old.1.stake }
    ensures greatest { IsGreatest N.meaning.rows seat.new.1.seen }
    ensures loads { LoadsAtLeast result.turns seat.old.1.loads seat.new.1.loads }
    ensures some { 0 < result.turns }
    ensures few { result.turns ≤ bit_count N.meaning.full + 1 }
    ensures hints { result.hints ≤ bit_count N.meaning.full }
{
    words.is_named();
    seat.is_seated();
    let mut turns = 1;
    let mut hints = 0;
    while turn_by_shares(words, seat, id, workers, gate) {
        hints += hint_rounds(words, seat);
        turns += 1;
    }
    seat.is_seated();
    HintedRun { turns, hints }
}
