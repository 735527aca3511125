//! Turns of workers that share the clears out.
ghost use Rattle.std.specs.Prelude.{◌≡◌, ◌+◌, ◌<◌, ◌≤◌, length};
ghost use Rattle.std.specs.Bool.{OnTrue, OnFalse};
ghost use Rattle.rh_system.specs.Bits.{bits_in, bit_count};
ghost use Rattle.rh_system.specs.Rows.{IsSupported};
ghost use Rattle.rh_edge_words.specs.Seated.{dirty_words};
ghost use Rattle.rh_engine.specs.Turns.{more_loads, share_start, KeepsLoads, AreWordsSupported};

use crate::marks::clear_range;
use crate::sweep::load_all;
use rh_edge_words::{EdgeWords, SystemName, WordSeat};
use rh_outside::Gate;
use rh_system::Hints;

/// The word at which a worker's share begins. The last share ends with the last word.
fn start_of_share(count: u32, workers: u32, worker: u32) -> u32
    requires some { 0 < workers }
    requires in_range { worker ≤ workers }
    ensures start { result ≡ share_start count workers worker }
    ensures in_range { result ≤ count }
{
    (u64::from(worker) * u64::from(count) / u64::from(workers)) as u32
}

/// Clears share by share, from that of one worker up to that of another, and stops at the end of
/// the first share in which there was something to clear. Says whether there was such a share.
fn clear_shares<S: Hints, N: SystemName, G: Gate>(
    words: &EdgeWords<S, N>,
    seat: &mut WordSeat<N>,
    from: u32,
    to: u32,
    workers: u32,
    id: u32,
    gate: &G,
) -> bool
    requires table { seat.old.0 ≡ words.now.0 }
    requires dirty { words.now.0.words ≡ length N.meaning.full + dirty_words (S.node_count words.now.1) }
    requires some { 0 < workers }
    requires rising { from ≤ to }
    requires in_range { to ≤ workers }
    ensures table { seat.new.0 ≡ seat.old.0 }
    ensures loads { KeepsLoads seat.old.1 seat.new.1 }
    ensures cleared { OnTrue result (bit_count seat.new.1.seen < bit_count seat.old.1.seen) }
    ensures kept { OnFalse result ((seat.new.1 ≡ seat.old.1) × AreWordsSupported N.meaning.rows seat.old.1.seen (share_start (length N.meaning.full) workers from) (share_start (length N.meaning.full) workers to)) }
{
    let count = words.count();
    for worker in from..to {
        let start = start_of_share(count, workers, worker);
        let end = start_of_share(count, workers, worker + 1);
        if clear_range(words, seat, start, end, id, gate) {
            return true;
        }
    }
    false
}

/// One turn by shares: it loads every word, and then clears share by share, the worker's own first
/// and then round, up to the end of the first share in which there is something to clear. It says
/// whether it cleared anything.
pub(crate) fn turn_by_shares<S: Hints, N: SystemName, G: Gate>(
    words: &EdgeWords<S, N>,
    seat: &mut WordSeat<N>,
    id: u32,
    workers: u32,
    gate: &G,
) -> bool
    requires table { seat.old.0 ≡ words.now.0 }
    requires dirty { words.now.0.words ≡ length N.meaning.full + dirty_words (S.node_count words.now.1) }
    requires id { id < workers }
    requires few { workers ≤ 16 }
    ensures table { seat.new.0 ≡ seat.old.0 }
    ensures stake { seat.new.1.stake ≡ seat.old.1.stake }
    ensures loads { seat.new.1.loads ≡ more_loads 1 seat.old.1.loads }
    ensures cleared { OnTrue result (bit_count seat.new.1.seen < bit_count seat.old.1.seen) }
    ensures closed { OnFalse result (IsSupported N.meaning.rows (bits_in seat.new.1.seen)) }
{
    load_all(words, seat, id);
    seat.is_seated();
    if clear_shares(words, seat, id, workers, workers, id, gate) {
        return true;
    }
    clear_shares(words, seat, 0, id, workers, id, gate)
}
