//! Whether the fact of a bit is known on the edges that enter the node that its edge leaves. No fact is taken apart: on
//! each edge of a procedure a fact has the same number.
ghost use Rattle.std.specs.Prelude.{◌≡◌, ◌/◌, ◌<◌, ◌≤◌};
ghost use Rattle.rh_carry.specs.Carry.{IsBefore};
ghost use Rattle.rh_carry.specs.Known.{IsBeforeIn, bit_on, known_on_all};

use rh_layout::LaidProc;
use rh_rows::Ground;
use rh_system::BitTest;

/// The bit of the fact with a number on the edge with a number. An edge has at most 1,024 words.
fn bit_on(laid: &LaidProc, number: u64, edge: u32) -> u64
    requires narrow { laid.now.width ≤ 1024 }
    requires few { number < 65536 }
    ensures { result ≡ bit_on laid.now number edge }
{
    let word = u64::from(laid.first_word) + u64::from(edge) * u64::from(laid.width);
    64 * word + number
}

/// Whether the fact with a number is known on each of the edges.
fn known_on_all<T: BitTest>(laid: &LaidProc, known: &T, number: u64, edges: &[u32]) -> bool
    requires narrow { laid.now.width ≤ 1024 }
    requires few { number < 65536 }
    ensures { result ≡ known_on_all laid.now (T.holds known.now) number edges.now }
{
    edges
        .iter()
        .all(|edge| known.has(bit_on(laid, number, *edge)))
}

/// The same of the fact of one of the procedure's bits, on the edges that enter the node that the bit's edge leaves.
fn is_known_in<T: BitTest>(laid: &LaidProc, known: &T, bit: u64) -> bool
    requires some { 0 < laid.now.width }
    requires narrow { laid.now.width ≤ 1024 }
    requires from { laid.now.first_word ≤ bit / 64 }
    ensures { IsBeforeIn laid.now (T.holds known.now) bit result }
{
    let word = bit / 64 - u64::from(laid.first_word);
    let width = u64::from(laid.width);
    let number = 64 * (word % width) + bit % 64;
    let Some(edge) = laid.edges.as_slice().get((word / width) as usize) else {
        return false;
    };
    match laid.entering_at(edge.node) {
        Some(entering) => known_on_all(laid, known, number, entering),
        None => false,
    }
}

/// Whether the fact of a bit is known on every edge that enters the node that the bit's edge leaves. Of a bit that
/// stands for no fact nothing is told.
pub fn is_known_before<T: BitTest>(ground: &Ground, known: &T, bit: u64) -> bool
    ensures { IsBefore ground.now.file.schemas ground.now.program (T.holds known.now) bit result }
{
    let layout = ground.layout();
    match layout.place_of(bit / 64) {
        Some(place) => is_known_in(&layout.procs.as_slice()[place], known, bit),
        None => false,
    }
}
