//! Deep runs and long ones.
use crate::ending::{ending, number, pointer};
use rh_il_step::{MOST_STEPS, RunEnd};

/// The sum of the numbers up to the argument: five steps a number, and four.
const SUM: &[u8] = b"f(n) var m { if n goto 1 else 4; m := n - 1; m := f(m); m := m + n; return m; }
main(a) var z { z := f(a); return z; }";

const CALLS_ITSELF: &[u8] = b"main(a) { a := main(a); return a; }";

const NEW_CELLS: &[u8] = b"main(a) var x { x := new; goto 0; }";

/// As many new cells as the argument says: three steps a cell, and the return.
const CELLS: &[u8] = b"main(a) var x { x := new; a := a - 1; if a goto 0 else 3; return x; }";

#[test]
fn deep_and_long_runs(rt: HostRuntime) {
    let cases = [
        (SUM, 1_000, MOST_STEPS, number(500_500, 5_004)),
        (SUM, 1_000, 5_004, number(500_500, 5_004)),
        (SUM, 1_000, 5_003, RunEnd::Running),
        (CALLS_ITSELF, 0, MOST_STEPS, RunEnd::Running),
        (NEW_CELLS, 0, MOST_STEPS, RunEnd::Running),
        // cells 0 and 1 are those of `a` and `x`
        (CELLS, 333_333, MOST_STEPS, pointer(333_334, 1_000_000)),
        (CELLS, 333_333, 999_999, RunEnd::Running),
    ];
    for (text, arg, most, want) in cases {
        let found = ending(rt.alloc(), text, arg, most);
        assert_eq!(rt; found, Some(want), "at {text:?}");
    }
}
