//! Single statements: which can be stuck, and what operators give at the ends of 64 bits.
use crate::ending::{ending, number, pointer, stuck};
use rh_il_step::{MOST_STEPS, RunEnd};
use std::alloc::{AllocError, Global};
use std::test::Fail;

/// A program that assigns to `x` where `p` points to `a`, in cell 0, and `q` to `x`, in cell 1.
fn assigning(alloc: Global, right: &[u8]) -> Result<Vec<u8>, AllocError> {
    let mut text = Vec::from_slice(alloc, b"main(a) var x, p, q { p := &a; q := &x; x := ")?;
    text.extend_from_slice(right)?;
    text.extend_from_slice(b"; return x; }")?;
    Ok(text)
}

#[test]
fn stuck_right_sides(rt: HostRuntime) -> Result<(), Fail> {
    let cases: [&[u8]; 13] = [
        b"*a", b"p + a", b"a + p", b"p + p", b"p - a", b"a - p", b"p - p", b"p * 0", b"0 * p",
        b"p * q", b"p < a", b"a < p", b"p < q",
    ];
    for right in cases {
        let text = assigning(rt.alloc(), right)?;
        let found = ending(rt.alloc(), &text, 5, MOST_STEPS);
        assert_eq!(rt; found, Some(stuck(0, 2, 2)), "at {right:?}");
    }
    Ok(())
}

#[test]
fn right_sides(rt: HostRuntime) -> Result<(), Fail> {
    let cases: [(&[u8], i64, RunEnd); 24] = [
        (b"p == p", 5, number(1, 4)),
        (b"p == q", 5, number(0, 4)),
        (b"p == 0", 5, number(0, 4)),
        (b"1 == q", 5, number(0, 4)),
        (b"a == 5", 5, number(1, 4)),
        (b"*p", 5, number(5, 4)),
        (b"*q", 5, number(0, 4)),
        (b"p", 5, pointer(0, 4)),
        (b"&x", 5, pointer(1, 4)),
        (b"new", 5, pointer(4, 4)),
        // numbers wrap
        (b"a + 1", i64::MAX, number(i64::MIN, 4)),
        (b"a + -1", i64::MIN, number(i64::MAX, 4)),
        (b"a + a", i64::MIN, number(0, 4)),
        (b"a - 1", i64::MIN, number(i64::MAX, 4)),
        (b"0 - a", i64::MIN, number(i64::MIN, 4)),
        (b"-9223372036854775808 - a", i64::MAX, number(1, 4)),
        (b"a * a", i64::MAX, number(1, 4)),
        (b"a * a", i64::MIN, number(0, 4)),
        (b"a * 2", i64::MAX, number(-2, 4)),
        (b"a * -1", i64::MIN, number(i64::MIN, 4)),
        // and are compared as they are
        (b"a < 9223372036854775807", i64::MIN, number(1, 4)),
        (b"a < -9223372036854775808", i64::MAX, number(0, 4)),
        (b"a < -9223372036854775808", i64::MIN, number(0, 4)),
        (b"a == -9223372036854775808", i64::MIN, number(1, 4)),
    ];
    for (right, arg, want) in cases {
        let text = assigning(rt.alloc(), right)?;
        let found = ending(rt.alloc(), &text, arg, MOST_STEPS);
        assert_eq!(rt; found, Some(want), "at {right:?}");
    }
    Ok(())
}

const BRANCH: &[u8] = b"main(a) { if a goto 1 else 2; return 1; return 2; }";

const BRANCH_ON_POINTER: &[u8] = b"main(a) var p { p := &a; if p goto 2 else 2; return a; }";

const STUCK_IN_A_CALL: &[u8] = b"f(p) { p := *p; return p; }
main(a) { skip; a := f(a); return a; }";

#[test]
fn other_statements(rt: HostRuntime) {
    let cases: [(&[u8], i64, RunEnd); 7] = [
        (b"main(a) var x { x := *a; return x; }", 0, stuck(0, 0, 0)),
        (b"main(a) { *a := 1; return a; }", 5, stuck(0, 0, 0)),
        (BRANCH_ON_POINTER, 5, stuck(0, 1, 1)),
        (STUCK_IN_A_CALL, 5, stuck(0, 0, 2)),
        (BRANCH, 0, number(2, 2)),
        (BRANCH, -1, number(1, 2)),
        (BRANCH, i64::MIN, number(1, 2)),
    ];
    for (text, arg, want) in cases {
        let found = ending(rt.alloc(), text, arg, MOST_STEPS);
        assert_eq!(rt; found, Some(want), "at {text:?}");
    }
}
