//! Small programs from start to end: calls and branches, and cells, none of which is freed.
use crate::ending::{ending, number, pointer, stuck};
use rh_il_step::{MOST_STEPS, RunEnd};

const WRITTEN_BY_A_CALL: &[u8] = b"f(p) var r { *p := 9; return r; }
main(a) var y, p, z { y := 3; p := &y; z := f(p); return y; }";

const COUNTS_DOWN: &[u8] = b"f(n) var m { if n goto 1 else 3; m := n - 1; m := f(m); return m; }
main(a) var y, z { y := 3; z := f(a); return y; }";

const REWRITTEN: &[u8] = b"f(n) var m { if n goto 1 else 3; m := n - 1; m := f(m); return m; }
main(a) var y, z { y := 3; z := f(a); return 3; }";

const WRITE_TO_A_NUMBER: &[u8] = b"main(a) var x, p { x := 3; *p := 5; return x; }";

const LOAD_OF_A_LOCAL: &[u8] = b"main(a) var x, p, y { p := &y; x := *p; return x; }";

const POINTS_TO_ITSELF: &[u8] = b"main(a) { a := &a; *a := a; a := *a; return a; }";

const READ_AFTER_RETURN: &[u8] = b"f(p) var r, s { r := 7; s := &r; *p := s; return 0; }
main(a) var q, x { a := &q; x := f(a); x := *q; return x; }";

const WRITTEN_AFTER_RETURN: &[u8] = b"f(p) var r, s { r := 7; s := &r; *p := s; return 0; }
main(a) var q, x { a := &q; x := f(a); *q := 8; x := *q; return x; }";

const PASSED_ON_AFTER_RETURN: &[u8] = b"f(p) var r { r := p; p := &r; return p; }
g(p) { *p := 4; return 0; }
main(a) var q, x { q := f(7); x := g(q); x := *q; return x; }";

const CALLED_TWICE: &[u8] = b"f(p) var r { r := p; p := &r; return p; }
main(a) var q, s, x { q := f(7); s := f(8); *s := 9; x := *q; return x; }";

const SECOND_LOCAL: &[u8] = b"f(p) var r { r := p; p := &r; return p; }
main(a) var q { q := f(7); q := f(8); return q; }";

const LOCAL_AFTER_NEW: &[u8] = b"f(p) var r { p := &r; return p; }
main(a) var x { x := new; x := f(a); return x; }";

const LOCALS_BEGIN_AT_0: &[u8] = b"f(p) var r { r := r + p; return r; }
main(a) var x { x := f(3); x := f(4); return x; }";

const CHAIN: &[u8] = b"f(p) var c { c := new; *c := p; return c; }
main(a) var q, x { q := f(a); a := f(q); a := *a; x := *a; return x; }";

const RESULT_IS_WRITTEN_LAST: &[u8] = b"f(p) { *p := 9; return 5; }
main(a) var x { a := &x; x := f(a); return x; }";

#[test]
fn ends_of_programs(rt: HostRuntime) {
    let cases: [(&[u8], i64, u32, RunEnd); 19] = [
        (b"main(a) { return -0; }", 7, 0, RunEnd::Running),
        (b"main(a) { return -0; }", 7, MOST_STEPS, number(0, 1)),
        (WRITTEN_BY_A_CALL, 0, MOST_STEPS, number(9, 6)),
        (COUNTS_DOWN, 2, MOST_STEPS, number(3, 13)),
        (COUNTS_DOWN, 2, 12, RunEnd::Running),
        (REWRITTEN, 2, MOST_STEPS, number(3, 13)),
        (WRITE_TO_A_NUMBER, 0, MOST_STEPS, stuck(0, 1, 1)),
        (WRITE_TO_A_NUMBER, 0, 1, RunEnd::Running),
        (LOAD_OF_A_LOCAL, 0, MOST_STEPS, number(0, 3)),
        (POINTS_TO_ITSELF, 6, MOST_STEPS, pointer(0, 4)),
        (READ_AFTER_RETURN, 6, MOST_STEPS, number(7, 8)),
        (WRITTEN_AFTER_RETURN, 6, MOST_STEPS, number(8, 9)),
        (PASSED_ON_AFTER_RETURN, 6, MOST_STEPS, number(4, 9)),
        (CALLED_TWICE, 6, MOST_STEPS, number(7, 11)),
        (SECOND_LOCAL, 6, MOST_STEPS, pointer(5, 9)),
        (LOCAL_AFTER_NEW, 6, MOST_STEPS, pointer(4, 5)),
        (LOCALS_BEGIN_AT_0, 6, MOST_STEPS, number(4, 7)),
        (CHAIN, 6, MOST_STEPS, number(6, 11)),
        (RESULT_IS_WRITTEN_LAST, 6, MOST_STEPS, number(5, 5)),
    ];
    for (text, arg, most, want) in cases {
        let found = ending(rt.alloc(), text, arg, most);
        assert_eq!(rt; found, Some(want), "at {text:?}");
    }
}
