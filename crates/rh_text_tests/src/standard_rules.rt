//! The standard rules, read and printed.
use rh_rule_print::print_rules;
use rh_rule_text::read_rules;
use rh_text::TEXT_LIMIT;
use std::alloc::Global;
use std::process::Abort;
use std::test::Fail;

/// The standard rules in their canonical text: six facts and 41 rules, with every form of statement.
const STANDARD: &[u8] = b"rhodium 1;
fact con(var X, const C) means X == C;
fact cpy(var X, var Y) means X == Y;
fact pts(var P, var X) means P == &X;
fact npt(var P, var X) means P != &X;
fact una(var X) means unaliased(X);
fact sum(var X, var A, var B) means X == (A + B);
rule con_entry(var A, var X) { entry(A) when A != X => con(X, 0) @ out }
rule una_entry(var A, var X) { entry(A) => una(X) @ out }
rule npt_entry(var A, var P, var X) { entry(A) => npt(P, X) @ out }
rule con_gen(var X, const C) { X := C => con(X, C) @ out }
rule con_skip(var X, const C) { skip when con(X, C) @ in => con(X, C) @ out }
rule con_goto(var X, const C) { goto when con(X, C) @ in => con(X, C) @ out }
rule con_then(var X, const C) { if _ when con(X, C) @ in => con(X, C) @ then }
rule con_else(var X, const C) { if _ when con(X, C) @ in => con(X, C) @ else }
rule con_zero(var X) { if X => con(X, 0) @ else }
rule con_any(var X, const C, var Y) { Y := _ when con(X, C) @ in, X != Y => con(X, C) @ out }
rule con_write(var X, const C, var P) { *P := _ when con(X, C) @ in, una(X) @ in => con(X, C) @ out }
rule con_npt(var X, const C, var P) { *P := _ when con(X, C) @ in, npt(P, X) @ in => con(X, C) @ out }
rule con_call(var X, const C, var Z) { Z := call(_) when con(X, C) @ in, una(X) @ in, X != Z => con(X, C) @ out }
rule con_copy(var X, var Y, const C) { X := Y when con(Y, C) @ in => con(X, C) @ out }
rule con_add(var X, var A, var B, const C, const D, const E) { X := A + B when con(A, C) @ in, con(B, D) @ in, E == (C + D) => con(X, E) @ out }
rule una_then(var X) { if _ when una(X) @ in => una(X) @ then }
rule una_else(var X) { if _ when una(X) @ in => una(X) @ else }
rule una_num(var X, var Y, const C) { Y := C when una(X) @ in => una(X) @ out }
rule una_copy(var X, var Y, var A) { Y := A when una(X) @ in => una(X) @ out }
rule una_add(var X, var Y, var A, var B) { Y := A + B when una(X) @ in => una(X) @ out }
rule una_less(var X, var Y, var A, var B) { Y := A < B when una(X) @ in => una(X) @ out }
rule una_addr(var X, var Y, var Z) { Y := &Z when una(X) @ in, X != Z => una(X) @ out }
rule una_load(var X, var Y, var Z) { Y := *Z when una(X) @ in => una(X) @ out }
rule una_write(var X, var P, var A) { *P := A when una(X) @ in => una(X) @ out }
rule una_new(var X, var Y) { Y := new when una(X) @ in => una(X) @ out }
rule una_call(var X, var Z) { Z := call(_) when una(X) @ in => una(X) @ out }
rule npt_any(var P, var X, var Y) { Y := _ when npt(P, X) @ in, P != Y => npt(P, X) @ out }
rule cpy_gen(var X, var Y) { X := Y => cpy(X, Y) @ out }
rule cpy_any(var X, var Y, var Z) { Z := _ when cpy(X, Y) @ in, X != Z, Y != Z => cpy(X, Y) @ out }
rule pts_gen(var P, var X) { P := &X => pts(P, X) @ out }
rule pts_any(var P, var X, var Z) { Z := _ when pts(P, X) @ in, P != Z => pts(P, X) @ out }
rule sum_gen(var X, var A, var B) { X := A + B when X != A, X != B => sum(X, A, B) @ out }
rule sum_any(var X, var A, var B, var Z) { Z := _ when sum(X, A, B) @ in, X != Z, A != Z, B != Z => sum(X, A, B) @ out }
rule add_zero(var X, var A) { X := A + 0 => transform X := A }
rule use_con(var X, var A, const C) { X := A when con(A, C) @ in => transform X := C }
rule use_cpy(var Z, var X, var Y) { Z := X when cpy(X, Y) @ in => transform Z := Y }
rule use_load(var X, var P, var Y) { X := *P when pts(P, Y) @ in => transform X := Y }
rule use_sum(var X, var A, var B, var Y) { Y := A + B when sum(X, A, B) @ in => transform Y := X }
rule use_if(var X, const C) { if X when con(X, C) @ in => transform if C }
rule use_arg(var X, var A, const C) { X := call(A) when con(A, C) @ in => transform X := call(C) }
rule use_ret(var X, const C) { return X when con(X, C) @ in => transform return C }
";

/// A text without a header, with a rule before the fact that it uses and conditions in any order.
const LOOSE: &[u8] = b"# no header
rule con_swap(var X, var Y, const C)
{ X := Y when (C + 01) != (-0 * C), con(Y, C) @ in, X != Y => con(X, C) @ out }
fact con(var X, const C) means X == C and X != (C+ -1);";

const LOOSE_PRINTED: &[u8] = b"rhodium 1;
fact con(var X, const C) means X == C and X != (C + -1);
rule con_swap(var X, var Y, const C) { X := Y when con(Y, C) @ in, (C + 1) != (0 * C), X != Y => con(X, C) @ out }
";

/// The canonical text of what a text is read as.
fn printed(rt: &(impl Alloc<A = Global> + Abort), text: &[u8]) -> Result<Vec<u8>, Fail> {
    assert!(rt; text.len() <= TEXT_LIMIT);
    let file = read_rules(rt.alloc(), text)?;
    Ok(print_rules(rt.alloc(), &file)?)
}

fn prints_as(rt: &(impl Alloc<A = Global> + Abort), text: &[u8], want: &[u8]) -> Result<(), Fail> {
    let once = printed(rt, text)?;
    assert_eq!(rt; once.as_slice(), want);
    let twice = printed(rt, once.as_slice())?;
    assert_eq!(rt; twice.as_slice(), want);
    Ok(())
}

#[test]
fn canonical_text_stays(rt: HostRuntime) -> Result<(), Fail> {
    prints_as(&rt, STANDARD, STANDARD)
}

#[test]
fn loose_text_becomes_canonical(rt: HostRuntime) -> Result<(), Fail> {
    prints_as(&rt, LOOSE, LOOSE_PRINTED)
}
