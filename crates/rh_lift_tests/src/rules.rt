//! Rules on pointers and calls, and the facts of programs by their bits.
use rh_il::Program;
use rh_rows::Ground;
use rh_rule::{RuleFile, Ruling};
use rh_rule_text::read_rules;
use std::alloc::Global;
use std::process::Abort;
use std::test::Fail;

/// Standard rules on pointers and calls, and what comes before them.
const RULES: &[u8] = b"fact con(var X, const C) means X == C;
fact pts(var P, var X) means P == &X;
fact npt(var P, var X) means P != &X;
fact una(var X) means unaliased(X);
rule con_entry(var A, var X) { entry(A) when A != X => con(X, 0) @ out }
rule una_entry(var A, var X) { entry(A) => una(X) @ out }
rule npt_entry(var A, var P, var X) { entry(A) => npt(P, X) @ out }
rule con_gen(var X, const C) { X := C => con(X, C) @ out }
rule con_any(var X, const C, var Y) { Y := _ when con(X, C) @ in, X != Y => con(X, C) @ out }
rule con_write(var X, const C, var P) { *P := _ when con(X, C) @ in, una(X) @ in => con(X, C) @ out }
rule con_npt(var X, const C, var P) { *P := _ when con(X, C) @ in, npt(P, X) @ in => con(X, C) @ out }
rule con_call(var X, const C, var Z) { Z := call(_) when con(X, C) @ in, una(X) @ in, X != Z => con(X, C) @ out }
rule una_num(var X, var Y, const C) { Y := C when una(X) @ in => una(X) @ out }
rule una_copy(var X, var Y, var A) { Y := A when una(X) @ in => una(X) @ out }
rule una_addr(var X, var Y, var Z) { Y := &Z when una(X) @ in, X != Z => una(X) @ out }
rule una_load(var X, var Y, var Z) { Y := *Z when una(X) @ in => una(X) @ out }
rule una_write(var X, var P, var A) { *P := A when una(X) @ in => una(X) @ out }
rule una_new(var X, var Y) { Y := new when una(X) @ in => una(X) @ out }
rule una_call(var X, var Z) { Z := call(_) when una(X) @ in => una(X) @ out }
rule npt_any(var P, var X, var Y) { Y := _ when npt(P, X) @ in, P != Y => npt(P, X) @ out }
rule pts_gen(var P, var X) { P := &X => pts(P, X) @ out }
rule pts_any(var P, var X, var Z) { Z := _ when pts(P, X) @ in, P != Z => pts(P, X) @ out }
";

/// The rule file.
pub fn rule_file(alloc: Global) -> Result<RuleFile, Fail> {
    Ok(read_rules(alloc, RULES).ok().ok_or("no rule file")?)
}

/// The facts of a program, by their bits.
pub fn grounded(
    rt: &(impl Alloc<A = Global> + Abort),
    file: &RuleFile,
    rulings: &[Ruling],
    program: &Program,
) -> Result<Ground, Fail> {
    assert!(rt; file.rules().len() == rulings.len());
    let ground = Ground::new(rt.alloc(), file, rulings, program);
    Ok(ground.ok().ok_or("too many facts")?)
}
