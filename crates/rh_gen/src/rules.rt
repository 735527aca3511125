//! The standard rules.
ghost use Rattle.std.specs.Prelude.{◌≡◌};
ghost use Rattle.rh_gen.specs.Standard.{standard_rules};

/// The text of the standard rules.
#[tactic(auto, unfolding(crate::specs::Standard::standard_lines, crate::specs::Standard::standard_rules))]
pub(crate) fn standard_rules() -> &'static [u8]
    ensures { result.now ≡ standard_rules }
{
    b"\
      rhodium 1;\n\
      fact con(var X, const C) means X == C;\n\
      fact cpy(var X, var Y) means X == Y;\n\
      fact pts(var P, var X) means P == &X;\n\
      fact npt(var P, var X) means P != &X;\n\
      fact una(var X) means unaliased(X);\n\
      fact sum(var X, var A, var B) means X == (A + B);\n\
      rule con_entry(var A, var X) { entry(A) when A != X => con(X, 0) @ out }\n\
      rule una_entry(var A, var X) { entry(A) => una(X) @ out }\n\
      rule npt_entry(var A, var P, var X) { entry(A) => npt(P, X) @ out }\n\
      rule con_gen(var X, const C) { X := C => con(X, C) @ out }\n\
      rule con_skip(var X, const C) { skip when con(X, C) @ in => con(X, C) @ out }\n\
      rule con_goto(var X, const C) { goto when con(X, C) @ in => con(X, C) @ out }\n\
      rule con_then(var X, const C) { if _ when con(X, C) @ in => con(X, C) @ then }\n\
      rule con_else(var X, const C) { if _ when con(X, C) @ in => con(X, C) @ else }\n\
      rule con_zero(var X) { if X => con(X, 0) @ else }\n\
      rule con_any(var X, const C, var Y) { Y := _ when con(X, C) @ in, X != Y => con(X, C) @ out }\n\
      rule con_write(var X, const C, var P) { *P := _ when con(X, C) @ in, una(X) @ in => con(X, C) @ out }\n\
      rule con_npt(var X, const C, var P) { *P := _ when con(X, C) @ in, npt(P, X) @ in => con(X, C) @ out }\n\
      rule con_call(var X, const C, var Z) { Z := call(_) when con(X, C) @ in, una(X) @ in, X != Z => con(X, C) @ out }\n\
      rule con_copy(var X, var Y, const C) { X := Y when con(Y, C) @ in => con(X, C) @ out }\n\
      rule con_add(var X, var A, var B, const C, const D, const E) { X := A + B when con(A, C) @ in, con(B, D) @ in, E == (C + D) => con(X, E) @ out }\n\
      rule una_then(var X) { if _ when una(X) @ in => una(X) @ then }\n\
      rule una_else(var X) { if _ when una(X) @ in => una(X) @ else }\n\
      rule una_num(var X, var Y, const C) { Y := C when una(X) @ in => una(X) @ out }\n\
      rule una_copy(var X, var Y, var A) { Y := A when una(X) @ in => una(X) @ out }\n\
      rule una_add(var X, var Y, var A, var B) { Y := A + B when una(X) @ in => una(X) @ out }\n\
      rule una_less(var X, var Y, var A, var B) { Y := A < B when una(X) @ in => una(X) @ out }\n\
      rule una_addr(var X, var Y, var Z) { Y := &Z when una(X) @ in, X != Z => una(X) @ out }\n\
      rule una_load(var X, var Y, var Z) { Y := *Z when una(X) @ in => una(X) @ out }\n\
      rule una_write(var X, var P, var A) { *P := A when una(X) @ in => una(X) @ out }\n\
      rule una_new(var X, var Y) { Y := new when una(X) @ in => una(X) @ out }\n\
      rule una_call(var X, var Z) { Z := call(_) when una(X) @ in => una(X) @ out }\n\
      rule npt_any(var P, var X, var Y) { Y := _ when npt(P, X) @ in, P != Y => npt(P, X) @ out }\n\
      rule cpy_gen(var X, var Y) { X := Y => cpy(X, Y) @ out }\n\
      rule cpy_any(var X, var Y, var Z) { Z := _ when cpy(X, Y) @ in, X != Z, Y != Z => cpy(X, Y) @ out }\n\
      rule pts_gen(var P, var X) { P := &X => pts(P, X) @ out }\n\
      rule pts_any(var P, var X, var Z) { Z := _ when pts(P, X) @ in, P != Z => pts(P, X) @ out }\n\
      rule sum_gen(var X, var A, var B) { X := A + B when X != A, X != B => sum(X, A, B) @ out }\n\
      rule sum_any(var X, var A, var B, var Z) { Z := _ when sum(X, A, B) @ in, X != Z, A != Z, B != Z => sum(X, A, B) @ out }\n\
      rule add_zero(var X, var A) { X := A + 0 => transform X := A }\n\
      rule use_con(var X, var A, const C) { X := A when con(A, C) @ in => transform X := C }\n\
      rule use_cpy(var Z, var X, var Y) { Z := X when cpy(X, Y) @ in => transform Z := Y }\n\
      rule use_load(var X, var P, var Y) { X := *P when pts(P, Y) @ in => transform X := Y }\n\
      rule use_sum(var X, var A, var B, var Y) { Y := A + B when sum(X, A, B) @ in => transform Y := X }\n\
      rule use_if(var X, const C) { if X when con(X, C) @ in => transform if C }\n\
      rule use_arg(var X, var A, const C) { X := call(A) when con(A, C) @ in => transform X := call(C) }\n\
      rule use_ret(var X, const C) { return X when con(X, C) @ in => transform return C }\n"
}
