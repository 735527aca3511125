//! Rewriting a program by the rules that are proved.
#![tactic(auto)]

mod rewriting;
mod templates;

ghost use Rattle.rh_transform.specs.Laws.{RewrittenPasses};

pub use rewriting::rewrite;
pub use templates::first_rewrite;

/// The program that the rules of a rule file rewrite passes every check of a program.
pub fn rewritten_programs_pass()
    ensures { RewrittenPasses }
{}
