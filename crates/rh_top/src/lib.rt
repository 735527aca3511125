//! The top call: one command line, done over a shelf and a sink.
#![tactic(auto)]

mod analysis;
mod audited;
mod facts;
mod input;
mod opt;
mod ran;
mod ruled;
mod top;

ghost use Rattle.std.specs.Prelude.{List};
ghost use Rattle.rh_il.specs.declared.program.Proc.{Proc};
ghost use Rattle.rh_rule.specs.RuleFiles.{Rules};
ghost use Rattle.rh_top.specs.One.{HasOneOutput};

pub use analysis::{Analysed, analyse};
pub use top::rhodium;

/// A rule file and a program have one output by `opt`, and one by `gen`: the same for every number of workers, and
/// however they interleave.
pub fn outputs_are_one()
    ensures { (file : Rules) (procs : List Proc) → HasOneOutput file procs }
{}
