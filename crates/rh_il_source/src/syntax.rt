//! The alternatives by which words are a program.

ghost use Rattle.std.specs.Prelude.{◌∷◌, [], IfOk, IfErr};
ghost use Rattle.rh_grammar.specs.declared.grammar.Symbol.TheVariants.{Rule};
ghost use Rattle.rh_grammar.specs.Derivation.{Derives, FaultsAs};
ghost use Rattle.rh_il_source.specs.Grammar.{productions, program};

use crate::grammar::{PROGRAMS, rule};
use rh_grammar::{ParseFault, parse};
use std::alloc::Global;

/// The alternatives by which classes are those of a program, or the place of the syntax fault.
#[tactic(auto, unfolding(crate::specs::Grammar::productions))]
pub fn steps_of(alloc: Global, classes: &[u8]) -> Result<Vec<u8>, ParseFault>
    ensures derives { IfOk result (λ steps. Derives productions (Rule program ∷ []) steps.items classes.now) }
    ensures fault { IfErr result (FaultsAs productions program classes.now) }
{
    parse(alloc, &PROGRAMS, rule::PROGRAM, classes)
}
