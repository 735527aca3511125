//! The two files of a large input.
ghost use Rattle.std.specs.Prelude.{◌≡◌, ◌≤◌, IfOk};
ghost use Rattle.rh_il_print.specs.Text.{program_text};
ghost use Rattle.rh_gen.specs.Generated.{generated};
ghost use Rattle.rh_gen.specs.Standard.{standard_rules};

use crate::procedures::program;
use crate::rules::standard_rules;
use rh_il_print::print_program;
use std::alloc::{AllocError, Global};

/// The standard rules, and a made program of so many procedures and `main`.
pub fn generate(alloc: Global, n: u32) -> Result<(Vec<u8>, Vec<u8>), AllocError>
    requires { n ≤ 255 }
    ensures rules { IfOk result (λ made. made.0.items ≡ standard_rules) }
    ensures program { IfOk result (λ made. made.1.items ≡ program_text (generated n)) }
{
    let rules = Vec::from_slice(alloc, standard_rules())?;
    let program = print_program(alloc, &program(alloc, n)?)?;
    Ok((rules, program))
}
