//! The canonical text of a rule file, part by part.

ghost use Rattle.std.specs.Prelude.{◌≡◌, IfOk};
ghost use Rattle.rh_rule_text.specs.Reading.{IsText};
ghost use Rattle.rh_rule_print.specs.Text.{file_text};

use crate::facts::push_schemas;
use crate::rules::push_rules;
use rh_print::push;
use rh_rule::RuleFile;
use std::alloc::{AllocError, Global};

/// The canonical text of a rule file. It is a text of the same rule file.
pub fn print_rules(alloc: Global, rules: &RuleFile) -> Result<Vec<u8>, AllocError>
    ensures text { IfOk result (λ text. text.items ≡ file_text rules.now) }
    ensures again { IfOk result (λ text. IsText text.items rules.now) }
{
    let mut out = Vec::new(alloc);
    push(&mut out, b"rhodium 1;\n")?;
    push_schemas(alloc, &mut out, rules.schemas())?;
    push_rules(alloc, &mut out, rules.schemas(), rules.rules())?;
    Ok(out)
}
