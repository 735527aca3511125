//! The lines that tell of each rule whether it has logs.
ghost use Rattle.std.specs.Prelude.{◌≡◌, ◌++◌, IfOk, OnOk, length};
ghost use Rattle.rh_audit.specs.Audit.{audit_line, proved_text};
ghost use Rattle.rh_audit.specs.Walk.{marked_lines};

use rh_print::push;
use rh_rule::Rule;
use std::alloc::{AllocError, Global};

/// A line for each rule, by its mark.
pub(crate) fn marked_lines(
    alloc: Global,
    rules: &[Rule],
    marks: &[bool],
) -> Result<Vec<u8>, AllocError>
    requires { length rules.now ≡ length marks.now }
    ensures { IfOk result (λ text. text.items ≡ marked_lines rules.now marks.now) }
{
    let mut out = Vec::new(alloc);
    for number in 0..rules.len() {
        push_line(&mut out, &rules[number], marks[number])?;
    }
    Ok(out)
}

fn push_line(out: &mut Vec<u8>, rule: &Rule, proved: bool) -> Result<(), AllocError>
    ensures { OnOk result (out.new.items ≡ out.old.items ++ audit_line rule.now proved) }
{
    push(out, b"# rule ")?;
    push(out, rule.name.bytes())?;
    push_proved(out, proved)
}

fn push_proved(out: &mut Vec<u8>, proved: bool) -> Result<(), AllocError>
    ensures { OnOk result (out.new.items ≡ out.old.items ++ proved_text proved) }
{
    if proved {
        push(out, b" proved\n")
    } else {
        push(out, b" without log\n")
    }
}
