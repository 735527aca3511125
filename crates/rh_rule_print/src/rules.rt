//! Rules.

ghost use Rattle.std.specs.Prelude.{◌≡◌, ◌++◌, OnOk};
ghost use Rattle.std.specs.List.{flat_map};
ghost use Rattle.rh_rule_print.specs.Text.{slot_text, conclusion_text, head_text, rule_text};

use crate::conditions::{push_conditions, push_fact};
use crate::forms::push_form;
use crate::parts::push_params;
use rh_il::Slot;
use rh_print::push;
use rh_rule::{Conclusion, Param, Rule, Schema};
use std::alloc::{AllocError, Global};

fn slot_text(slot: Slot) -> &'static [u8]
    ensures { result.now ≡ slot_text slot }
{
    match slot {
        Slot::Out => b"out",
        Slot::Then => b"then",
        Slot::Else => b"else",
    }
}

fn push_conclusion(
    alloc: Global,
    out: &mut Vec<u8>,
    schemas: &[Schema],
    params: &[Param],
    conclusion: &Conclusion,
) -> Result<(), AllocError>
    ensures { OnOk result (out.new.items ≡ out.old.items ++ conclusion_text schemas.now params.now conclusion.now) }
{
    match conclusion {
        Conclusion::Fact { fact, slot } => {
            push_fact(alloc, out, schemas, params, fact)?;
            push(out, b" @ ")?;
            push(out, slot_text(*slot))
        }
        Conclusion::Transform(template) => {
            push(out, b"transform ")?;
            push_form(alloc, out, params, *template)
        }
    }
}

/// What stands before the pattern of a rule.
fn push_head(out: &mut Vec<u8>, rule: &Rule) -> Result<(), AllocError>
    ensures { OnOk result (out.new.items ≡ out.old.items ++ head_text rule.now) }
{
    push(out, b"rule ")?;
    push(out, rule.name.bytes())?;
    push_params(out, rule.params.as_slice())?;
    push(out, b" { ")
}

fn push_rule(
    alloc: Global,
    out: &mut Vec<u8>,
    schemas: &[Schema],
    rule: &Rule,
) -> Result<(), AllocError>
    ensures { OnOk result (out.new.items ≡ out.old.items ++ rule_text schemas.now rule.now) }
{
    let params = rule.params.as_slice();
    push_head(out, rule)?;
    push_form(alloc, out, params, rule.pattern)?;
    push_conditions(
        alloc,
        out,
        schemas,
        params,
        rule.premises.as_slice(),
        rule.sides.as_slice(),
    )?;
    push(out, b" => ")?;
    push_conclusion(alloc, out, schemas, params, &rule.conclusion)?;
    push(out, b" }\n")
}

pub(crate) fn push_rules(
    alloc: Global,
    out: &mut Vec<u8>,
    schemas: &[Schema],
    rules: &[Rule],
) -> Result<(), AllocError>
    ensures { OnOk result (out.new.items ≡ out.old.items ++ flat_map (rule_text schemas.now) rules.now) }
{
    for rule in rules {
        push_rule(alloc, out, schemas, rule)?;
    }
    Ok(())
}
