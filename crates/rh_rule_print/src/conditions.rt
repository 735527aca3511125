//! What stands after `when`.

ghost use Rattle.std.specs.Prelude.{◌≡◌, ◌++◌, codes, OnOk};
ghost use Rattle.std.specs.List.{flat_map};
ghost use Rattle.rh_rule_print.specs.Text.{joined, operand_text, schema_name, fact_text, premise_text, side_term_text, side_text, listed, conditions_text};

use crate::forms::{push_compute, push_operand};
use rh_print::push;
use rh_rule::{FactUse, Param, RuleBase, Schema, Side, SideTerm};
use std::alloc::{AllocError, Global};

fn push_schema_name(out: &mut Vec<u8>, schemas: &[Schema], number: u32) -> Result<(), AllocError>
    ensures { OnOk result (out.new.items ≡ out.old.items ++ schema_name schemas.now number) }
{
    match schemas.get(number as usize) {
        Some(schema) => push(out, schema.name.bytes()),
        None => Ok(()),
    }
}

/// The arguments of a fact, each after a comma but the first.
fn push_args(
    alloc: Global,
    out: &mut Vec<u8>,
    params: &[Param],
    args: &[RuleBase],
) -> Result<(), AllocError>
    ensures { OnOk result (out.new.items ≡ out.old.items ++ joined (codes ", ") (operand_text params.now) args.now) }
{
    let Some((first, others)) = args.split_first() else {
        return Ok(());
    };
    push_operand(alloc, out, params, *first)?;
    push_more_args(alloc, out, params, others)
}

fn push_more_args(
    alloc: Global,
    out: &mut Vec<u8>,
    params: &[Param],
    args: &[RuleBase],
) -> Result<(), AllocError>
    ensures { OnOk result (out.new.items ≡ out.old.items ++ flat_map (λ arg. codes ", " ++ operand_text params.now arg) args.now) }
{
    for arg in args {
        push(out, b", ")?;
        push_operand(alloc, out, params, *arg)?;
    }
    Ok(())
}

/// A fact, without the edge that it is on.
pub(crate) fn push_fact(
    alloc: Global,
    out: &mut Vec<u8>,
    schemas: &[Schema],
    params: &[Param],
    fact: &FactUse,
) -> Result<(), AllocError>
    ensures { OnOk result (out.new.items ≡ out.old.items ++ fact_text schemas.now params.now fact.now) }
{
    push_schema_name(out, schemas, fact.schema)?;
    push(out, b"(")?;
    push_args(alloc, out, params, fact.args.as_slice())?;
    push(out, b")")
}

fn push_premise(
    alloc: Global,
    out: &mut Vec<u8>,
    schemas: &[Schema],
    params: &[Param],
    fact: &FactUse,
) -> Result<(), AllocError>
    ensures { OnOk result (out.new.items ≡ out.old.items ++ premise_text schemas.now params.now fact.now) }
{
    push_fact(alloc, out, schemas, params, fact)?;
    push(out, b" @ in")
}

fn push_next_premise(
    alloc: Global,
    out: &mut Vec<u8>,
    schemas: &[Schema],
    params: &[Param],
    fact: &FactUse,
) -> Result<(), AllocError>
    ensures { OnOk result (out.new.items ≡ out.old.items ++ (codes ", " ++ premise_text schemas.now params.now fact.now)) }
{
    push(out, b", ")?;
    push_premise(alloc, out, schemas, params, fact)
}

fn push_more_premises(
    alloc: Global,
    out: &mut Vec<u8>,
    schemas: &[Schema],
    params: &[Param],
    premises: &[FactUse],
) -> Result<(), AllocError>
    ensures { OnOk result (out.new.items ≡ out.old.items ++ flat_map (λ fact. codes ", " ++ premise_text schemas.now params.now fact) premises.now) }
{
    for premise in premises {
        push_next_premise(alloc, out, schemas, params, premise)?;
    }
    Ok(())
}

fn push_side_term(
    alloc: Global,
    out: &mut Vec<u8>,
    params: &[Param],
    term: SideTerm,
) -> Result<(), AllocError>
    ensures { OnOk result (out.new.items ≡ out.old.items ++ side_term_text params.now term) }
{
    match term {
        SideTerm::Plain(base) => push_operand(alloc, out, params, base),
        SideTerm::Compute(op, left, right) => {
            push(out, b"(")?;
            push_compute(alloc, out, params, op, (left, right))?;
            push(out, b")")
        }
    }
}

fn push_side(
    alloc: Global,
    out: &mut Vec<u8>,
    params: &[Param],
    side: Side,
) -> Result<(), AllocError>
    ensures { OnOk result (out.new.items ≡ out.old.items ++ side_text params.now side) }
{
    match side {
        Side::Same(s, t) => {
            push_side_term(alloc, out, params, s)?;
            push(out, b" == ")?;
            push_side_term(alloc, out, params, t)
        }
        Side::Differ(s, t) => {
            push_side_term(alloc, out, params, s)?;
            push(out, b" != ")?;
            push_side_term(alloc, out, params, t)
        }
    }
}

/// The side conditions, and a text before the first.
fn push_sides(
    alloc: Global,
    out: &mut Vec<u8>,
    lead: &[u8],
    params: &[Param],
    sides: &[Side],
) -> Result<(), AllocError>
    ensures { OnOk result (out.new.items ≡ out.old.items ++ listed lead.now (side_text params.now) sides.now) }
{
    let Some((first, others)) = sides.split_first() else {
        return Ok(());
    };
    push(out, lead)?;
    push_side(alloc, out, params, *first)?;
    push_more_sides(alloc, out, params, others)
}

fn push_more_sides(
    alloc: Global,
    out: &mut Vec<u8>,
    params: &[Param],
    sides: &[Side],
) -> Result<(), AllocError>
    ensures { OnOk result (out.new.items ≡ out.old.items ++ flat_map (λ side. codes ", " ++ side_text params.now side) sides.now) }
{
    for side in sides {
        push(out, b", ")?;
        push_side(alloc, out, params, *side)?;
    }
    Ok(())
}

/// The premises, then the side conditions.
pub(crate) fn push_conditions(
    alloc: Global,
    out: &mut Vec<u8>,
    schemas: &[Schema],
    params: &[Param],
    premises: &[FactUse],
    sides: &[Side],
) -> Result<(), AllocError>
    ensures { OnOk result (out.new.items ≡ out.old.items ++ conditions_text schemas.now params.now premises.now sides.now) }
{
    let Some((first, others)) = premises.split_first() else {
        return push_sides(alloc, out, b" when ", params, sides);
    };
    push(out, b" when ")?;
    push_premise(alloc, out, schemas, params, first)?;
    push_more_premises(alloc, out, schemas, params, others)?;
    push_sides(alloc, out, b", ", params, sides)
}
