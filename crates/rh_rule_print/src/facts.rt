//! Facts and what they mean.

ghost use Rattle.std.specs.Prelude.{◌≡◌, ◌++◌, codes, OnOk};
ghost use Rattle.std.specs.List.{flat_map};
ghost use Rattle.rh_rule_print.specs.Text.{joined, term_text, atom_text, schema_text};

use crate::parts::{push_base, push_param_name, push_params};
use rh_print::{op_text, push};
use rh_rule::{MeaningAtom, MeaningTerm, Param, Schema};
use std::alloc::{AllocError, Global};

fn push_term(
    alloc: Global,
    out: &mut Vec<u8>,
    params: &[Param],
    term: MeaningTerm,
) -> Result<(), AllocError>
    ensures { OnOk result (out.new.items ≡ out.old.items ++ term_text params.now term) }
{
    match term {
        MeaningTerm::Plain(base) => push_base(alloc, out, params, base),
        MeaningTerm::Address(param) => {
            push(out, b"&")?;
            push_param_name(out, params, param)
        }
        MeaningTerm::Deref(param) => {
            push(out, b"*")?;
            push_param_name(out, params, param)
        }
        MeaningTerm::Compute(op, left, right) => {
            push(out, b"(")?;
            push_base(alloc, out, params, left)?;
            push(out, b" ")?;
            push(out, op_text(op))?;
            push(out, b" ")?;
            push_base(alloc, out, params, right)?;
            push(out, b")")
        }
    }
}

fn push_atom(
    alloc: Global,
    out: &mut Vec<u8>,
    params: &[Param],
    atom: MeaningAtom,
) -> Result<(), AllocError>
    ensures { OnOk result (out.new.items ≡ out.old.items ++ atom_text params.now atom) }
{
    match atom {
        MeaningAtom::Same(s, t) => {
            push_term(alloc, out, params, s)?;
            push(out, b" == ")?;
            push_term(alloc, out, params, t)
        }
        MeaningAtom::Differ(s, t) => {
            push_term(alloc, out, params, s)?;
            push(out, b" != ")?;
            push_term(alloc, out, params, t)
        }
        MeaningAtom::IsNumber(t) => {
            push(out, b"number(")?;
            push_term(alloc, out, params, t)?;
            push(out, b")")
        }
        MeaningAtom::IsPointer(t) => {
            push(out, b"pointer(")?;
            push_term(alloc, out, params, t)?;
            push(out, b")")
        }
        MeaningAtom::Unaliased(param) => {
            push(out, b"unaliased(")?;
            push_param_name(out, params, param)?;
            push(out, b")")
        }
    }
}

/// The atoms of a meaning, each after `and` but the first.
fn push_meaning(
    alloc: Global,
    out: &mut Vec<u8>,
    params: &[Param],
    meaning: &[MeaningAtom],
) -> Result<(), AllocError>
    ensures { OnOk result (out.new.items ≡ out.old.items ++ joined (codes " and ") (atom_text params.now) meaning.now) }
{
    let Some((first, others)) = meaning.split_first() else {
        return Ok(());
    };
    push_atom(alloc, out, params, *first)?;
    push_more_atoms(alloc, out, params, others)
}

fn push_more_atoms(
    alloc: Global,
    out: &mut Vec<u8>,
    params: &[Param],
    atoms: &[MeaningAtom],
) -> Result<(), AllocError>
    ensures { OnOk result (out.new.items ≡ out.old.items ++ flat_map (λ atom. codes " and " ++ atom_text params.now atom) atoms.now) }
{
    for atom in atoms {
        push(out, b" and ")?;
        push_atom(alloc, out, params, *atom)?;
    }
    Ok(())
}

fn push_schema(alloc: Global, out: &mut Vec<u8>, schema: &Schema) -> Result<(), AllocError>
    ensures { OnOk result (out.new.items ≡ out.old.items ++ schema_text schema.now) }
{
    let params = schema.params.as_slice();
    push(out, b"fact ")?;
    push(out, schema.name.bytes())?;
    push_params(out, params)?;
    push(out, b" means ")?;
    push_meaning(alloc, out, params, schema.meaning.as_slice())?;
    push(out, b";\n")
}

pub(crate) fn push_schemas(
    alloc: Global,
    out: &mut Vec<u8>,
    schemas: &[Schema],
) -> Result<(), AllocError>
    ensures { OnOk result (out.new.items ≡ out.old.items ++ flat_map schema_text schemas.now) }
{
    for schema in schemas {
        push_schema(alloc, out, schema)?;
    }
    Ok(())
}
