//! The line of a fact.
ghost use Rattle.std.specs.Prelude.{◌≡◌, ◌++◌, codes, OnOk};
ghost use Rattle.std.specs.List.{flat_map};
ghost use Rattle.rh_il_print.specs.Text.{name_at, proc_name};
ghost use Rattle.rh_rule_print.specs.Text.{joined, schema_name, slot_text};
ghost use Rattle.rh_report.specs.Output.{arg_text, fact_line, ground_fact_text, node_text, vars_at};
ghost use Rattle.rh_report.specs.FactLines.{place_text};

use rh_domain::{FactAt, GroundFact};
use rh_il::{Edge, Name, Node, Program, Slot};
use rh_print::{push, push_count, push_number};
use rh_rule::{Arg, Schema};
use std::alloc::{AllocError, Global};

fn push_node(alloc: Global, out: &mut Vec<u8>, node: Node) -> Result<(), AllocError>
    ensures { OnOk result (out.new.items ≡ out.old.items ++ node_text node) }
{
    match node {
        Node::Entry => push(out, b"entry"),
        Node::At(number) => push_count(alloc, out, u64::from(number)),
    }
}

fn slot_text(slot: Slot) -> &'static [u8]
    ensures { result.now ≡ slot_text slot }
{
    match slot {
        Slot::Out => b"out",
        Slot::Then => b"then",
        Slot::Else => b"else",
    }
}

fn push_name(out: &mut Vec<u8>, names: &[Name], number: u32) -> Result<(), AllocError>
    ensures { OnOk result (out.new.items ≡ out.old.items ++ name_at names.now number) }
{
    match names.get(number as usize) {
        Some(name) => push(out, name.bytes()),
        None => Ok(()),
    }
}

pub(crate) fn push_proc_name(
    out: &mut Vec<u8>,
    program: &Program,
    number: u32,
) -> Result<(), AllocError>
    ensures { OnOk result (out.new.items ≡ out.old.items ++ proc_name program.now number) }
{
    match program.proc(number) {
        Some(proc) => push(out, proc.name.bytes()),
        None => Ok(()),
    }
}

fn push_schema_name(out: &mut Vec<u8>, schemas: &[Schema], number: u32) -> Result<(), AllocError>
    ensures { OnOk result (out.new.items ≡ out.old.items ++ schema_name schemas.now number) }
{
    match schemas.get(number as usize) {
        Some(schema) => push(out, schema.name.bytes()),
        None => Ok(()),
    }
}

/// The variables of a procedure.
fn vars_at(program: &Program, number: u32) -> &[Name]
    ensures { result.now ≡ vars_at program.now number }
{
    match program.proc(number) {
        Some(proc) => proc.vars.as_slice(),
        None => &[],
    }
}

fn push_arg(alloc: Global, out: &mut Vec<u8>, vars: &[Name], arg: Arg) -> Result<(), AllocError>
    ensures { OnOk result (out.new.items ≡ out.old.items ++ arg_text vars.now arg) }
{
    match arg {
        Arg::Var(number) => push_name(out, vars, number),
        Arg::Const(number) => push_number(alloc, out, number),
    }
}

fn push_more_args(
    alloc: Global,
    out: &mut Vec<u8>,
    vars: &[Name],
    args: &[Arg],
) -> Result<(), AllocError>
    ensures { OnOk result (out.new.items ≡ out.old.items ++ flat_map (λ arg. codes ", " ++ arg_text vars.now arg) args.now) }
{
    for arg in args {
        push(out, b", ")?;
        push_arg(alloc, out, vars, *arg)?;
    }
    Ok(())
}

/// Arguments, each after a comma but the first.
fn push_args(
    alloc: Global,
    out: &mut Vec<u8>,
    vars: &[Name],
    args: &[Arg],
) -> Result<(), AllocError>
    ensures { OnOk result (out.new.items ≡ out.old.items ++ joined (codes ", ") (arg_text vars.now) args.now) }
{
    let Some((first, others)) = args.split_first() else {
        return Ok(());
    };
    push_arg(alloc, out, vars, *first)?;
    push_more_args(alloc, out, vars, others)
}

/// A fact, without the edge that it is on.
fn push_fact(
    alloc: Global,
    out: &mut Vec<u8>,
    schemas: &[Schema],
    vars: &[Name],
    fact: &GroundFact,
) -> Result<(), AllocError>
    ensures { OnOk result (out.new.items ≡ out.old.items ++ ground_fact_text schemas.now vars.now fact.now) }
{
    push_schema_name(out, schemas, fact.schema)?;
    push(out, b"(")?;
    push_args(alloc, out, vars, fact.args.as_slice())?;
    push(out, b")")
}

/// A fact over the variables of its procedure.
fn push_fact_at(
    alloc: Global,
    out: &mut Vec<u8>,
    schemas: &[Schema],
    program: &Program,
    fact: &FactAt,
) -> Result<(), AllocError>
    ensures { OnOk result (out.new.items ≡ out.old.items ++ ground_fact_text schemas.now (vars_at program.now fact.now.proc) fact.now.fact) }
{
    let vars = vars_at(program, fact.proc);
    push_fact(alloc, out, schemas, vars, &fact.fact)
}

/// What stands before a fact: the procedure and the edge.
fn push_place(
    alloc: Global,
    out: &mut Vec<u8>,
    program: &Program,
    proc: u32,
    edge: Edge,
) -> Result<(), AllocError>
    ensures { OnOk result (out.new.items ≡ out.old.items ++ place_text program.now proc edge) }
{
    push(out, b"# fact ")?;
    push_proc_name(out, program, proc)?;
    push(out, b" ")?;
    push_node(alloc, out, edge.node)?;
    push(out, b".")?;
    push(out, slot_text(edge.slot))
}

/// The line of a fact.
pub(crate) fn push_fact_line(
    alloc: Global,
    out: &mut Vec<u8>,
    schemas: &[Schema],
    program: &Program,
    fact: &FactAt,
) -> Result<(), AllocError>
    ensures { OnOk result (out.new.items ≡ out.old.items ++ fact_line schemas.now program.now fact.now) }
{
    push_place(alloc, out, program, fact.proc, fact.edge)?;
    push(out, b" ")?;
    push_fact_at(alloc, out, schemas, program, fact)?;
    push(out, b"\n")
}
