//! The canonical text of a program.

ghost use Rattle.std.specs.Prelude.{◌≡◌, ◌++◌, codes, IfOk, OnOk};
ghost use Rattle.std.specs.List.{flat_map};
ghost use Rattle.rh_il_text.specs.Program.{IsText};
ghost use Rattle.rh_il_print.specs.Text.{name_at, proc_name, base_text, to_text, compute_text, call_text, branch_text, stmt_text, line_text, locals_text, vars_text, proc_text, text_at, program_text};

use rh_il::{Base, Name, Op, Proc, Program, Stmt, numbers_fit};
use rh_print::{op_text, push, push_count, push_number};
use std::alloc::{AllocError, Global};

fn push_name(out: &mut Vec<u8>, names: &[Name], number: u32) -> Result<(), AllocError>
    ensures { OnOk result (out.new.items ≡ out.old.items ++ name_at names.now number) }
{
    match names.get(number as usize) {
        Some(name) => push(out, name.bytes()),
        None => Ok(()),
    }
}

fn push_proc_name(out: &mut Vec<u8>, program: &Program, number: u32) -> Result<(), AllocError>
    ensures { OnOk result (out.new.items ≡ out.old.items ++ proc_name program.now number) }
{
    match program.proc(number) {
        Some(proc) => push(out, proc.name.bytes()),
        None => Ok(()),
    }
}

fn push_base(alloc: Global, out: &mut Vec<u8>, vars: &[Name], base: Base) -> Result<(), AllocError>
    ensures { OnOk result (out.new.items ≡ out.old.items ++ base_text vars.now base) }
{
    match base {
        Base::Var(x) => push_name(out, vars, x),
        Base::Num(number) => push_number(alloc, out, number),
    }
}

/// The variable to the left of `:=`.
fn push_to(out: &mut Vec<u8>, vars: &[Name], to: u32) -> Result<(), AllocError>
    ensures { OnOk result (out.new.items ≡ out.old.items ++ to_text vars.now to) }
{
    push_name(out, vars, to)?;
    push(out, b" := ")
}

fn push_compute(
    alloc: Global,
    out: &mut Vec<u8>,
    vars: &[Name],
    op: Op,
    operands: (Base, Base),
) -> Result<(), AllocError>
    ensures { OnOk result (out.new.items ≡ out.old.items ++ compute_text vars.now op operands.0 operands.1) }
{
    push_base(alloc, out, vars, operands.0)?;
    push(out, b" ")?;
    push(out, op_text(op))?;
    push(out, b" ")?;
    push_base(alloc, out, vars, operands.1)
}

fn push_call(
    alloc: Global,
    out: &mut Vec<u8>,
    program: &Program,
    vars: &[Name],
    proc: u32,
    arg: Base,
) -> Result<(), AllocError>
    ensures { OnOk result (out.new.items ≡ out.old.items ++ call_text program.now vars.now proc arg) }
{
    push_proc_name(out, program, proc)?;
    push(out, b"(")?;
    push_base(alloc, out, vars, arg)?;
    push(out, b")")
}

fn push_branch(
    alloc: Global,
    out: &mut Vec<u8>,
    vars: &[Name],
    cond: Base,
    targets: (u32, u32),
) -> Result<(), AllocError>
    ensures { OnOk result (out.new.items ≡ out.old.items ++ branch_text vars.now cond targets.0 targets.1) }
{
    push(out, b"if ")?;
    push_base(alloc, out, vars, cond)?;
    push(out, b" goto ")?;
    push_count(alloc, out, u64::from(targets.0))?;
    push(out, b" else ")?;
    push_count(alloc, out, u64::from(targets.1))
}

/// A statement without its `;`.
fn push_stmt(
    alloc: Global,
    out: &mut Vec<u8>,
    program: &Program,
    vars: &[Name],
    stmt: Stmt,
) -> Result<(), AllocError>
    ensures { OnOk result (out.new.items ≡ out.old.items ++ stmt_text program.now vars.now stmt) }
{
    match stmt {
        Stmt::Skip => push(out, b"skip"),
        Stmt::Copy { to, from } => {
            push_to(out, vars, to)?;
            push_base(alloc, out, vars, from)
        }
        Stmt::Address { to, of } => {
            push_to(out, vars, to)?;
            push(out, b"&")?;
            push_name(out, vars, of)
        }
        Stmt::Load { to, from } => {
            push_to(out, vars, to)?;
            push(out, b"*")?;
            push_name(out, vars, from)
        }
        Stmt::Compute {
            to,
            op,
            left,
            right,
        } => {
            push_to(out, vars, to)?;
            push_compute(alloc, out, vars, op, (left, right))
        }
        Stmt::Write { to, from } => {
            push(out, b"*")?;
            push_to(out, vars, to)?;
            push_base(alloc, out, vars, from)
        }
        Stmt::New { to } => {
            push_to(out, vars, to)?;
            push(out, b"new")
        }
        Stmt::Call { to, proc, arg } => {
            push_to(out, vars, to)?;
            push_call(alloc, out, program, vars, proc, arg)
        }
        Stmt::Goto { to } => {
            push(out, b"goto ")?;
            push_count(alloc, out, u64::from(to))
        }
        Stmt::If { cond, yes, no } => push_branch(alloc, out, vars, cond, (yes, no)),
        Stmt::Return { value } => {
            push(out, b"return ")?;
            push_base(alloc, out, vars, value)
        }
    }
}

/// A line of a body.
fn push_line(
    alloc: Global,
    out: &mut Vec<u8>,
    program: &Program,
    vars: &[Name],
    stmt: Stmt,
) -> Result<(), AllocError>
    ensures { OnOk result (out.new.items ≡ out.old.items ++ line_text program.now vars.now stmt) }
{
    push(out, b"  ")?;
    push_stmt(alloc, out, program, vars, stmt)?;
    push(out, b";\n")
}

/// The names of locals, each after a comma but the first.
fn push_locals(out: &mut Vec<u8>, locals: &[Name]) -> Result<(), AllocError>
    ensures { OnOk result (out.new.items ≡ out.old.items ++ locals_text locals.now) }
{
    let Some((first, others)) = locals.split_first() else {
        return Ok(());
    };
    push(out, b" var ")?;
    push(out, first.bytes())?;
    push_others(out, others)
}

fn push_others(out: &mut Vec<u8>, names: &[Name]) -> Result<(), AllocError>
    ensures { OnOk result (out.new.items ≡ out.old.items ++ flat_map (λ name. codes ", " ++ name) names.now) }
{
    for name in names {
        push(out, b", ")?;
        push(out, name.bytes())?;
    }
    Ok(())
}

/// What stands between the name of a procedure and its body.
fn push_vars(out: &mut Vec<u8>, vars: &[Name]) -> Result<(), AllocError>
    ensures { OnOk result (out.new.items ≡ out.old.items ++ vars_text vars.now) }
{
    let Some((param, locals)) = vars.split_first() else {
        return push(out, b"()");
    };
    push(out, b"(")?;
    push(out, param.bytes())?;
    push(out, b")")?;
    push_locals(out, locals)
}

fn push_body(
    alloc: Global,
    out: &mut Vec<u8>,
    program: &Program,
    vars: &[Name],
    body: &[Stmt],
) -> Result<(), AllocError>
    ensures { OnOk result (out.new.items ≡ out.old.items ++ flat_map (line_text program.now vars.now) body.now) }
{
    for stmt in body {
        push_line(alloc, out, program, vars, *stmt)?;
    }
    Ok(())
}

fn push_proc(
    alloc: Global,
    out: &mut Vec<u8>,
    program: &Program,
    proc: &Proc,
) -> Result<(), AllocError>
    ensures { OnOk result (out.new.items ≡ out.old.items ++ proc_text program.now proc.now) }
{
    let vars = proc.vars.as_slice();
    push(out, proc.name.bytes())?;
    push_vars(out, vars)?;
    push(out, b" {\n")?;
    push_body(alloc, out, program, vars, proc.body.as_slice())?;
    push(out, b"}\n")
}

fn push_proc_at(
    alloc: Global,
    out: &mut Vec<u8>,
    program: &Program,
    number: u32,
) -> Result<(), AllocError>
    ensures { OnOk result (out.new.items ≡ out.old.items ++ text_at program.now number) }
{
    match program.proc(number) {
        Some(proc) => push_proc(alloc, out, program, proc),
        None => Ok(()),
    }
}

/// The canonical text of a program. It is a text of that program.
pub fn print_program(alloc: Global, program: &Program) -> Result<Vec<u8>, AllocError>
    ensures text { IfOk result (λ text. text.items ≡ program_text program.now) }
    ensures again { IfOk result (λ text. IsText text.items program.now) }
{
    numbers_fit(program);
    let mut out = Vec::new(alloc);
    for number in 0..program.count() {
        push_proc_at(alloc, &mut out, program, number)?;
    }
    Ok(out)
}
