//! Which words are unknown names.

ghost use Rattle.std.specs.Prelude.{◌≡◌, ◌++◌, map, OnOk, IfOk};
ghost use Rattle.std.specs.List.{flat_map};
ghost use Rattle.rh_il_text.specs.Known.{operand_marks, line_marks, closed_marks, more_marks, locals_marks, vars_marks, source_marks, names_of, file_marks};

use rh_il::Name;
use rh_il_source::{Line, Operand, Source};
use rh_names::Names;
use std::alloc::{AllocError, Global};

fn push(marks: &mut Vec<bool>, more: &[bool]) -> Result<(), AllocError>
    ensures { OnOk result (marks.new.items ≡ marks.old.items ++ more.now) }
{
    marks.extend_from_slice(more)
}

fn push_operand(
    marks: &mut Vec<bool>,
    vars: &Names,
    procs: &Names,
    operand: Operand,
) -> Result<(), AllocError>
    ensures { OnOk result (marks.new.items ≡ marks.old.items ++ operand_marks vars.now procs.now operand) }
{
    match operand {
        Operand::Var(name) => push(marks, &[vars.contains(&name)]),
        Operand::Num {
            negative: false,
            ..
        } => push(marks, &[true]),
        Operand::Num { negative: true, .. } => push(marks, &[true, true]),
    }
}

/// The marks of a statement without its `;`.
fn push_line(
    marks: &mut Vec<bool>,
    vars: &Names,
    procs: &Names,
    line: Line,
) -> Result<(), AllocError>
    ensures { OnOk result (marks.new.items ≡ marks.old.items ++ line_marks vars.now procs.now line) }
{
    match line {
        Line::Skip => push(marks, &[true]),
        Line::Copy { to, from } => {
            push(marks, &[vars.contains(&to), true])?;
            push_operand(marks, vars, procs, from)
        }
        Line::Address { to, of: name } | Line::Load { to, from: name } => push(
            marks,
            &[vars.contains(&to), true, true, vars.contains(&name)],
        ),
        Line::Compute {
            to,
            left,
            right,
            ..
        } => {
            push(marks, &[vars.contains(&to), true])?;
            push_operand(marks, vars, procs, left)?;
            push(marks, &[true])?;
            push_operand(marks, vars, procs, right)
        }
        Line::Write { to, from } => {
            push(marks, &[true, vars.contains(&to), true])?;
            push_operand(marks, vars, procs, from)
        }
        Line::New { to } => push(marks, &[vars.contains(&to), true, true]),
        Line::Call { to, proc, arg } => {
            push(
                marks,
                &[vars.contains(&to), true, procs.contains(&proc), true],
            )?;
            push_operand(marks, vars, procs, arg)?;
            push(marks, &[true])
        }
        Line::Goto { .. } => push(marks, &[true, true]),
        Line::If { cond, .. } => {
            push(marks, &[true])?;
            push_operand(marks, vars, procs, cond)?;
            push(marks, &[true, true, true, true])
        }
        Line::Return { value } => {
            push(marks, &[true])?;
            push_operand(marks, vars, procs, value)
        }
    }
}

fn push_closed(
    marks: &mut Vec<bool>,
    vars: &Names,
    procs: &Names,
    line: Line,
) -> Result<(), AllocError>
    ensures { OnOk result (marks.new.items ≡ marks.old.items ++ closed_marks vars.now procs.now line) }
{
    push_line(marks, vars, procs, line)?;
    push(marks, &[true])
}

fn push_body(
    marks: &mut Vec<bool>,
    vars: &Names,
    procs: &Names,
    body: &[Line],
) -> Result<(), AllocError>
    ensures { OnOk result (marks.new.items ≡ marks.old.items ++ flat_map (closed_marks vars.now procs.now) body.now) }
{
    for line in body {
        push_closed(marks, vars, procs, *line)?;
    }
    Ok(())
}

fn push_more(marks: &mut Vec<bool>, names: &[Name]) -> Result<(), AllocError>
    ensures { OnOk result (marks.new.items ≡ marks.old.items ++ more_marks names.now) }
{
    for _name in names {
        push(marks, &[true, true])?;
    }
    Ok(())
}

fn push_locals(marks: &mut Vec<bool>, locals: &[Name]) -> Result<(), AllocError>
    ensures { OnOk result (marks.new.items ≡ marks.old.items ++ locals_marks locals.now) }
{
    let Some((_first, others)) = locals.split_first() else {
        return Ok(());
    };
    push(marks, &[true, true])?;
    push_more(marks, others)
}

fn push_vars(marks: &mut Vec<bool>, vars: &[Name]) -> Result<(), AllocError>
    ensures { OnOk result (marks.new.items ≡ marks.old.items ++ vars_marks vars.now) }
{
    let Some((_param, locals)) = vars.split_first() else {
        return push(marks, &[true]);
    };
    push(marks, &[true, true])?;
    push_locals(marks, locals)
}

fn push_source(
    alloc: Global,
    marks: &mut Vec<bool>,
    procs: &Names,
    source: &Source,
) -> Result<(), AllocError>
    ensures { OnOk result (marks.new.items ≡ marks.old.items ++ source_marks procs.now source.now) }
{
    let vars = Names::of(alloc, source.vars.as_slice())?;
    push(marks, &[true, true])?;
    push_vars(marks, source.vars.as_slice())?;
    push(marks, &[true])?;
    push_body(marks, &vars, procs, source.body.as_slice())?;
    push(marks, &[true])
}

/// The names of procedures.
fn list_of(alloc: Global, sources: &[Source]) -> Result<Vec<Name>, AllocError>
    ensures { IfOk result (λ names. names.items ≡ names_of sources.now) }
{
    let mut names = Vec::new(alloc);
    for source in sources {
        names.push(source.name)?;
    }
    Ok(names)
}

/// The names of procedures, with their numbers.
pub(crate) fn names_of(alloc: Global, sources: &[Source]) -> Result<Names, AllocError>
    ensures { IfOk result (λ names. names ≡ names_of sources.now) }
{
    let names = list_of(alloc, sources)?;
    Names::of(alloc, &names)
}

/// For each word of procedures, whether it is anything but an unknown name.
pub(crate) fn marks_of(
    alloc: Global,
    procs: &Names,
    sources: &[Source],
) -> Result<Vec<bool>, AllocError>
    ensures { IfOk result (λ marks. marks.items ≡ flat_map (source_marks procs.now) sources.now) }
{
    let mut marks = Vec::new(alloc);
    for source in sources {
        push_source(alloc, &mut marks, procs, source)?;
    }
    Ok(marks)
}
