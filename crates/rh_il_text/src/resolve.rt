//! Puts numbers in place of names.

ghost use Rattle.std.specs.Prelude.{◌≡◌, map, IfOk};
ghost use Rattle.rh_il_text.specs.Known.{place_of, number_of, base_of, stmt_of, proc_of, names_of};

use rh_il::{Base, Name, Proc, Stmt};
use rh_il_source::{Line, Operand, Source};
use rh_list::Items;
use rh_names::Names;
use rh_text::signed;
use std::alloc::{AllocError, Global};

/// The number of a name, and 0 of a name that is not there.
fn place_of(names: &Names, name: &Name) -> u32
    ensures { result ≡ place_of names.now name.now }
{
    match names.position(name) {
        Some(place) if place < 1 << 32 => place as u32,
        _ => 0,
    }
}

/// The number of a sign and a size.
fn number_of(negative: bool, size: u64) -> i64
    ensures { result ≡ number_of negative size }
{
    if size > 1 << 63 {
        return 0;
    }
    signed(negative, size).unwrap_or(0)
}

fn base_of(vars: &Names, operand: Operand) -> Base
    ensures { result ≡ base_of vars.now operand }
{
    match operand {
        Operand::Var(name) => Base::Var(place_of(vars, &name)),
        Operand::Num { negative, size } => Base::Num(number_of(negative, size)),
    }
}

fn stmt_of(vars: &Names, procs: &Names, line: Line) -> Stmt
    ensures { result ≡ stmt_of vars.now procs.now line }
{
    match line {
        Line::Skip => Stmt::Skip,
        Line::Copy { to, from } => Stmt::Copy {
            to: place_of(vars, &to),
            from: base_of(vars, from),
        },
        Line::Address { to, of } => Stmt::Address {
            to: place_of(vars, &to),
            of: place_of(vars, &of),
        },
        Line::Load { to, from } => Stmt::Load {
            to: place_of(vars, &to),
            from: place_of(vars, &from),
        },
        Line::Compute {
            to,
            op,
            left,
            right,
        } => Stmt::Compute {
            to: place_of(vars, &to),
            op,
            left: base_of(vars, left),
            right: base_of(vars, right),
        },
        Line::Write { to, from } => Stmt::Write {
            to: place_of(vars, &to),
            from: base_of(vars, from),
        },
        Line::New { to } => Stmt::New {
            to: place_of(vars, &to),
        },
        Line::Call { to, proc, arg } => Stmt::Call {
            to: place_of(vars, &to),
            proc: place_of(procs, &proc),
            arg: base_of(vars, arg),
        },
        Line::Goto { to } => Stmt::Goto { to },
        Line::If { cond, yes, no } => Stmt::If {
            cond: base_of(vars, cond),
            yes,
            no,
        },
        Line::Return { value } => Stmt::Return {
            value: base_of(vars, value),
        },
    }
}

fn body_of(
    alloc: Global,
    vars: &Names,
    procs: &Names,
    lines: &[Line],
) -> Result<Items<Stmt>, AllocError>
    ensures { IfOk result (λ body. body ≡ map (stmt_of vars.now procs.now) lines.now) }
{
    let mut body = Items::new(alloc);
    for line in lines {
        body.push(stmt_of(vars, procs, *line))?;
    }
    Ok(body)
}

fn proc_of(alloc: Global, procs: &Names, source: &Source) -> Result<Proc, AllocError>
    ensures { IfOk result (λ proc. proc ≡ proc_of procs.now source.now) }
{
    let name = source.name;
    let vars = source.vars.copy(alloc)?;
    let places = Names::of(alloc, source.vars.as_slice())?;
    let body = body_of(alloc, &places, procs, source.body.as_slice())?;
    Ok(Proc { name, vars, body })
}

/// Procedures with numbers in place of names, where the names of procedures are given.
pub(crate) fn procs_of(
    alloc: Global,
    names: &Names,
    sources: &[Source],
) -> Result<Vec<Proc>, AllocError>
    ensures { IfOk result (λ procs. procs.items ≡ map (proc_of names.now) sources.now) }
{
    let mut procs = Vec::new(alloc);
    for source in sources {
        procs.push(proc_of(alloc, names, source)?)?;
    }
    Ok(procs)
}
