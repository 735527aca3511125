//! A law: the numbers in a program's statements are of 64 bits, as its type says.
ghost use Rattle.std.specs.List.{AllByRecursion};
ghost use Rattle.rh_il.specs.Value.{IsNumber};
ghost use Rattle.rh_il.specs.Numbers.{HasNumbers, base_numbers, operand_numbers};
ghost use Rattle.rh_list.specs.Each.{Each};

use crate::procedures::Program;
use crate::program::{Base, Proc, Stmt};

fn number_fits(number: i64)
    ensures { IsNumber number }
{}

fn base_fits(base: Base)
    ensures { AllByRecursion IsNumber (base_numbers base) }
{
    match base {
        Base::Num(number) => number_fits(number),
        Base::Var(_) => {}
    }
}

fn stmt_fits(stmt: Stmt)
    ensures { AllByRecursion IsNumber (operand_numbers stmt) }
{
    match stmt {
        Stmt::Copy { from, .. } | Stmt::Write { from, .. } => base_fits(from),
        Stmt::Compute { left, right, .. } => {
            base_fits(left);
            base_fits(right);
        }
        Stmt::Call { arg, .. } => base_fits(arg),
        Stmt::If { cond, .. } => base_fits(cond),
        Stmt::Return { value } => base_fits(value),
        _ => {}
    }
}

fn body_fits(body: &[Stmt])
    ensures { Each (λ stmt. AllByRecursion IsNumber (operand_numbers stmt)) body.now }
{
    for stmt in body {
        stmt_fits(*stmt);
    }
}

fn proc_fits(proc: &Proc)
    ensures { HasNumbers proc.now }
{
    body_fits(proc.body.as_slice());
}

/// The numbers in a program's statements are of 64 bits. It does nothing: callers learn it.
pub fn numbers_fit(program: &Program)
    ensures { Each HasNumbers program.now }
{
    for number in 0..program.count() {
        if let Some(proc) = program.proc(number) {
            proc_fits(proc);
        }
    }
}
