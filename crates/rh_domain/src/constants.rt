//! The constants of a procedure.
ghost use Rattle.std.specs.Prelude.{ℤ, List, ◌≡◌, ◌++◌, ◌∷◌, [], IfOk, OnOk, pos};
ghost use Rattle.std.specs.List.{flat_map};
ghost use Rattle.std.specs.Ordering.{int_cmp};
ghost use Rattle.rh_il.specs.Numbers.{base_numbers, operand_numbers};
ghost use Rattle.rh_domain.specs.Constants.{rising, with_number};

use rh_il::{Base, Stmt};
use rh_list::Items;
use std::alloc::{AllocError, Global};
use std::collections::BTreeSet;

/// Adds a number.
fn add(known: &mut BTreeSet<i64>, number: i64) -> Result<(), AllocError>
    ensures { OnOk result (known.new.keys ≡ with_number number known.old.keys) }
{
    known.insert(number)?;
    Ok(())
}

/// Adds the number that an operand is.
fn add_base(known: &mut BTreeSet<i64>, base: Base) -> Result<(), AllocError>
    ensures { OnOk result ((rest : List ℤ) → known.old.keys ≡ rising rest → known.new.keys ≡ rising (base_numbers base ++ rest)) }
{
    match base {
        Base::Num(number) => add(known, number),
        Base::Var(_) => Ok(()),
    }
}

/// Adds the operands of a statement.
fn add_operands(known: &mut BTreeSet<i64>, stmt: Stmt) -> Result<(), AllocError>
    ensures { OnOk result ((rest : List ℤ) → known.old.keys ≡ rising rest → known.new.keys ≡ rising (operand_numbers stmt ++ rest)) }
{
    match stmt {
        Stmt::Compute { left, right, .. } => {
            add_base(known, right)?;
            add_base(known, left)
        }
        Stmt::Copy { from, .. } | Stmt::Write { from, .. } => add_base(known, from),
        Stmt::Call { arg, .. } => add_base(known, arg),
        Stmt::If { cond, .. } => add_base(known, cond),
        Stmt::Return { value } => add_base(known, value),
        _ => Ok(()),
    }
}

/// 0, 1 and the operands of statements, rising, each once.
pub(crate) fn constants_of(alloc: Global, body: &[Stmt]) -> Result<Items<i64>, AllocError>
    ensures { IfOk result (λ constants. constants ≡ rising (pos 0 ∷ pos 1 ∷ flat_map operand_numbers body.now)) }
{
    let mut known = BTreeSet::new(alloc);
    let count = body.len();
    for taken in 0..count {
        add_operands(&mut known, body[count - 1 - taken])?;
    }
    add(&mut known, 1)?;
    add(&mut known, 0)?;
    Ok(Items::from(collected(alloc, known)?))
}

fn collected(alloc: Global, known: BTreeSet<i64>) -> Result<Vec<i64>, AllocError>
    ensures { IfOk result (λ constants. constants.items ≡ known.keys) }
{
    known.into_iter().collect(alloc)
}
