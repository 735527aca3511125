//! Which edges enter each statement of a procedure.
ghost use Rattle.std.specs.Prelude.{◌≡◌, ◌^◌, ◌<◌, ℕ, Some, [], length, slice_get, slice_index_or, IfOk, OnOk};
ghost use Rattle.rh_il.specs.Flow.{edges_of};
ghost use Rattle.rh_layout.specs.Entering.{AreEntering, with_number};

use rh_il::{Edge, Proc, Program};
use rh_list::Items;
use std::alloc::{AllocError, AllocFailed, Global};

/// So many empty lists.
fn empty_lists(alloc: Global, count: usize) -> Result<Vec<Items<u32>>, AllocError>
    ensures many { IfOk result (λ lists. length lists.items ≡ count) }
    ensures empty { IfOk result (λ lists. (number : ℕ) → slice_index_or lists.items number [] ≡ []) }
{
    let mut lists = Vec::new(alloc);
    for _ in 0..count {
        lists.push(Items::new(alloc))?;
    }
    Ok(lists)
}

/// Adds a number to the list of a target, where there is one.
fn add(
    entering: &mut Vec<Items<u32>>,
    target: Option<u32>,
    number: u32,
) -> Result<(), AllocFailed<u32>>
    ensures { OnOk result (entering.new.items ≡ with_number target number entering.old.items) }
{
    let Some(target) = target else {
        return Ok(());
    };
    let place = target as usize;
    if place < entering.len() {
        entering[place].push(number)?;
    }
    Ok(())
}

/// For each statement of the procedure with a number the numbers of the edges that enter it. It takes one step for
/// each edge and each statement.
pub(crate) fn entering_numbers(
    alloc: Global,
    program: &Program,
    number: u32,
    proc: &Proc,
    edges: &[Edge],
) -> Result<Items<Items<u32>>, AllocError>
    requires proc { slice_get program.now number ≡ Some proc.now }
    requires edges { edges.now ≡ edges_of proc.now }
    requires few { length edges.now < 2 ^ 32 }
    ensures { IfOk result (AreEntering proc.now) }
{
    let mut entering = empty_lists(alloc, proc.body.len())?;
    for (place, edge) in edges.iter().enumerate() {
        let target = program.target(number, *edge);
        add(&mut entering, target, place as u32)?;
    }
    Ok(Items::from(entering))
}
