//! Branches: partitions that are still to be closed.
ghost use Rattle.std.specs.Prelude.{◌≡◌, ◌<◌, ◌++◌, length, IfOk, IsTrue};
ghost use Rattle.std.specs.List.{All, AllZip};
ghost use Rattle.rh_term.specs.Clause.{is_within};
ghost use Rattle.rh_term.specs.Partition.{IsPartition};
ghost use Rattle.rh_classes.specs.Merge.{IsMerge};
ghost use Rattle.rh_log.specs.Tree.{equations};
ghost use Rattle.rh_log.specs.Branch.{AreWithin, Grows};

use rh_classes::Classes;
use rh_term::{Clause, Lit, Terms};
use std::alloc::{AllocError, Global};
use std::collections::VecDeque;

/// The classes, with the terms of a literal merged.
fn child(alloc: Global, terms: &Terms, classes: &Classes, lit: Lit) -> Result<Classes, AllocError>
    requires list { length classes.now ≡ length terms.now }
    requires left { lit.left < length terms.now }
    requires right { lit.right < length terms.now }
    ensures { IfOk result (IsMerge terms.now classes.now lit.left lit.right) }
{
    let mut child = classes.copy(alloc)?;
    child.merge(terms, lit.left, lit.right);
    Ok(child)
}

/// Puts the children of a node in front of the branches, one for each equation of its clause, in order.
pub fn expand(
    alloc: Global,
    terms: &Terms,
    classes: &Classes,
    clause: &Clause,
    branches: &mut VecDeque<Classes>,
) -> Result<(), AllocError>
    requires list { length classes.now ≡ length terms.now }
    requires within { AreWithin (length terms.now) clause.now }
    ensures { IfOk result (λ _. Grows terms.now classes.now (equations clause.now) branches.old.items branches.new.items) }
{
    let lits = clause.lits.as_slice();
    for at in (0..lits.len()).rev() {
        let lit = lits[at];
        if lit.equal {
            branches.push_front(child(alloc, terms, classes, lit)?)?;
        }
    }
    Ok(())
}
