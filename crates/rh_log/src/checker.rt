//! The checker.
ghost use Rattle.std.specs.Prelude.{◌≡◌, ◌↔◌, length, IfOk, IsTrue, MatchBool};
ghost use Rattle.std.specs.List.{All};
ghost use Rattle.rh_term.specs.Partition.{HasNoOpenPartition};
ghost use Rattle.rh_log.specs.Tree.{IsClosedTree, IsFalseAt, root};
ghost use Rattle.rh_log.specs.Branch.{AreLong, Follows, CannotFollow};

use crate::branch::expand;
use crate::log::{Log, LogNode};
use crate::truth::{is_true, width};
use rh_classes::Classes;
use rh_term::{Obligation, Terms};
use std::alloc::{AllocError, Global};
use std::collections::VecDeque;

/// Whether the log is a closed tree of the obligation. Then no partition is open.
pub fn check(alloc: Global, obligation: &Obligation, log: &Log) -> Result<bool, AllocError>
    ensures closed { IfOk result (λ yes. IsTrue yes ↔ IsClosedTree obligation.now.terms obligation.now.clauses log.now.nodes) }
    ensures refuted { IfOk result (λ yes. IsTrue yes → HasNoOpenPartition obligation.now.terms obligation.now.clauses) }
{
    let mut branches = root(alloc, &obligation.terms)?;
    for node in log.nodes.as_slice() {
        if !follow(alloc, obligation, *node, &mut branches)? {
            return Ok(false);
        }
    }
    Ok(branches.is_empty())
}

/// The root of a tree, as its one branch.
pub fn root(alloc: Global, terms: &Terms) -> Result<VecDeque<Classes>, AllocError>
    ensures { IfOk result (λ branches. branches.items ≡ root terms.now) }
{
    let mut branches = VecDeque::new(alloc);
    branches.push_front(Classes::new(alloc, terms)?)?;
    Ok(branches)
}

/// Puts the children of the node in the place of the first branch, where the node may stand there.
fn follow(
    alloc: Global,
    obligation: &Obligation,
    node: LogNode,
    branches: &mut VecDeque<Classes>,
) -> Result<bool, AllocError>
    requires { AreLong (length obligation.now.terms) branches.old.items }
    ensures { IfOk result (λ yes. MatchBool yes
        (Follows (IsFalseAt obligation.now.clauses) obligation.now.terms obligation.now.clauses node branches.old.items branches.new.items)
        (CannotFollow (IsFalseAt obligation.now.clauses) obligation.now.terms obligation.now.clauses node branches.old.items)) }
{
    let Some(classes) = branches.pop_front() else {
        return Ok(false);
    };
    let Some(clause) = obligation.clauses.copy_at(alloc, node.clause as usize)? else {
        return Ok(false);
    };
    if is_true(classes.labels(), &clause) || width(&clause) != node.children as usize {
        return Ok(false);
    }
    expand(alloc, &obligation.terms, &classes, &clause, branches)?;
    Ok(true)
}
