//! The search.
ghost use Rattle.std.specs.Prelude.{◌≡◌, ◌<◌, ◌^◌, length, IfOk};
ghost use Rattle.rh_log.specs.Tree.{width};
ghost use Rattle.rh_refuter.specs.Choice.{AreNarrow, IsChosen, IsFound, IsDecided, Steps};

use crate::choice::chosen;
use rh_classes::Classes;
use rh_list::Items;
use rh_log::{Log, LogNode, expand, root, width};
use rh_term::{Clause, Obligation};
use std::alloc::{AllocError, Global};
use std::collections::VecDeque;

/// What a search ends with.
#[derive(Drop)]
pub enum Verdict {
    /// A closed tree: no partition is open.
    Closed(Log),
    /// The labels of an open partition.
    Open(Items<u32>),
}

/// Looks for a closed tree. At each branch it takes, of the clauses that are false there, the first of
/// those with the fewest equations, and goes on with the first child; a branch in which no clause is
/// false ends the search.
pub fn refute(alloc: Global, obligation: &Obligation) -> Result<Verdict, AllocError>
    requires few { length obligation.now.clauses < 2 ^ 32 }
    requires narrow { AreNarrow obligation.now.clauses }
    ensures found { IfOk result (IsFound obligation.now.terms obligation.now.clauses) }
    ensures decided { IfOk result (IsDecided obligation.now.terms obligation.now.clauses) }
{
    let _list = obligation.terms.len();
    let mut branches = root(alloc, &obligation.terms)?;
    let mut nodes = Vec::new(alloc);
    while let Some(classes) = branches.pop_front() {
        let Some(number) = chosen(&obligation.clauses, classes.labels()) else {
            return Ok(Verdict::Open(Vec::from_slice(alloc, classes.labels())?.into()));
        };
        nodes.push(advance(alloc, obligation, number, &classes, &mut branches)?)?;
    }
    Ok(Verdict::Closed(Log {
        nodes: nodes.into(),
    }))
}

/// Puts the children by the chosen clause in front of the branches, and gives the node for the log.
fn advance(
    alloc: Global,
    obligation: &Obligation,
    number: u32,
    classes: &Classes,
    branches: &mut VecDeque<Classes>,
) -> Result<LogNode, AllocError>
    requires list { length classes.now ≡ length obligation.now.terms }
    requires narrow { AreNarrow obligation.now.clauses }
    requires number { number < length obligation.now.clauses }
    requires chosen { IsChosen obligation.now.clauses classes.now number }
    ensures { IfOk result (λ node. Steps obligation.now.terms obligation.now.clauses classes.now node branches.old.items branches.new.items) }
{
    let Some(clause) = obligation.clauses.copy_at(alloc, number as usize)? else {
        unreachable!()
    };
    expand(alloc, &obligation.terms, classes, &clause, branches)?;
    Ok(node(number, &clause))
}

fn node(number: u32, clause: &Clause) -> LogNode
    requires { length clause.now.lits < 2 ^ 32 }
    ensures clause { result.clause ≡ number }
    ensures children { result.children ≡ width clause.now }
{
    LogNode {
        clause: number,
        children: width(clause) as u32,
    }
}
