//! The depths at which nodes of a tree are awaited.
ghost use Rattle.std.specs.Prelude.{◌≡◌, ◌==◌, ◌++◌, None, Some, IfOk, MatchBool, OnOk, length};
ghost use Rattle.std.specs.Prelude.{replicate};
ghost use Rattle.std.specs.List.{AllByRecursion};
ghost use Rattle.rh_log_text.specs.Levels.{HasSome, depths_of};
ghost use Rattle.rh_log_text.specs.Tree.{awaited_after, root};

use std::alloc::{AllocError, Global};
use std::marker::Model;

/// The most nodes from the root of a tree to a leaf.
const MOST_DEPTH: u32 = 512;

/// So many nodes are awaited at a depth.
#[derive(Clone, Copy)]
pub(crate) struct Level {
    depth: u32,
    count: u32,
}

/// The nodes that are awaited, the deepest, which come first, at the end.
#[derive(Drop)]
pub(crate) struct Waiting {
    levels: Vec<Level>,
}

impl Model for Waiting {
    ghost use Rattle.std.specs.Prelude.{ℕ, List};
    ghost use Rattle.std.specs.List.{AllByRecursion};
    ghost use Rattle.rh_log_text.specs.Levels.{depths_of, HasSome};

    ghost Value = { List ℕ };

    ghost view = { λ a. depths_of a.levels.items };

    ghost invariant = { λ a. AllByRecursion HasSome a.levels.items };
}

impl Waiting {
    /// The root is awaited.
    pub fn root(alloc: Global) -> Result<Self, AllocError>
        ensures { IfOk result (λ waiting. waiting ≡ root) }
    {
        Ok(Waiting {
            levels: vec![in alloc; Level { depth: 1, count: 1 }]?,
        })
    }

    /// Awaits the children of the next node in its place, where that node is awaited and not too deep.
    pub fn take(&mut self, children: u32) -> Result<bool, AllocError>
        ensures { IfOk result (λ fits. MatchBool fits (awaited_after self.old children ≡ Some self.new) (awaited_after self.old children ≡ None)) }
    {
        let Some(next) = self.levels.pop() else {
            return Ok(false);
        };
        if next.depth > MOST_DEPTH {
            return Ok(false);
        }
        push_level(&mut self.levels, next.depth, next.count - 1)?;
        push_level(&mut self.levels, next.depth + 1, children)?;
        Ok(true)
    }

    /// Whether no node is awaited.
    pub fn is_empty(&self) -> bool
        ensures { result ≡ (length self.now == 0) }
    {
        self.levels.is_empty()
    }
}

/// Puts a level behind the others, where it has some.
fn push_level(levels: &mut Vec<Level>, depth: u32, count: u32) -> Result<(), AllocError>
    ensures depths { OnOk result (depths_of levels.new.items ≡ replicate count depth ++ depths_of levels.old.items) }
    ensures has { AllByRecursion HasSome levels.old.items → AllByRecursion HasSome levels.new.items }
{
    if count > 0 {
        levels.push(Level { depth, count })?;
    }
    Ok(())
}
