//! Terms as trees.
ghost use Rattle.std.specs.Prelude.{◌≡◌, IfOk};
ghost use Rattle.rh_meaning.specs.Tree.{Leaf, Select, Update, Compute, KindOf, Unheld};
ghost use Rattle.rh_meaning.specs.View.{tree_of};

use rh_il::Op;
use rh_term::Term;
use std::alloc::{AllocError, Global};

/// A term with its parts.
#[derive(Drop)]
pub enum Tree {
    /// A term without parts.
    Leaf(Term),
    /// What a store holds at an address.
    Select(Box<Tree>, Box<Tree>),
    /// A store with a value written at an address.
    Update(Box<Tree>, Box<Tree>, Box<Tree>),
    /// An operator between two values.
    Compute(Op, Box<Tree>, Box<Tree>),
    /// Whether a value is a number or a pointer.
    KindOf(Box<Tree>),
    /// Whether no cell of a store holds a value.
    Unheld(Box<Tree>, Box<Tree>),
}

/// What a store holds at an address.
pub fn select(alloc: Global, store: Tree, address: Tree) -> Result<Tree, AllocError>
    ensures { IfOk result (λ tree. tree_of tree ≡ Select (tree_of store) (tree_of address)) }
{
    Ok(Tree::Select(Box::new(alloc, store)?, Box::new(alloc, address)?))
}

/// A store with a value written at an address.
pub fn update(alloc: Global, store: Tree, address: Tree, value: Tree) -> Result<Tree, AllocError>
    ensures { IfOk result (λ tree. tree_of tree ≡ Update (tree_of store) (tree_of address) (tree_of value)) }
{
    Ok(Tree::Update(
        Box::new(alloc, store)?,
        Box::new(alloc, address)?,
        Box::new(alloc, value)?,
    ))
}

/// An operator between two values.
pub fn compute(alloc: Global, op: Op, left: Tree, right: Tree) -> Result<Tree, AllocError>
    ensures { IfOk result (λ tree. tree_of tree ≡ Compute op (tree_of left) (tree_of right)) }
{
    Ok(Tree::Compute(op, Box::new(alloc, left)?, Box::new(alloc, right)?))
}

/// Whether a value is a number or a pointer.
pub(crate) fn kind_of_tree(alloc: Global, value: Tree) -> Result<Tree, AllocError>
    ensures { IfOk result (λ tree. tree_of tree ≡ KindOf (tree_of value)) }
{
    Ok(Tree::KindOf(Box::new(alloc, value)?))
}

/// Whether no cell of a store holds a value.
pub fn unheld(alloc: Global, store: Tree, value: Tree) -> Result<Tree, AllocError>
    ensures { IfOk result (λ tree. tree_of tree ≡ Unheld (tree_of store) (tree_of value)) }
{
    Ok(Tree::Unheld(Box::new(alloc, store)?, Box::new(alloc, value)?))
}

impl Tree {
    /// The same tree once more.
    pub fn copy(&self, alloc: Global) -> Result<Tree, AllocError>
        ensures { IfOk result (λ copy. tree_of copy ≡ tree_of self.now) }
    {
        match self {
            Tree::Leaf(term) => Ok(Tree::Leaf(*term)),
            Tree::Select(store, address) => select(alloc, store.copy(alloc)?, address.copy(alloc)?),
            Tree::Update(store, address, value) => update(
                alloc,
                store.copy(alloc)?,
                address.copy(alloc)?,
                value.copy(alloc)?,
            ),
            Tree::Compute(op, left, right) => compute(
                alloc,
                *op,
                left.copy(alloc)?,
                right.copy(alloc)?,
            ),
            Tree::KindOf(value) => kind_of_tree(alloc, value.copy(alloc)?),
            Tree::Unheld(store, value) => unheld(alloc, store.copy(alloc)?, value.copy(alloc)?),
        }
    }
}
