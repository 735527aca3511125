//! Literals over trees, and the operands of a rule as trees.
ghost use Rattle.std.specs.Prelude.{◌≡◌, IfOk, true, false};
ghost use Rattle.rh_meaning.specs.Tree.{Leaf};
ghost use Rattle.rh_meaning.specs.Literal.{binding_tree, differs, equals, number_tree, operand, pointer_tree, unheld_tree, value_tree};
ghost use Rattle.rh_meaning.specs.View.{tree_of, lit_of};
ghost use Rattle.rh_rule.specs.Params.{kind_of};

use crate::tree::{Tree, kind_of_tree, select, unheld};
use rh_rule::{Kind, Param, RuleBase};
use rh_term::Term;
use std::alloc::{AllocError, Global};

/// That two trees are equal, or that they differ.
#[derive(Drop)]
pub struct TreeLit {
    /// The left tree.
    pub left: Tree,
    /// The right tree.
    pub right: Tree,
    /// Whether the literal is an equation.
    pub equal: bool,
}

/// A clause over trees.
#[derive(Drop)]
pub struct TreeClause {
    /// The literals, from left to right.
    pub lits: Vec<TreeLit>,
}

/// That the trees are equal.
pub fn equals(left: Tree, right: Tree) -> TreeLit
    ensures { lit_of result ≡ equals (tree_of left) (tree_of right) }
{
    TreeLit {
        left,
        right,
        equal: true,
    }
}

/// That the trees differ.
pub fn differs(left: Tree, right: Tree) -> TreeLit
    ensures { lit_of result ≡ differs (tree_of left) (tree_of right) }
{
    TreeLit {
        left,
        right,
        equal: false,
    }
}

/// That the value is a number.
pub fn is_number(alloc: Global, value: Tree) -> Result<TreeLit, AllocError>
    ensures { IfOk result (λ lit. lit_of lit ≡ number_tree (tree_of value)) }
{
    Ok(equals(kind_of_tree(alloc, value)?, Tree::Leaf(Term::IsNum)))
}

/// That the value is a pointer.
pub fn is_pointer(alloc: Global, value: Tree) -> Result<TreeLit, AllocError>
    ensures { IfOk result (λ lit. lit_of lit ≡ pointer_tree (tree_of value)) }
{
    Ok(equals(kind_of_tree(alloc, value)?, Tree::Leaf(Term::IsPtr)))
}

/// That no cell of the store holds the value.
pub fn is_unheld(alloc: Global, store: Tree, value: Tree) -> Result<TreeLit, AllocError>
    ensures { IfOk result (λ lit. lit_of lit ≡ unheld_tree (tree_of store) (tree_of value)) }
{
    Ok(equals(unheld(alloc, store, value)?, Tree::Leaf(Term::Yes)))
}

/// The kind of a metavariable.
pub fn kind_of(params: &[Param], meta: u32) -> Kind
    ensures { result ≡ kind_of params.now meta }
{
    match params.get(meta as usize) {
        Some(param) => param.kind,
        None => Kind::Const,
    }
}

/// What a metavariable is bound to: the address of a variable, or a number.
pub fn binding_tree(params: &[Param], meta: u32) -> Tree
    ensures { tree_of result ≡ binding_tree meta (kind_of params.now meta) }
{
    match kind_of(params, meta) {
        Kind::Var => Tree::Leaf(Term::Addr(meta)),
        Kind::Const => Tree::Leaf(Term::Cst(meta)),
    }
}

/// The value of an operand over a store.
pub fn operand(
    alloc: Global,
    params: &[Param],
    store: &Tree,
    base: RuleBase,
) -> Result<Tree, AllocError>
    ensures { IfOk result (λ tree. tree_of tree ≡ operand params.now (tree_of store.now) base) }
{
    match base {
        RuleBase::Meta(meta) => value_tree(alloc, store, meta, kind_of(params, meta)),
        RuleBase::Num(number) => Ok(Tree::Leaf(Term::Num(number))),
        RuleBase::Wild => Ok(Tree::Leaf(Term::Any)),
    }
}

fn value_tree(alloc: Global, store: &Tree, meta: u32, kind: Kind) -> Result<Tree, AllocError>
    ensures { IfOk result (λ tree. tree_of tree ≡ value_tree (tree_of store.now) meta kind) }
{
    match kind {
        Kind::Var => select(alloc, store.copy(alloc)?, Tree::Leaf(Term::Addr(meta))),
        Kind::Const => Ok(Tree::Leaf(Term::Cst(meta))),
    }
}
