//! Trees in a list of terms.
ghost use Rattle.std.specs.Prelude.{◌≡◌, ◌<◌, ◌≤◌, ◌+◌, ◌^◌, length, OnOk};
ghost use Rattle.rh_meaning.specs.Sorts.{IsIn, IsSorted, tree_size};
ghost use Rattle.rh_meaning.specs.Tree.{place_of, tree_place, with_term, with_tree};
ghost use Rattle.rh_meaning.specs.View.{tree_of};
ghost use Rattle.rh_term.specs.Term.{HasParts, IsTermList};

use crate::tree::Tree;
use rh_term::{Term, Terms};
use std::alloc::AllocError;

/// Puts what is not in the list of a tree behind it, each term after its parts.
pub fn add_tree(terms: &mut Terms, tree: &Tree) -> Result<(), AllocError>
    requires sorted { IsSorted (tree_of tree.now) }
    requires room { length terms.old + tree_size (tree_of tree.now) < 2 ^ 32 }
    ensures added { OnOk result (terms.new ≡ with_tree terms.old (tree_of tree.now)) }
    ensures few { OnOk result (length terms.new ≤ length terms.old + tree_size (tree_of tree.now)) }
{
    match tree {
        Tree::Leaf(term) => add(terms, *term),
        Tree::Select(store, address) => {
            let (store, address): (&Tree, &Tree) = (store, address);
            add_tree(terms, store)?;
            add_tree(terms, address)?;
            let term = Term::Sel(tree_place(terms, store), tree_place(terms, address));
            add(terms, term)
        }
        Tree::Update(store, address, value) => {
            let (store, address, value): (&Tree, &Tree, &Tree) = (store, address, value);
            add_tree(terms, store)?;
            add_tree(terms, address)?;
            add_tree(terms, value)?;
            let term = Term::Upd(
                tree_place(terms, store),
                tree_place(terms, address),
                tree_place(terms, value),
            );
            add(terms, term)
        }
        Tree::Compute(op, left, right) => {
            let (left, right): (&Tree, &Tree) = (left, right);
            add_tree(terms, left)?;
            add_tree(terms, right)?;
            let term = Term::Op(*op, tree_place(terms, left), tree_place(terms, right));
            add(terms, term)
        }
        Tree::KindOf(value) => {
            let value: &Tree = value;
            add_tree(terms, value)?;
            let term = Term::Kind(tree_place(terms, value));
            add(terms, term)
        }
        Tree::Unheld(store, value) => {
            let (store, value): (&Tree, &Tree) = (store, value);
            add_tree(terms, store)?;
            add_tree(terms, value)?;
            let term = Term::Una(tree_place(terms, store), tree_place(terms, value));
            add(terms, term)
        }
    }
}

/// The place of a tree that stands in the list.
pub fn tree_place(terms: &Terms, tree: &Tree) -> u32
    requires { IsIn terms.now (tree_of tree.now) }
    ensures { result ≡ tree_place terms.now (tree_of tree.now) }
{
    let term = match tree {
        Tree::Leaf(term) => *term,
        Tree::Select(store, address) => Term::Sel(
            tree_place(terms, store),
            tree_place(terms, address),
        ),
        Tree::Update(store, address, value) => Term::Upd(
            tree_place(terms, store),
            tree_place(terms, address),
            tree_place(terms, value),
        ),
        Tree::Compute(op, left, right) => Term::Op(
            *op,
            tree_place(terms, left),
            tree_place(terms, right),
        ),
        Tree::KindOf(value) => Term::Kind(tree_place(terms, value)),
        Tree::Unheld(store, value) => Term::Una(tree_place(terms, store), tree_place(terms, value)),
    };
    place_of(terms, term)
}

/// The place of a term that stands in the list.
fn place_of(terms: &Terms, term: Term) -> u32
    requires { place_of terms.now term < length terms.now }
    ensures { result ≡ place_of terms.now term }
{
    is_term_list(terms);
    match terms.find(term) {
        Some(place) => place,
        None => unreachable!(),
    }
}

/// Puts a term behind the list where it is not in it.
pub fn add(terms: &mut Terms, term: Term) -> Result<(), AllocError>
    requires parts { HasParts terms.old term }
    requires room { length terms.old + 1 < 2 ^ 32 }
    ensures added { OnOk result (terms.new ≡ with_term terms.old term) }
    ensures few { OnOk result (length terms.new ≤ length terms.old + 1) }
{
    terms.add(term)?;
    is_term_list(terms);
    Ok(())
}

/// The type keeps its list so.
pub(crate) fn is_term_list(terms: &Terms)
    ensures { IsTermList terms.now }
{
    let _ = terms.len();
}
