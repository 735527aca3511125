//! The list of terms of an obligation.
ghost use Rattle.std.specs.Prelude.{◌≡◌, ◌+◌, ◌<◌, ◌^◌, [], IfOk, OnOk, length, map};
ghost use Rattle.std.specs.List.{AllByRecursion, flat_map, range_with_len};
ghost use Rattle.rh_rule.specs.Params.{kind_of};
ghost use Rattle.rh_meaning.specs.Sorts.{IsSorted};
ghost use Rattle.rh_meaning.specs.Literal.{clause_trees, literal_trees};
ghost use Rattle.rh_meaning.specs.Tree.{Leaf};
ghost use Rattle.rh_meaning.specs.View.{clauses_of, lit_of, lits_of};
ghost use Rattle.rh_goals.specs.Few.{trees_size};
ghost use Rattle.rh_oblig.specs.TermList.{binding_leaf, first_leaf, first_trees, leaves_of, term_list, with_trees};

use crate::closing::{add_all, close};
use rh_meaning::{TreeClause, TreeLit, add_tree, kind_of};
use rh_rule::{Form, Kind, Param};
use rh_term::{Term, Terms};
use std::alloc::{AllocError, Global};

/// The terms that are always there, those of the hypotheses and of the goal, and those to which they lead.
pub(crate) fn term_list(
    alloc: Global,
    params: &[Param],
    pattern: Form,
    hypotheses: &[TreeClause],
    goal: &TreeLit,
) -> Result<Terms, AllocError>
    requires few { length params.now < 2 ^ 32 }
    requires hypotheses { AllByRecursion IsSorted (flat_map clause_trees (clauses_of hypotheses.now)) }
    requires goal { AllByRecursion IsSorted (literal_trees (lit_of goal.now)) }
    requires room { trees_size (first_trees params.now pattern (clauses_of hypotheses.now) (lit_of goal.now)) < 2 ^ 29 }
    ensures { IfOk result (λ terms. terms ≡ term_list params.now pattern (clauses_of hypotheses.now) (lit_of goal.now)) }
{
    let mut terms = Terms::new(alloc);
    add_leaves(alloc, &mut terms, params, pattern)?;
    add_clauses(&mut terms, hypotheses)?;
    add_lit(&mut terms, goal)?;
    close(alloc, &mut terms)?;
    Ok(terms)
}

fn add_leaves(
    alloc: Global,
    terms: &mut Terms,
    params: &[Param],
    pattern: Form,
) -> Result<(), AllocError>
    requires few { length params.now < 2 ^ 32 }
    requires room { length terms.old + trees_size (map Leaf (leaves_of params.now pattern)) < 2 ^ 32 }
    ensures { OnOk result (terms.new ≡ with_trees terms.old (map Leaf (leaves_of params.now pattern))) }
{
    add_all(terms, leaves_of(alloc, params, pattern)?.as_slice())
}

/// The terms that are always there.
fn leaves_of(alloc: Global, params: &[Param], pattern: Form) -> Result<Vec<Term>, AllocError>
    requires { length params.now < 2 ^ 32 }
    ensures { IfOk result (λ leaves. leaves.items ≡ leaves_of params.now pattern) }
{
    let mut leaves = vec![in alloc;
        Term::Num(0),
        Term::Num(1),
        Term::IsNum,
        Term::IsPtr,
        Term::Yes,
    ]?;
    leaves.extend_from_slice(binding_leaves(alloc, params)?.as_slice())?;
    leaves.push(first_leaf(pattern))?;
    Ok(leaves)
}

fn binding_leaves(alloc: Global, params: &[Param]) -> Result<Vec<Term>, AllocError>
    requires { length params.now < 2 ^ 32 }
    ensures { IfOk result (λ leaves. leaves.items
        ≡ map (λ meta. binding_leaf meta (kind_of params.now meta)) (range_with_len 0 (length params.now))) }
{
    (0..params.len() as u32)
        .map(|meta| binding_leaf(meta, kind_of(params, meta)))
        .collect(alloc)
}

fn binding_leaf(meta: u32, kind: Kind) -> Term
    ensures { result ≡ binding_leaf meta kind }
{
    match kind {
        Kind::Var => Term::Addr(meta),
        Kind::Const => Term::Cst(meta),
    }
}

/// The store with which the pattern begins.
fn first_leaf(pattern: Form) -> Term
    ensures { result ≡ first_leaf pattern }
{
    match pattern {
        Form::Entry(_) => Term::Start,
        _ => Term::Before,
    }
}

fn add_clauses(terms: &mut Terms, clauses: &[TreeClause]) -> Result<(), AllocError>
    requires sorted { AllByRecursion IsSorted (flat_map clause_trees (clauses_of clauses.now)) }
    requires room { length terms.old + trees_size (flat_map clause_trees (clauses_of clauses.now)) < 2 ^ 32 }
    ensures { OnOk result (terms.new ≡ with_trees terms.old (flat_map clause_trees (clauses_of clauses.now))) }
{
    for clause in clauses {
        add_lits(terms, clause.lits.as_slice())?;
    }
    Ok(())
}

fn add_lits(terms: &mut Terms, lits: &[TreeLit]) -> Result<(), AllocError>
    requires sorted { AllByRecursion IsSorted (flat_map literal_trees (lits_of lits.now)) }
    requires room { length terms.old + trees_size (flat_map literal_trees (lits_of lits.now)) < 2 ^ 32 }
    ensures { OnOk result (terms.new ≡ with_trees terms.old (flat_map literal_trees (lits_of lits.now))) }
{
    for lit in lits {
        add_lit(terms, lit)?;
    }
    Ok(())
}

fn add_lit(terms: &mut Terms, lit: &TreeLit) -> Result<(), AllocError>
    requires sorted { AllByRecursion IsSorted (literal_trees (lit_of lit.now)) }
    requires room { length terms.old + trees_size (literal_trees (lit_of lit.now)) < 2 ^ 32 }
    ensures { OnOk result (terms.new ≡ with_trees terms.old (literal_trees (lit_of lit.now))) }
{
    add_tree(terms, &lit.left)?;
    add_tree(terms, &lit.right)
}
