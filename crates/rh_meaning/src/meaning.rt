//! Meanings of facts as literals over a store.
ghost use Rattle.std.specs.Prelude.{◌≡◌, IfOk, map};
ghost use Rattle.rh_meaning.specs.Meaning.{address_at, arg_at, atom_literal, fact_literals, meaning_operand, meaning_tree, meta_of};
ghost use Rattle.rh_meaning.specs.View.{tree_of, lit_of, lits_of};

use crate::literal::{TreeLit, differs, equals, is_number, is_pointer, is_unheld, operand};
use crate::tree::{Tree, compute, select};
use rh_rule::{FactUse, MeaningAtom, MeaningBase, MeaningTerm, Param, RuleBase, Schema};
use rh_term::Term;
use std::alloc::{AllocError, Global};

/// The literals of a fact's atoms over a store, in their order.
pub fn fact_literals(
    alloc: Global,
    schemas: &[Schema],
    params: &[Param],
    store: &Tree,
    fact: &FactUse,
) -> Result<Vec<TreeLit>, AllocError>
    ensures { IfOk result (λ lits. lits_of lits.items ≡ fact_literals schemas.now params.now (tree_of store.now) fact.now) }
{
    match schemas.get(fact.schema as usize) {
        Some(schema) => atom_literals(
            alloc,
            params,
            fact.args.as_slice(),
            store,
            schema.meaning.as_slice(),
        ),
        None => Ok(Vec::new(alloc)),
    }
}

fn atom_literals(
    alloc: Global,
    params: &[Param],
    args: &[RuleBase],
    store: &Tree,
    atoms: &[MeaningAtom],
) -> Result<Vec<TreeLit>, AllocError>
    ensures { IfOk result (λ lits. lits_of lits.items ≡ map (atom_literal params.now args.now (tree_of store.now)) atoms.now) }
{
    let mut lits = Vec::with_capacity(alloc, atoms.len())?;
    for atom in atoms {
        lits.push(atom_literal(alloc, params, args, store, *atom)?)?;
    }
    Ok(lits)
}

fn atom_literal(
    alloc: Global,
    params: &[Param],
    args: &[RuleBase],
    store: &Tree,
    atom: MeaningAtom,
) -> Result<TreeLit, AllocError>
    ensures { IfOk result (λ lit. lit_of lit ≡ atom_literal params.now args.now (tree_of store.now) atom) }
{
    match atom {
        MeaningAtom::Same(left, right) => Ok(equals(
            meaning_tree(alloc, params, args, store, left)?,
            meaning_tree(alloc, params, args, store, right)?,
        )),
        MeaningAtom::Differ(left, right) => Ok(differs(
            meaning_tree(alloc, params, args, store, left)?,
            meaning_tree(alloc, params, args, store, right)?,
        )),
        MeaningAtom::IsNumber(term) => is_number(
            alloc,
            meaning_tree(alloc, params, args, store, term)?,
        ),
        MeaningAtom::IsPointer(term) => is_pointer(
            alloc,
            meaning_tree(alloc, params, args, store, term)?,
        ),
        MeaningAtom::Unaliased(param) => is_unheld(
            alloc,
            store.copy(alloc)?,
            address_at(args, param),
        ),
    }
}

/// A value that a meaning speaks of, with the arguments in the place of the parameters.
fn meaning_tree(
    alloc: Global,
    params: &[Param],
    args: &[RuleBase],
    store: &Tree,
    term: MeaningTerm,
) -> Result<Tree, AllocError>
    ensures { IfOk result (λ tree. tree_of tree ≡ meaning_tree params.now args.now (tree_of store.now) term) }
{
    match term {
        MeaningTerm::Plain(base) => meaning_operand(alloc, params, args, store, base),
        MeaningTerm::Address(param) => Ok(address_at(args, param)),
        MeaningTerm::Deref(param) => {
            let value = select(alloc, store.copy(alloc)?, address_at(args, param))?;
            select(alloc, store.copy(alloc)?, value)
        }
        MeaningTerm::Compute(op, left, right) => compute(
            alloc,
            op,
            meaning_operand(alloc, params, args, store, left)?,
            meaning_operand(alloc, params, args, store, right)?,
        ),
    }
}

fn meaning_operand(
    alloc: Global,
    params: &[Param],
    args: &[RuleBase],
    store: &Tree,
    base: MeaningBase,
) -> Result<Tree, AllocError>
    ensures { IfOk result (λ tree. tree_of tree ≡ meaning_operand params.now args.now (tree_of store.now) base) }
{
    match base {
        MeaningBase::Param(param) => operand(alloc, params, store, arg_at(args, param)),
        MeaningBase::Num(number) => Ok(Tree::Leaf(Term::Num(number))),
    }
}

fn address_at(args: &[RuleBase], param: u32) -> Tree
    ensures { tree_of result ≡ address_at args.now param }
{
    Tree::Leaf(Term::Addr(meta_at(args, param)))
}

/// The metavariable that an argument is.
pub(crate) fn meta_at(args: &[RuleBase], param: u32) -> u32
    ensures { result ≡ meta_of (arg_at args.now param) }
{
    match arg_at(args, param) {
        RuleBase::Meta(meta) => meta,
        _ => 0,
    }
}

/// The argument in the place of a parameter.
pub(crate) fn arg_at(args: &[RuleBase], param: u32) -> RuleBase
    ensures { result ≡ arg_at args.now param }
{
    match args.get(param as usize) {
        Some(arg) => *arg,
        None => RuleBase::Wild,
    }
}
