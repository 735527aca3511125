//! What a form of statement says of its own in a propagation rule.
ghost use Rattle.std.specs.Prelude.{◌≡◌, ◌++◌, ◌<◌, ◌^◌, [], ◌∷◌, IfOk, OnOk, filter, map, not, ◌==◌, length};
ghost use Rattle.std.specs.List.{flat_map};
ghost use Rattle.rh_meaning.specs.Literal.{differs};
ghost use Rattle.rh_meaning.specs.Tree.{Leaf, Unheld};
ghost use Rattle.rh_meaning.specs.View.{clauses_of, lit_of, tree_of};
ghost use Rattle.rh_goals.specs.Hypotheses.{call_clauses_of, entry_clauses, local_clause, new_clauses, own_clauses, var_metas};
ghost use Rattle.rh_goals.specs.Statement.{address, before};
ghost use Rattle.rh_term.specs.declared.term.Term.TheVariants.{Fresh, Yes};

use crate::hypothesis_list::{push_clause, push_unit};
use crate::statement::{address, before, variable};
use rh_meaning::{
    Tree, TreeClause, TreeLit, differs, equals, is_pointer, is_unheld, kind_of, select, unheld,
};
use rh_rule::{Form, Kind, Param};
use rh_term::Term;
use std::alloc::{AllocError, Global};

pub(crate) fn push_own_clauses(
    alloc: Global,
    clauses: &mut Vec<TreeClause>,
    params: &[Param],
    pattern: Form,
) -> Result<(), AllocError>
    requires { length params.now < 2 ^ 32 }
    ensures { OnOk result (clauses_of clauses.new.items ≡ clauses_of clauses.old.items ++ own_clauses params.now pattern) }
{
    match pattern {
        Form::New { .. } => push_new_clauses(alloc, clauses, var_metas(alloc, params)?.as_slice()),
        Form::Call { .. } => push_call_clauses(
            alloc,
            clauses,
            var_metas(alloc, params)?.as_slice(),
        ),
        Form::Entry(param) => push_entry_clauses(
            alloc,
            clauses,
            var_metas(alloc, params)?.as_slice(),
            param,
        ),
        _ => Ok(()),
    }
}

/// The metavariables that are bound to variables.
fn var_metas(alloc: Global, params: &[Param]) -> Result<Vec<u32>, AllocError>
    requires { length params.now < 2 ^ 32 }
    ensures { IfOk result (λ metas. metas.items ≡ var_metas params.now) }
{
    (0..params.len() as u32)
        .filter(|meta| kind_of(params, *meta) == Kind::Var)
        .collect(alloc)
}

/// What a new cell is: no cell holds the pointer to it, it holds 0, and it is no variable.
fn push_new_clauses(
    alloc: Global,
    clauses: &mut Vec<TreeClause>,
    metas: &[u32],
) -> Result<(), AllocError>
    ensures { OnOk result (clauses_of clauses.new.items ≡ clauses_of clauses.old.items ++ new_clauses metas.now) }
{
    push_unit(alloc, clauses, is_pointer(alloc, fresh())?)?;
    push_unit(alloc, clauses, is_unheld(alloc, before(), fresh())?)?;
    let held = select(alloc, before(), fresh())?;
    push_unit(alloc, clauses, equals(held, Tree::Leaf(Term::Num(0))))?;
    push_no_variables(alloc, clauses, metas)
}

fn fresh() -> Tree
    ensures { tree_of result ≡ Leaf Fresh }
{
    Tree::Leaf(Term::Fresh)
}

fn push_no_variables(
    alloc: Global,
    clauses: &mut Vec<TreeClause>,
    metas: &[u32],
) -> Result<(), AllocError>
    ensures { OnOk result (clauses_of clauses.new.items
        ≡ clauses_of clauses.old.items ++ map (λ meta. differs (Leaf Fresh) (address meta) ∷ []) metas.now) }
{
    for meta in metas {
        push_unit(alloc, clauses, differs(fresh(), address(*meta)))?;
    }
    Ok(())
}

/// What a call leaves of a variable to which no cell pointed.
fn push_call_clauses(
    alloc: Global,
    clauses: &mut Vec<TreeClause>,
    metas: &[u32],
) -> Result<(), AllocError>
    ensures { OnOk result (clauses_of clauses.new.items ≡ clauses_of clauses.old.items ++ flat_map call_clauses_of metas.now) }
{
    for meta in metas {
        push_kept(alloc, clauses, *meta)?;
    }
    Ok(())
}

/// Its value, that no cell points to it, and that the answer does not either.
fn push_kept(alloc: Global, clauses: &mut Vec<TreeClause>, meta: u32) -> Result<(), AllocError>
    ensures { OnOk result (clauses_of clauses.new.items ≡ clauses_of clauses.old.items ++ call_clauses_of meta) }
{
    let value = select(alloc, Tree::Leaf(Term::After), address(meta))?;
    let same = equals(value, variable(alloc, meta)?);
    push_clause(clauses, vec![in alloc; escaped(alloc, meta)?, same]?)?;
    let unheld = is_unheld(alloc, Tree::Leaf(Term::After), address(meta))?;
    push_clause(clauses, vec![in alloc; escaped(alloc, meta)?, unheld]?)?;
    let other = differs(Tree::Leaf(Term::Answer), address(meta));
    push_clause(clauses, vec![in alloc; escaped(alloc, meta)?, other]?)
}

/// That some cell pointed to the variable.
fn escaped(alloc: Global, meta: u32) -> Result<TreeLit, AllocError>
    ensures { IfOk result (λ lit. lit_of lit ≡ differs (Unheld before (address meta)) (Leaf Yes)) }
{
    Ok(differs(
        unheld(alloc, before(), address(meta))?,
        Tree::Leaf(Term::Yes),
    ))
}

/// What a procedure begins with: no cell points to its variables, and its locals are 0.
fn push_entry_clauses(
    alloc: Global,
    clauses: &mut Vec<TreeClause>,
    metas: &[u32],
    param: u32,
) -> Result<(), AllocError>
    ensures { OnOk result (clauses_of clauses.new.items ≡ clauses_of clauses.old.items ++ entry_clauses metas.now param) }
{
    for meta in metas {
        push_unit(
            alloc,
            clauses,
            is_unheld(alloc, Tree::Leaf(Term::Start), address(*meta))?,
        )?;
    }
    push_locals(alloc, clauses, metas, param)
}

fn push_locals(
    alloc: Global,
    clauses: &mut Vec<TreeClause>,
    metas: &[u32],
    param: u32,
) -> Result<(), AllocError>
    ensures { OnOk result (clauses_of clauses.new.items ≡ clauses_of clauses.old.items ++ map (local_clause param) (filter (λ meta. not (meta == param)) metas.now)) }
{
    for meta in metas {
        if *meta != param {
            let value = select(alloc, Tree::Leaf(Term::Start), address(*meta))?;
            let lits = vec![in alloc;
                equals(address(*meta), address(param)),
                equals(value, Tree::Leaf(Term::Num(0))),
            ]?;
            push_clause(clauses, lits)?;
        }
    }
    Ok(())
}
