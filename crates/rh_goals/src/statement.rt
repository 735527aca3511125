//! What a statement of a form needs to step, and what it makes of the store.
ghost use Rattle.std.specs.Prelude.{◌≡◌, IfOk};
ghost use Rattle.rh_meaning.specs.Tree.{Update};
ghost use Rattle.rh_meaning.specs.View.{tree_of, lit_of, lits_of};
ghost use Rattle.rh_goals.specs.Statement.{address, before, operator_literals, step_literals, store_after, value, variable};

use rh_il::Op;
use rh_meaning::{Tree, TreeLit, compute, is_number, is_pointer, operand, select, update};
use rh_rule::{Form, Param, RuleBase};
use rh_term::Term;
use std::alloc::{AllocError, Global};

/// The store before the step.
pub(crate) const fn before() -> Tree
    ensures { tree_of result ≡ before }
{
    Tree::Leaf(Term::Before)
}

pub(crate) fn address(meta: u32) -> Tree
    ensures { tree_of result ≡ address meta }
{
    Tree::Leaf(Term::Addr(meta))
}

/// The value of a variable before the step.
pub(crate) fn variable(alloc: Global, meta: u32) -> Result<Tree, AllocError>
    ensures { IfOk result (λ tree. tree_of tree ≡ variable meta) }
{
    select(alloc, before(), address(meta))
}

/// An operand before the step.
pub(crate) fn value(alloc: Global, params: &[Param], base: RuleBase) -> Result<Tree, AllocError>
    ensures { IfOk result (λ tree. tree_of tree ≡ value params.now base) }
{
    operand(alloc, params, &before(), base)
}

/// What has to hold for a statement of the form to step.
pub(crate) fn step_literals(
    alloc: Global,
    params: &[Param],
    form: Form,
) -> Result<Vec<TreeLit>, AllocError>
    ensures { IfOk result (λ lits. lits_of lits.items ≡ step_literals params.now form) }
{
    match form {
        Form::Load { from: pointer, .. } | Form::Write { to: pointer, .. } => {
            Ok(vec![in alloc; is_pointer(alloc, variable(alloc, pointer)?)?]?)
        }
        Form::Compute {
            op,
            left,
            right,
            ..
        } => operator_literals(
            alloc,
            op,
            value(alloc, params, left)?,
            value(alloc, params, right)?,
        ),
        Form::If(cond) => Ok(vec![in alloc; is_number(alloc, value(alloc, params, cond)?)?]?),
        _ => Ok(Vec::new(alloc)),
    }
}

/// What the operator needs of its operands: numbers, but for `==`.
fn operator_literals(
    alloc: Global,
    op: Op,
    left: Tree,
    right: Tree,
) -> Result<Vec<TreeLit>, AllocError>
    ensures { IfOk result (λ lits. lits_of lits.items ≡ operator_literals op (tree_of left) (tree_of right)) }
{
    match op {
        Op::Equal => Ok(Vec::new(alloc)),
        _ => Ok(vec![in alloc; is_number(alloc, left)?, is_number(alloc, right)?]?),
    }
}

/// The store after a statement of the form.
pub(crate) fn store_after(alloc: Global, params: &[Param], form: Form) -> Result<Tree, AllocError>
    ensures { IfOk result (λ tree. tree_of tree ≡ store_after params.now form) }
{
    match form {
        Form::Assign { to, from } => sets(alloc, to, value(alloc, params, from)?),
        Form::AnyAssign { to } => sets(alloc, to, Tree::Leaf(Term::Any)),
        Form::Address { to, of } => sets(alloc, to, address(of)),
        Form::Load { to, from } => sets(
            alloc,
            to,
            select(alloc, before(), variable(alloc, from)?)?,
        ),
        Form::Compute {
            to,
            op,
            left,
            right,
        } => {
            let result = compute(
                alloc,
                op,
                value(alloc, params, left)?,
                value(alloc, params, right)?,
            )?;
            sets(alloc, to, result)
        }
        Form::Write { to, from } => update(
            alloc,
            before(),
            variable(alloc, to)?,
            value(alloc, params, from)?,
        ),
        Form::New { to } => sets(alloc, to, Tree::Leaf(Term::Fresh)),
        Form::Call { to, .. } => update(
            alloc,
            Tree::Leaf(Term::After),
            address(to),
            Tree::Leaf(Term::Answer),
        ),
        Form::Entry(_) => Ok(Tree::Leaf(Term::Start)),
        Form::Goto | Form::Skip | Form::If(_) | Form::Return(_) => Ok(before()),
    }
}

/// The store before, with a value in a variable.
fn sets(alloc: Global, to: u32, value: Tree) -> Result<Tree, AllocError>
    ensures { IfOk result (λ tree. tree_of tree ≡ Update before (address to) (tree_of value)) }
{
    update(alloc, before(), address(to), value)
}
