//! What an obligation of a rule may take for granted.
ghost use Rattle.std.specs.Prelude.{◌≡◌, ◌++◌, [], ◌∷◌, ◌<◌, ◌^◌, IfOk, OnOk, map, length};
ghost use Rattle.std.specs.List.{flat_map};
ghost use Rattle.rh_meaning.specs.Meaning.{fact_literals};
ghost use Rattle.rh_meaning.specs.View.{tree_of, lit_of, lits_of, clauses_of};
ghost use Rattle.rh_goals.specs.Hypotheses.{conclusion_clauses, hypotheses, side_literal, side_operand, side_tree, slot_literals, units};
ghost use Rattle.rh_goals.specs.Statement.{before};

use crate::own::push_own_clauses;
use crate::statement::{before, step_literals, value};
use rh_il::Slot;
use rh_meaning::{
    Tree, TreeClause, TreeLit, binding_tree, compute, differs, equals, fact_literals,
};
use rh_rule::{Conclusion, FactUse, Form, Param, Rule, RuleBase, Schema, Side, SideTerm};
use rh_term::Term;
use std::alloc::{AllocError, Global};

/// The hypotheses of all obligations of a rule, in their order.
pub fn hypotheses(
    alloc: Global,
    schemas: &[Schema],
    rule: &Rule,
) -> Result<Vec<TreeClause>, AllocError>
    requires { length rule.now.params < 2 ^ 32 }
    ensures { IfOk result (λ clauses. clauses_of clauses.items ≡ hypotheses schemas.now rule.now) }
{
    let params = rule.params.as_slice();
    let mut clauses = Vec::new(alloc);
    push_premises(
        alloc,
        &mut clauses,
        schemas,
        params,
        rule.premises.as_slice(),
    )?;
    push_sides(alloc, &mut clauses, params, rule.sides.as_slice())?;
    push_units(
        alloc,
        &mut clauses,
        step_literals(alloc, params, rule.pattern)?,
    )?;
    push_conclusion_clauses(alloc, &mut clauses, params, rule.pattern, &rule.conclusion)?;
    Ok(clauses)
}

/// What the conclusion adds: the way that a branch goes, and what the form says of its own.
fn push_conclusion_clauses(
    alloc: Global,
    clauses: &mut Vec<TreeClause>,
    params: &[Param],
    pattern: Form,
    conclusion: &Conclusion,
) -> Result<(), AllocError>
    requires { length params.now < 2 ^ 32 }
    ensures { OnOk result (clauses_of clauses.new.items ≡ clauses_of clauses.old.items ++ conclusion_clauses params.now pattern conclusion.now) }
{
    match conclusion {
        Conclusion::Fact { slot, .. } => {
            push_units(
                alloc,
                clauses,
                slot_literals(alloc, params, pattern, *slot)?,
            )?;
            push_own_clauses(alloc, clauses, params, pattern)
        }
        Conclusion::Transform(_) => Ok(()),
    }
}

/// One clause for each literal.
fn push_units(
    alloc: Global,
    clauses: &mut Vec<TreeClause>,
    lits: Vec<TreeLit>,
) -> Result<(), AllocError>
    ensures { OnOk result (clauses_of clauses.new.items ≡ clauses_of clauses.old.items ++ units (lits_of lits.items)) }
{
    for lit in lits {
        push_unit(alloc, clauses, lit)?;
    }
    Ok(())
}

pub(crate) fn push_unit(
    alloc: Global,
    clauses: &mut Vec<TreeClause>,
    lit: TreeLit,
) -> Result<(), AllocError>
    ensures { OnOk result (clauses_of clauses.new.items ≡ clauses_of clauses.old.items ++ (lit_of lit ∷ []) ∷ []) }
{
    push_clause(clauses, vec![in alloc; lit]?)
}

pub(crate) fn push_clause(
    clauses: &mut Vec<TreeClause>,
    lits: Vec<TreeLit>,
) -> Result<(), AllocError>
    ensures { OnOk result (clauses_of clauses.new.items ≡ clauses_of clauses.old.items ++ lits_of lits.items ∷ []) }
{
    clauses.push(TreeClause { lits })?;
    Ok(())
}

fn push_premises(
    alloc: Global,
    clauses: &mut Vec<TreeClause>,
    schemas: &[Schema],
    params: &[Param],
    premises: &[FactUse],
) -> Result<(), AllocError>
    ensures { OnOk result (clauses_of clauses.new.items
        ≡ clauses_of clauses.old.items ++ units (flat_map (fact_literals schemas.now params.now before) premises.now)) }
{
    for premise in premises {
        push_units(
            alloc,
            clauses,
            fact_literals(alloc, schemas, params, &before(), premise)?,
        )?;
    }
    Ok(())
}

fn push_sides(
    alloc: Global,
    clauses: &mut Vec<TreeClause>,
    params: &[Param],
    sides: &[Side],
) -> Result<(), AllocError>
    ensures { OnOk result (clauses_of clauses.new.items
        ≡ clauses_of clauses.old.items ++ units (map (side_literal params.now) sides.now)) }
{
    for side in sides {
        push_unit(alloc, clauses, side_literal(alloc, params, *side)?)?;
    }
    Ok(())
}

fn side_literal(alloc: Global, params: &[Param], side: Side) -> Result<TreeLit, AllocError>
    ensures { IfOk result (λ lit. lit_of lit ≡ side_literal params.now side) }
{
    match side {
        Side::Same(left, right) => Ok(equals(
            side_tree(alloc, params, left)?,
            side_tree(alloc, params, right)?,
        )),
        Side::Differ(left, right) => Ok(differs(
            side_tree(alloc, params, left)?,
            side_tree(alloc, params, right)?,
        )),
    }
}

fn side_tree(alloc: Global, params: &[Param], term: SideTerm) -> Result<Tree, AllocError>
    ensures { IfOk result (λ tree. tree_of tree ≡ side_tree params.now term) }
{
    match term {
        SideTerm::Plain(base) => Ok(side_operand(params, base)),
        SideTerm::Compute(op, left, right) => compute(
            alloc,
            op,
            side_operand(params, left),
            side_operand(params, right),
        ),
    }
}

/// Variables are compared as such, and so by their addresses.
fn side_operand(params: &[Param], base: RuleBase) -> Tree
    ensures { tree_of result ≡ side_operand params.now base }
{
    match base {
        RuleBase::Meta(meta) => binding_tree(params, meta),
        RuleBase::Num(number) => Tree::Leaf(Term::Num(number)),
        RuleBase::Wild => Tree::Leaf(Term::Any),
    }
}

/// That a branch goes the way of the conclusion.
fn slot_literals(
    alloc: Global,
    params: &[Param],
    pattern: Form,
    slot: Slot,
) -> Result<Vec<TreeLit>, AllocError>
    ensures { IfOk result (λ lits. lits_of lits.items ≡ slot_literals params.now pattern slot) }
{
    match (pattern, slot) {
        (Form::If(cond), Slot::Then) => {
            Ok(vec![in alloc; differs(value(alloc, params, cond)?, Tree::Leaf(Term::Num(0)))]?)
        }
        (Form::If(cond), Slot::Else) => {
            Ok(vec![in alloc; equals(value(alloc, params, cond)?, Tree::Leaf(Term::Num(0)))]?)
        }
        _ => Ok(Vec::new(alloc)),
    }
}
