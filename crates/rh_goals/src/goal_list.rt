//! What has to be shown of a rule: one goal for each of its obligations.
ghost use Rattle.std.specs.Prelude.{◌≡◌, ◌++◌, [], ◌∷◌, IfOk};
ghost use Rattle.rh_meaning.specs.Literal.{equals};
ghost use Rattle.rh_meaning.specs.View.{lit_of, lits_of};
ghost use Rattle.rh_goals.specs.Goals.{conclusion_goals, goals, template_goals};
ghost use Rattle.rh_goals.specs.Statement.{step_literals, store_after, value};

use crate::statement::{address, step_literals, store_after, value};
use rh_meaning::{TreeLit, equals, fact_literals};
use rh_rule::{Conclusion, Form, Param, Rule, RuleBase, Schema};
use std::alloc::{AllocError, Global};

/// The goals of the obligations of a rule, in their order.
pub fn goals(alloc: Global, schemas: &[Schema], rule: &Rule) -> Result<Vec<TreeLit>, AllocError>
    ensures { IfOk result (λ lits. lits_of lits.items ≡ goals schemas.now rule.now) }
{
    conclusion_goals(
        alloc,
        schemas,
        rule.params.as_slice(),
        rule.pattern,
        &rule.conclusion,
    )
}

/// The atoms of the concluded fact after the step, or that the template does what the statement does.
fn conclusion_goals(
    alloc: Global,
    schemas: &[Schema],
    params: &[Param],
    pattern: Form,
    conclusion: &Conclusion,
) -> Result<Vec<TreeLit>, AllocError>
    ensures { IfOk result (λ lits. lits_of lits.items ≡ conclusion_goals schemas.now params.now pattern conclusion.now) }
{
    match conclusion {
        Conclusion::Fact { fact, .. } => {
            let after = store_after(alloc, params, pattern)?;
            fact_literals(alloc, schemas, params, &after, fact)
        }
        Conclusion::Transform(template) => template_goals(alloc, params, pattern, *template),
    }
}

fn template_goals(
    alloc: Global,
    params: &[Param],
    pattern: Form,
    template: Form,
) -> Result<Vec<TreeLit>, AllocError>
    ensures { IfOk result (λ lits. lits_of lits.items ≡ template_goals params.now pattern template) }
{
    match (pattern, template) {
        (
            Form::Call { to, arg },
            Form::Call {
                to: new_to,
                arg: new_arg,
            },
        ) => Ok(vec![in alloc;
            equals(address(to), address(new_to)),
            same_value(alloc, params, arg, new_arg)?,
        ]?),
        (Form::If(cond), Form::If(new_cond)) => {
            let mut lits = step_literals(alloc, params, template)?;
            lits.push(same_value(alloc, params, cond, new_cond)?)?;
            Ok(lits)
        }
        (Form::Return(value), Form::Return(new_value)) => {
            Ok(vec![in alloc; same_value(alloc, params, value, new_value)?]?)
        }
        _ => plain_goals(alloc, params, pattern, template),
    }
}

/// That the template steps, and leaves the store that the statement leaves.
fn plain_goals(
    alloc: Global,
    params: &[Param],
    pattern: Form,
    template: Form,
) -> Result<Vec<TreeLit>, AllocError>
    ensures { IfOk result (λ lits. lits_of lits.items
        ≡ step_literals params.now template ++ equals (store_after params.now pattern) (store_after params.now template) ∷ []) }
{
    let mut lits = step_literals(alloc, params, template)?;
    let old = store_after(alloc, params, pattern)?;
    lits.push(equals(old, store_after(alloc, params, template)?))?;
    Ok(lits)
}

fn same_value(
    alloc: Global,
    params: &[Param],
    left: RuleBase,
    right: RuleBase,
) -> Result<TreeLit, AllocError>
    ensures { IfOk result (λ lit. lit_of lit ≡ equals (value params.now left) (value params.now right)) }
{
    Ok(equals(value(alloc, params, left)?, value(alloc, params, right)?))
}
