//! A fact as literals over a list of terms.
ghost use Rattle.rh_rule.specs.RuleFiles.{SchemaPassed};

use rh_meaning::atoms_at;
use rh_rule::{RuleBase, RuleFile, Schema};
use rh_rule_text::read_rules;
use rh_term::{Lit, Term, Terms};
use std::alloc::Global;
use std::test::Fail;

/// The literals of a fact about the first two metavariables, over the store before a step, and the list of their terms.
fn literals_of(alloc: Global, schema: &Schema) -> Result<(Vec<Lit>, Terms), Fail>
    requires { SchemaPassed schema.now }
{
    let mut terms = Terms::new(alloc);
    let store = terms.add(Term::Before)?;
    let args = [RuleBase::Meta(0), RuleBase::Meta(1)];
    let literals = atoms_at(alloc, schema, &args, store, &mut terms)?;
    Ok((literals, terms))
}

/// The same for the first fact of a rule file.
fn first_literals(alloc: Global, file: &RuleFile) -> Result<(Vec<Lit>, Terms), Fail> {
    match file.schemas().first() {
        Some(schema) => literals_of(alloc, schema),
        None => Err("no fact".into()),
    }
}

#[test]
fn a_fact_is_literals_over_terms(rt: HostRuntime) -> Result<(), Fail> {
    let text = b"fact con(var X, const C) means X == C and unaliased(X);";
    let file = read_rules(rt.alloc(), text).map_err(|_| "no rule file")?;
    let (literals, terms) = first_literals(rt.alloc(), &file)?;
    let want = [
        Term::Before,
        Term::Addr(0),
        Term::Sel(0, 1),
        Term::Cst(1),
        Term::Una(0, 1),
        Term::Yes,
    ];
    assert_eq!(rt; terms.as_slice(), want.as_slice());
    let equations = [(2, 3), (4, 5)];
    for (literal, (left, right)) in literals.iter().zip(equations) {
        assert_eq!(rt;
            *literal,
            Lit {
                left,
                right,
                equal: true
            }
        );
    }
    assert_eq!(rt; literals.len(), 2);
    Ok(())
}
