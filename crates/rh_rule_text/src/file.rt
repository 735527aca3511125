//! Whole rule files: the first unknown name, and the schemas and the rules.

ghost use Rattle.std.specs.Prelude.{◌≡◌, IfOk};
ghost use Rattle.std.specs.List.{flat_map};
ghost use Rattle.rh_rule_text.specs.Resolve.{schema_of, rule_of, fact_names, schemas_of, rules_of};
ghost use Rattle.rh_rule_text.specs.Unknown.{first_of, unknown_fact, unknown_rule, unknown_item};

use crate::resolve::{
    conclusion_of, meaning, metas_of, premises, rule_params, rule_pattern, sides,
};
use crate::unknown::{unknown_conclusion, unknown_in_atoms, unknown_in_conds, unknown_pattern};
use rh_il::Name;
use rh_list::Items;
use rh_names::Names;
use rh_rule::{Rule, Schema};
use rh_rule_source::{SourceFact, SourceItem, SourceRule};
use std::alloc::{AllocError, Global};

fn schema_of(alloc: Global, fact: &SourceFact) -> Result<Schema, AllocError>
    ensures { IfOk result (λ schema. schema ≡ schema_of fact.now) }
{
    let metas = metas_of(alloc, fact.params.as_slice())?;
    let params = rule_params(alloc, fact.params.as_slice())?;
    let meaning = meaning(alloc, &metas, fact.atoms.as_slice())?;
    Ok(Schema {
        name: fact.name.name,
        params: Items::from(params),
        meaning: Items::from(meaning),
    })
}

fn rule_of(alloc: Global, facts: &Names, rule: &SourceRule) -> Result<Rule, AllocError>
    ensures { IfOk result (λ resolved. resolved ≡ rule_of facts.now rule.now) }
{
    let metas = metas_of(alloc, rule.params.as_slice())?;
    let params = rule_params(alloc, rule.params.as_slice())?;
    let premises = premises(alloc, facts, &metas, rule.conds.as_slice())?;
    let sides = sides(alloc, &metas, rule.conds.as_slice())?;
    let conclusion = conclusion_of(alloc, facts, &metas, &rule.conclusion)?;
    Ok(Rule {
        name: rule.name.name,
        params: Items::from(params),
        pattern: rule_pattern(&metas, rule.pattern),
        premises,
        sides,
        conclusion,
    })
}

/// The names of the facts of a file.
fn fact_names(alloc: Global, items: &[SourceItem]) -> Result<Vec<Name>, AllocError>
    ensures { IfOk result (λ names. names.items ≡ flat_map fact_names items.now) }
{
    let mut names = Vec::new(alloc);
    for item in items {
        if let SourceItem::Fact(fact) = item {
            names.push(fact.name.name)?;
        }
    }
    Ok(names)
}

/// The facts of a file, by their names.
pub(crate) fn facts_of(alloc: Global, items: &[SourceItem]) -> Result<Names, AllocError>
    ensures { IfOk result (λ facts. facts ≡ flat_map fact_names items.now) }
{
    let names = fact_names(alloc, items)?;
    Names::of(alloc, names.as_slice())
}

/// The schemas of a file.
pub(crate) fn schemas_of(alloc: Global, items: &[SourceItem]) -> Result<Vec<Schema>, AllocError>
    ensures { IfOk result (λ schemas. schemas.items ≡ flat_map schemas_of items.now) }
{
    let mut schemas = Vec::new(alloc);
    for item in items {
        if let SourceItem::Fact(fact) = item {
            schemas.push(schema_of(alloc, fact)?)?;
        }
    }
    Ok(schemas)
}

/// The rules of a file.
pub(crate) fn rules_of(
    alloc: Global,
    facts: &Names,
    items: &[SourceItem],
) -> Result<Vec<Rule>, AllocError>
    ensures { IfOk result (λ rules. rules.items ≡ flat_map (rules_of facts.now) items.now) }
{
    let mut rules = Vec::new(alloc);
    for item in items {
        if let SourceItem::Rule(rule) = item {
            rules.push(rule_of(alloc, facts, rule)?)?;
        }
    }
    Ok(rules)
}

fn unknown_fact(alloc: Global, fact: &SourceFact) -> Result<Option<u32>, AllocError>
    ensures { IfOk result (λ found. found ≡ unknown_fact fact.now) }
{
    let metas = metas_of(alloc, fact.params.as_slice())?;
    Ok(unknown_in_atoms(&metas, fact.atoms.as_slice()))
}

fn unknown_rule(alloc: Global, facts: &Names, rule: &SourceRule) -> Result<Option<u32>, AllocError>
    ensures { IfOk result (λ found. found ≡ unknown_rule facts.now rule.now) }
{
    let metas = metas_of(alloc, rule.params.as_slice())?;
    let in_pattern = unknown_pattern(&metas, rule.pattern);
    let in_conds = unknown_in_conds(facts, &metas, rule.conds.as_slice());
    let in_conclusion = unknown_conclusion(facts, &metas, &rule.conclusion);
    Ok(in_pattern.or(in_conds.or(in_conclusion)))
}

fn unknown_item(alloc: Global, facts: &Names, item: &SourceItem) -> Result<Option<u32>, AllocError>
    ensures { IfOk result (λ found. found ≡ unknown_item facts.now item.now) }
{
    match item {
        SourceItem::Fact(fact) => unknown_fact(alloc, fact),
        SourceItem::Rule(rule) => unknown_rule(alloc, facts, rule),
    }
}

/// The first unknown name of a file.
pub(crate) fn unknown_in_items(
    alloc: Global,
    facts: &Names,
    items: &[SourceItem],
) -> Result<Option<u32>, AllocError>
    ensures { IfOk result (λ found. found ≡ first_of (unknown_item facts.now) items.now) }
{
    for item in items {
        let found = unknown_item(alloc, facts, item)?;
        if found.is_some() {
            return Ok(found);
        }
    }
    Ok(None)
}
