//! Rule files: schemas and rules that pass every check.

ghost use Rattle.std.specs.Prelude.{◌≡◌, IfOk};

use crate::check::check_file;
use crate::fault::RuleFault;
use crate::ranges::numbers_fit;
use crate::rule::{Conclusion, FactUse, Rule};
use crate::schema::Schema;
use rh_list::Items;
use std::alloc::{AllocError, Global};
use std::marker::Model;

/// The schemas and the rules of a file. Contracts see them as the two lists.
#[derive(Drop)]
pub struct RuleFile {
    schemas: Items<Schema>,
    rules: Items<Rule>,
}

impl Model for RuleFile {
    ghost use Rattle.rh_rule.specs.RuleFiles.{Rules, IsRuleFile};

    ghost Value = { Rules };

    ghost view = { λ a. record { schemas = a.schemas; rules = a.rules } };

    ghost invariant = { λ a. IsRuleFile (record { schemas = a.schemas; rules = a.rules }) };
}

impl RuleFile {
    ghost use Rattle.std.specs.Prelude.{◌≡◌, true, None, Some, IfOk, IfErr};
    ghost use Rattle.rh_rule.specs.Words.{are_proper};
    ghost use Rattle.rh_rule.specs.Checks.{file_fault};
    ghost use Rattle.rh_rule.specs.RuleFiles.{IsRuleFile};

    /// The rule file of schemas and rules whose names are proper (`are_proper` tests them); or the
    /// first check that they don't pass. It takes no memory.
    pub fn new(schemas: Vec<Schema>, rules: Vec<Rule>) -> Result<RuleFile, RuleFault>
        requires { are_proper schemas.items rules.items ≡ true }
        ensures file { IfOk result (λ file. file ≡ record { schemas = schemas.items; rules = rules.items }) }
        ensures passes { IfOk result (λ file. file_fault schemas.items rules.items ≡ None) }
        ensures fault { IfErr result (λ fault. file_fault schemas.items rules.items ≡ Some fault) }
    {
        numbers_fit(schemas.as_slice(), rules.as_slice());
        check_file(schemas.as_slice(), rules.as_slice())?;
        Ok(RuleFile {
            schemas: Items::from(schemas),
            rules: Items::from(rules),
        })
    }

    /// The schemas, in their order.
    pub fn schemas(&self) -> &[Schema]
        ensures value { result.now ≡ self.now.schemas }
        ensures file { IsRuleFile self.now }
    {
        self.schemas.as_slice()
    }

    /// The rules, in their order.
    pub fn rules(&self) -> &[Rule]
        ensures value { result.now ≡ self.now.rules }
        ensures file { IsRuleFile self.now }
    {
        self.rules.as_slice()
    }

    /// An equal rule file.
    pub fn copy(&self, alloc: Global) -> Result<RuleFile, AllocError>
        ensures { IfOk result (λ copy. copy ≡ self.now) }
    {
        let schemas = copy_schemas(alloc, self.schemas.as_slice())?;
        let rules = copy_rules(alloc, self.rules.as_slice())?;
        Ok(RuleFile { schemas, rules })
    }
}

fn copy_schema(alloc: Global, schema: &Schema) -> Result<Schema, AllocError>
    ensures { IfOk result (λ copy. copy ≡ schema.now) }
{
    let name = schema.name;
    let params = schema.params.copy(alloc)?;
    let meaning = schema.meaning.copy(alloc)?;
    Ok(Schema {
        name,
        params,
        meaning,
    })
}

fn copy_schemas(alloc: Global, schemas: &[Schema]) -> Result<Items<Schema>, AllocError>
    ensures { IfOk result (λ copies. copies ≡ schemas.now) }
{
    let mut copies = Items::new(alloc);
    for schema in schemas {
        copies.push(copy_schema(alloc, schema)?)?;
    }
    Ok(copies)
}

fn copy_fact(alloc: Global, fact: &FactUse) -> Result<FactUse, AllocError>
    ensures { IfOk result (λ copy. copy ≡ fact.now) }
{
    let schema = fact.schema;
    let args = fact.args.copy(alloc)?;
    Ok(FactUse { schema, args })
}

fn copy_facts(alloc: Global, facts: &[FactUse]) -> Result<Items<FactUse>, AllocError>
    ensures { IfOk result (λ copies. copies ≡ facts.now) }
{
    let mut copies = Items::new(alloc);
    for fact in facts {
        copies.push(copy_fact(alloc, fact)?)?;
    }
    Ok(copies)
}

fn copy_conclusion(alloc: Global, conclusion: &Conclusion) -> Result<Conclusion, AllocError>
    ensures { IfOk result (λ copy. copy ≡ conclusion.now) }
{
    match conclusion {
        Conclusion::Fact { fact, slot } => {
            let fact = copy_fact(alloc, fact)?;
            Ok(Conclusion::Fact { fact, slot: *slot })
        }
        Conclusion::Transform(template) => Ok(Conclusion::Transform(*template)),
    }
}

fn copy_rule(alloc: Global, rule: &Rule) -> Result<Rule, AllocError>
    ensures { IfOk result (λ copy. copy ≡ rule.now) }
{
    let name = rule.name;
    let pattern = rule.pattern;
    let params = rule.params.copy(alloc)?;
    let premises = copy_facts(alloc, rule.premises.as_slice())?;
    let sides = rule.sides.copy(alloc)?;
    let conclusion = copy_conclusion(alloc, &rule.conclusion)?;
    Ok(Rule {
        name,
        params,
        pattern,
        premises,
        sides,
        conclusion,
    })
}

fn copy_rules(alloc: Global, rules: &[Rule]) -> Result<Items<Rule>, AllocError>
    ensures { IfOk result (λ copies. copies ≡ rules.now) }
{
    let mut copies = Items::new(alloc);
    for rule in rules {
        copies.push(copy_rule(alloc, rule)?)?;
    }
    Ok(copies)
}
