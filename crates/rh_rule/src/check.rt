//! The checks of a rule file.

ghost use Rattle.std.specs.Prelude.{◌≡◌, ◌<◌, ◌^◌, length, slice_get};
ghost use Rattle.std.specs.List.{list_any};
ghost use Rattle.std.specs.Option.{option_and_then};
ghost use Rattle.std.specs.Result.{result_err};
ghost use Rattle.std.specs.Str.{bytes_eq};
ghost use Rattle.rh_il.specs.Checks.{first_some};
ghost use Rattle.rh_rule.specs.declared.fault.RuleWrong.TheVariants.{DuplicateName};
ghost use Rattle.rh_rule.specs.declared.fault.Item.TheVariants.{Fact as FactItem, Rule as RuleItem};
ghost use Rattle.rh_rule.specs.Checks.{unless, is_new_param_at, is_new_schema_at, is_new_rule_at, params_fault, schema_fault, sizes_fault, uses_fault, rule_fault, file_fault};

use crate::fault::{Item, Many, RuleFault, RuleWrong};
use crate::kinds::{atoms_have_kinds, has_kinds};
use crate::numbers::{atoms_are_below, has_arity, has_numbers};
use crate::rule::Rule;
use crate::schema::{Param, Schema};
use crate::shapes::{has_shape, has_slots};
use crate::uses::rule_names;

/// The most schemas of a file.
const MOST_SCHEMAS: usize = 64;

/// The most rules of a file.
const MOST_RULES: usize = 256;

/// The most parameters of a schema, and the most metavariables of a rule.
const MOST_PARAMS: usize = 6;

/// The most atoms of a meaning.
const MOST_ATOMS: usize = 4;

/// The most premises of a rule.
const MOST_PREMISES: usize = 8;

/// The most side conditions of a rule.
const MOST_SIDES: usize = 8;

/// Fails unless the test holds.
fn ensure(holds: bool, kind: RuleWrong, item: Item) -> Result<(), RuleFault>
    ensures { result_err result ≡ unless holds kind item }
{
    if holds {
        Ok(())
    } else {
        Err(RuleFault::Wrong { kind, item })
    }
}

fn has_param(params: &[Param], name: &[u8]) -> bool
    ensures { result ≡ list_any (λ param. bytes_eq name.now param.name) params.now }
{
    params.iter().any(|param| name == param.name.bytes())
}

/// Whether no earlier parameter has the name of the one at the place.
fn is_new_param_at(params: &[Param], place: usize) -> bool
    requires { place < length params.now }
    ensures { result ≡ is_new_param_at params.now place }
{
    let name = &params[place].name;
    !has_param(&params[..place], name.bytes())
}

/// Fails where two parameters have one name.
fn check_params(params: &[Param], item: Item) -> Result<(), RuleFault>
    ensures { result_err result ≡ params_fault params.now item }
{
    for place in 0..params.len() {
        let is_new = is_new_param_at(params, place);
        ensure(is_new, RuleWrong::DuplicateName, item)?;
    }
    Ok(())
}

/// The checks of one schema, in their order.
#[tactic(auto, unfolding(crate::specs::Checks::schema_fault))]
fn check_schema(number: u32, schema: &Schema) -> Result<(), RuleFault>
    ensures { result_err result ≡ schema_fault number schema.now }
{
    let item = Item::Fact(number);
    let params = schema.params.as_slice();
    let meaning = schema.meaning.as_slice();
    let fits = 1 <= params.len() && params.len() <= MOST_PARAMS;
    ensure(fits, RuleWrong::Limit(Many::Params), item)?;
    check_params(params, item)?;
    let fits = 1 <= meaning.len() && meaning.len() <= MOST_ATOMS;
    ensure(fits, RuleWrong::Limit(Many::Atoms), item)?;
    let are_below = atoms_are_below(params.len(), meaning);
    ensure(are_below, RuleWrong::BadNumber, item)?;
    ensure(
        atoms_have_kinds(params, meaning),
        RuleWrong::KindMismatch,
        item,
    )
}

/// Fails where there is too much of a part of a rule, or two metavariables have one name.
fn check_sizes(number: u32, rule: &Rule) -> Result<(), RuleFault>
    ensures { result_err result ≡ sizes_fault number rule.now }
{
    let item = Item::Rule(number);
    let fits = rule.params.len() <= MOST_PARAMS;
    ensure(fits, RuleWrong::Limit(Many::Params), item)?;
    check_params(rule.params.as_slice(), item)?;
    let fits = rule.premises.len() <= MOST_PREMISES;
    ensure(fits, RuleWrong::Limit(Many::Premises), item)?;
    let fits = rule.sides.len() <= MOST_SIDES;
    ensure(fits, RuleWrong::Limit(Many::Sides), item)
}

/// Fails where the rule doesn't use all its metavariables.
fn check_uses(number: u32, rule: &Rule) -> Result<(), RuleFault>
    ensures { result_err result ≡ uses_fault number rule.now }
{
    for meta in 0..rule.params.len() {
        let is_used = rule_names(meta, rule);
        ensure(is_used, RuleWrong::UnusedMeta, Item::Rule(number))?;
    }
    Ok(())
}

/// The checks of one rule, in their order.
#[tactic(auto, unfolding(crate::specs::Checks::rule_fault))]
fn check_rule(schemas: &[Schema], number: u32, rule: &Rule) -> Result<(), RuleFault>
    ensures { result_err result ≡ rule_fault schemas.now number rule.now }
{
    let item = Item::Rule(number);
    check_sizes(number, rule)?;
    ensure(has_numbers(schemas.len(), rule), RuleWrong::BadNumber, item)?;
    ensure(has_arity(schemas, rule), RuleWrong::Arity, item)?;
    ensure(has_kinds(schemas, rule), RuleWrong::KindMismatch, item)?;
    ensure(has_shape(rule), RuleWrong::BadShape, item)?;
    ensure(has_slots(rule), RuleWrong::BadSlot, item)?;
    check_uses(number, rule)
}

fn has_schema(schemas: &[Schema], name: &[u8]) -> bool
    ensures { result ≡ list_any (λ schema. bytes_eq name.now schema.name) schemas.now }
{
    schemas.iter().any(|schema| name == schema.name.bytes())
}

/// Whether no earlier schema has the name of the one at the place.
fn is_new_schema_at(schemas: &[Schema], place: usize) -> bool
    requires { place < length schemas.now }
    ensures { result ≡ is_new_schema_at schemas.now place }
{
    let name = &schemas[place].name;
    !has_schema(&schemas[..place], name.bytes())
}

/// Fails at the first schema whose name an earlier one has.
fn check_schema_names(schemas: &[Schema]) -> Result<(), RuleFault>
    requires { length schemas.now < 2 ^ 32 }
    ensures { result_err result ≡ first_some (length schemas.now) (λ i. unless (is_new_schema_at schemas.now i) DuplicateName (FactItem i)) }
{
    for number in 0..schemas.len() {
        let is_new = is_new_schema_at(schemas, number);
        let item = Item::Fact(number as u32);
        ensure(is_new, RuleWrong::DuplicateName, item)?;
    }
    Ok(())
}

fn has_rule(rules: &[Rule], name: &[u8]) -> bool
    ensures { result ≡ list_any (λ rule. bytes_eq name.now rule.name) rules.now }
{
    rules.iter().any(|rule| name == rule.name.bytes())
}

/// Whether no earlier rule has the name of the one at the place.
fn is_new_rule_at(rules: &[Rule], place: usize) -> bool
    requires { place < length rules.now }
    ensures { result ≡ is_new_rule_at rules.now place }
{
    let name = &rules[place].name;
    !has_rule(&rules[..place], name.bytes())
}

/// Fails at the first rule whose name an earlier one has.
fn check_rule_names(rules: &[Rule]) -> Result<(), RuleFault>
    requires { length rules.now < 2 ^ 32 }
    ensures { result_err result ≡ first_some (length rules.now) (λ i. unless (is_new_rule_at rules.now i) DuplicateName (RuleItem i)) }
{
    for number in 0..rules.len() {
        let is_new = is_new_rule_at(rules, number);
        let item = Item::Rule(number as u32);
        ensure(is_new, RuleWrong::DuplicateName, item)?;
    }
    Ok(())
}

fn check_schemas(schemas: &[Schema]) -> Result<(), RuleFault>
    requires { length schemas.now < 2 ^ 32 }
    ensures { result_err result ≡ first_some (length schemas.now) (λ i. option_and_then (schema_fault i) (slice_get schemas.now i)) }
{
    for (number, schema) in schemas.iter().enumerate() {
        check_schema(number as u32, schema)?;
    }
    Ok(())
}

fn check_rules(schemas: &[Schema], rules: &[Rule]) -> Result<(), RuleFault>
    requires { length rules.now < 2 ^ 32 }
    ensures { result_err result ≡ first_some (length rules.now) (λ i. option_and_then (rule_fault schemas.now i) (slice_get rules.now i)) }
{
    for (number, rule) in rules.iter().enumerate() {
        check_rule(schemas, number as u32, rule)?;
    }
    Ok(())
}

/// The checks of the schemas and the rules of a file, in their order.
#[tactic(auto, unfolding(crate::specs::Checks::file_fault))]
pub(crate) fn check_file(schemas: &[Schema], rules: &[Rule]) -> Result<(), RuleFault>
    ensures { result_err result ≡ file_fault schemas.now rules.now }
{
    let fits = schemas.len() <= MOST_SCHEMAS;
    ensure(fits, RuleWrong::Limit(Many::Facts), Item::File)?;
    let fits = rules.len() <= MOST_RULES;
    ensure(fits, RuleWrong::Limit(Many::Rules), Item::File)?;
    check_schema_names(schemas)?;
    check_rule_names(rules)?;
    check_schemas(schemas)?;
    check_rules(schemas, rules)
}
