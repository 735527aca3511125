//! Which names a rule file may have.

ghost use Rattle.std.specs.Prelude.{◌≡◌};
ghost use Rattle.std.specs.List.{list_all};
ghost use Rattle.rh_il.specs.Name.{is_lower_name, is_upper_name};
ghost use Rattle.rh_rule.specs.Words.{is_proper, are_proper_params, schema_is_proper, rule_is_proper, are_proper};

use crate::keyword::keyword_of;
use crate::rule::Rule;
use crate::schema::{Param, Schema};
use rh_il::Name;

fn is_lower_name(name: &Name) -> bool
    ensures { result ≡ is_lower_name name.now }
{
    match name.bytes().first() {
        Some(first) => first.is_ascii_lowercase(),
        None => false,
    }
}

/// Whether a parameter or a metavariable may have the name: it begins with a capital letter.
pub fn is_upper_name(name: &Name) -> bool
    ensures { result ≡ is_upper_name name.now }
{
    match name.bytes().first() {
        Some(first) => first.is_ascii_uppercase(),
        None => false,
    }
}

/// Whether a schema or a rule may have the name: it begins with a small letter and is no
/// reserved word.
pub fn is_proper(name: &Name) -> bool
    ensures { result ≡ is_proper name.now }
{
    is_lower_name(name) && keyword_of(name.bytes()).is_none()
}

fn are_proper_params(params: &[Param]) -> bool
    ensures { result ≡ are_proper_params params.now }
{
    params.iter().all(|param| is_upper_name(&param.name))
}

fn schema_is_proper(schema: &Schema) -> bool
    ensures { result ≡ schema_is_proper schema.now }
{
    is_proper(&schema.name) && are_proper_params(schema.params.as_slice())
}

fn rule_is_proper(rule: &Rule) -> bool
    ensures { result ≡ rule_is_proper rule.now }
{
    is_proper(&rule.name) && are_proper_params(rule.params.as_slice())
}

fn schemas_are_proper(schemas: &[Schema]) -> bool
    ensures { result ≡ list_all schema_is_proper schemas.now }
{
    schemas.iter().all(|schema| schema_is_proper(schema))
}

fn rules_are_proper(rules: &[Rule]) -> bool
    ensures { result ≡ list_all rule_is_proper rules.now }
{
    rules.iter().all(|rule| rule_is_proper(rule))
}

/// Whether schemas and rules have only names that a rule file may have.
pub fn are_proper(schemas: &[Schema], rules: &[Rule]) -> bool
    ensures { result ≡ are_proper schemas.now rules.now }
{
    schemas_are_proper(schemas) && rules_are_proper(rules)
}
