//! Which rules carry, and the rulings on these rules and on the others.
ghost use Rattle.std.specs.Prelude.{◌≡◌, IfOk, not};
ghost use Rattle.rh_carry.specs.Carry.{base_eq, bases_eq, carries, concludes_only, is_asked, is_only, only, ruling_if, use_eq};

use rh_rule::{Conclusion, FactUse, Rule, RuleBase, Ruling};
use std::alloc::{AllocError, Global};

fn base_eq(one: RuleBase, other: RuleBase) -> bool
    ensures { result ≡ base_eq one other }
{
    match (one, other) {
        (RuleBase::Meta(a), RuleBase::Meta(b)) => a == b,
        (RuleBase::Num(a), RuleBase::Num(b)) => a == b,
        (RuleBase::Wild, RuleBase::Wild) => true,
        _ => false,
    }
}

fn bases_eq(ones: &[RuleBase], others: &[RuleBase]) -> bool
    ensures { result ≡ bases_eq ones.now others.now }
{
    let Some((one, ones)) = ones.split_first() else {
        return others.is_empty();
    };
    let Some((other, others)) = others.split_first() else {
        return false;
    };
    base_eq(*one, *other) && bases_eq(ones, others)
}

/// Whether two uses of schemas are one.
fn use_eq(one: &FactUse, other: &FactUse) -> bool
    ensures { result ≡ use_eq one.now other.now }
{
    one.schema == other.schema && bases_eq(one.args.as_slice(), other.args.as_slice())
}

/// Whether the one premise is what is concluded.
fn is_only(premises: &[FactUse], concluded: &FactUse) -> bool
    ensures { result ≡ is_only premises.now concluded.now }
{
    match premises.split_first() {
        Some((premise, others)) => others.is_empty() && use_eq(premise, concluded),
        None => false,
    }
}

/// Whether a rule concludes its one premise.
fn carries(rule: &Rule) -> bool
    ensures { result ≡ carries rule.now }
{
    match &rule.conclusion {
        Conclusion::Fact { fact, .. } => is_only(rule.premises.as_slice(), fact),
        Conclusion::Transform(_) => false,
    }
}

/// Whether a rule carries, or doesn't, as is asked.
fn is_asked(carrying: bool, rule: &Rule) -> bool
    ensures { result ≡ is_asked carrying rule.now }
{
    if carrying {
        carries(rule)
    } else {
        !carries(rule)
    }
}

/// The ruling on a rule that passes. Any other rule is refused.
fn ruling_if(passes: bool, ruling: Ruling) -> Ruling
    ensures { result ≡ ruling_if passes ruling }
{
    if passes { ruling } else { Ruling::Refused(0) }
}

/// The rulings on the rules that carry, or on those that don't. The other rules are refused.
fn rulings_where(
    alloc: Global,
    rules: &[Rule],
    rulings: &[Ruling],
    carrying: bool,
) -> Result<Vec<Ruling>, AllocError>
    ensures { IfOk result (λ kept. kept.items ≡ only (is_asked carrying) rules.now rulings.now) }
{
    let mut kept = Vec::new(alloc);
    let mut left = rulings;
    for rule in rules {
        let Some((ruling, others)) = left.split_first() else {
            return Ok(kept);
        };
        kept.push(ruling_if(is_asked(carrying, rule), *ruling))?;
        left = others;
    }
    Ok(kept)
}

/// The rulings, with those rules refused that don't carry.
pub fn carried_rulings(
    alloc: Global,
    rules: &[Rule],
    rulings: &[Ruling],
) -> Result<Vec<Ruling>, AllocError>
    ensures { IfOk result (λ kept. kept.items ≡ only carries rules.now rulings.now) }
{
    rulings_where(alloc, rules, rulings, true)
}

/// The rulings, with those rules refused that carry.
pub fn other_rulings(
    alloc: Global,
    rules: &[Rule],
    rulings: &[Ruling],
) -> Result<Vec<Ruling>, AllocError>
    ensures { IfOk result (λ kept. kept.items ≡ only (λ rule. not (carries rule)) rules.now rulings.now) }
{
    rulings_where(alloc, rules, rulings, false)
}
