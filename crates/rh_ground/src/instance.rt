//! Whether a rule is about a node under a binding, and whether a fact of a rule is a given one.
ghost use Rattle.std.specs.Prelude.{ℤ, ◌≡◌, ◌<◌, List, length, map, IfNone, IfSome};
ghost use Rattle.std.specs.List.{list_all, list_any};
ghost use Rattle.std.specs.Ordering.{int_eq};
ghost use Rattle.rh_il.specs.Op.{number_of};
ghost use Rattle.rh_domain.specs.Binding.{arg_under, as_number, domain_of};
ghost use Rattle.rh_ground.specs.Forms.{is_entry, may_match};
ghost use Rattle.rh_ground.specs.InDomain.{is_base_in, is_conclusion_in, is_fact_in};
ghost use Rattle.rh_ground.specs.Instance.{is_instance, is_rule_in, matches_at, matches_entry, rule_matches, side_arg, side_holds};
ghost use Rattle.rh_ground.specs.Match.{is_variable};
ghost use Rattle.rh_ground.specs.SameFact.{args_eq, is_fact_under};

use crate::forms::is_form_of;
use crate::matching::{is_variable, matches};
use rh_domain::{Args, Domain, arg_under};
use rh_il::{Node, Op, Proc, Value};
use rh_rule::{Arg, Conclusion, FactUse, Form, Rule, RuleBase, Side, SideTerm};

/// What an operator makes of two numbers.
fn number_of(op: Op, left: i64, right: i64) -> i64
    ensures { result ≡ number_of op left right }
{
    match op.total(Value::Num(left), Value::Num(right)) {
        Value::Num(number) => number,
        Value::Ptr(_) => 0,
    }
}

fn as_number(arg: Arg) -> i64
    ensures { result ≡ as_number arg }
{
    match arg {
        Arg::Const(number) => number,
        Arg::Var(_) => 0,
    }
}

/// What a side term stands for.
fn side_arg(binding: &[Arg], term: SideTerm) -> Arg
    ensures { result ≡ side_arg binding.now term }
{
    match term {
        SideTerm::Plain(base) => arg_under(binding, base),
        SideTerm::Compute(op, left, right) => {
            let left = as_number(arg_under(binding, left));
            let right = as_number(arg_under(binding, right));
            Arg::Const(number_of(op, left, right))
        }
    }
}

fn side_holds(binding: &[Arg], side: Side) -> bool
    ensures { result ≡ side_holds binding.now side }
{
    match side {
        Side::Same(left, right) => side_arg(binding, left) == side_arg(binding, right),
        Side::Differ(left, right) => side_arg(binding, left) != side_arg(binding, right),
    }
}

fn do_sides_hold(binding: &[Arg], sides: &[Side]) -> bool
    ensures { result ≡ list_all (side_holds binding.now) sides.now }
{
    sides.iter().all(|side| side_holds(binding, *side))
}

fn is_constant(constants: &[i64], number: i64) -> bool
    ensures { result ≡ list_any (int_eq number) constants.now }
{
    constants.iter().any(|constant| number == *constant)
}

fn is_base_in(domain: &Domain, base: RuleBase) -> bool
    ensures { result ≡ is_base_in domain.now base }
{
    match base {
        RuleBase::Num(number) => is_constant(domain.constants.as_slice(), number),
        RuleBase::Meta(_) | RuleBase::Wild => true,
    }
}

/// Whether each number that stands as an argument of a fact is a constant of the domain.
fn is_fact_in(domain: &Domain, fact: &FactUse) -> bool
    ensures { result ≡ is_fact_in domain.now fact.now }
{
    fact.args
        .as_slice()
        .iter()
        .all(|base| is_base_in(domain, *base))
}

fn are_facts_in(domain: &Domain, facts: &[FactUse]) -> bool
    ensures { result ≡ list_all (is_fact_in domain.now) facts.now }
{
    facts.iter().all(|fact| is_fact_in(domain, fact))
}

fn is_conclusion_in(domain: &Domain, conclusion: &Conclusion) -> bool
    ensures { result ≡ is_conclusion_in domain.now conclusion.now }
{
    match conclusion {
        Conclusion::Fact { fact, .. } => is_fact_in(domain, fact),
        Conclusion::Transform(_) => true,
    }
}

fn matches_entry(binding: &[Arg], pattern: Form) -> bool
    ensures { result ≡ matches_entry binding.now pattern }
{
    match pattern {
        Form::Entry(param) => is_variable(binding, param, 0),
        _ => false,
    }
}

/// Whether a pattern is what stands at a node.
fn matches_at(proc: &Proc, binding: &[Arg], pattern: Form, node: Node) -> bool
    ensures { result ≡ matches_at proc.now binding.now pattern node }
{
    match node {
        Node::Entry => matches_entry(binding, pattern),
        Node::At(number) => match proc.body.as_slice().get(number as usize) {
            Some(stmt) => matches(binding, pattern, *stmt),
            None => false,
        },
    }
}

/// Whether a pattern may be what stands at a node, as far as its form and its numbers tell.
pub fn may_match(proc: &Proc, pattern: Form, node: Node) -> bool
    ensures { result ≡ may_match proc.now pattern node }
{
    match node {
        Node::Entry => is_entry(pattern),
        Node::At(number) => match proc.body.as_slice().get(number as usize) {
            Some(stmt) => is_form_of(pattern, *stmt),
            None => false,
        },
    }
}

/// Whether a pattern is of an entry.
fn is_entry(pattern: Form) -> bool
    ensures { result ≡ is_entry pattern }
{
    match pattern {
        Form::Entry(_) => true,
        _ => false,
    }
}

/// Whether the numbers in a rule's facts are constants of a procedure.
pub fn is_rule_in(proc: &Proc, domain: &Domain, rule: &Rule) -> bool
    requires { domain.now ≡ domain_of proc.now }
    ensures { result ≡ is_rule_in proc.now rule.now }
{
    are_facts_in(domain, rule.premises.as_slice()) && is_conclusion_in(domain, &rule.conclusion)
}

/// Whether a rule's pattern is what stands at a node, and its side conditions hold.
pub fn rule_matches(proc: &Proc, rule: &Rule, binding: &[Arg], node: Node) -> bool
    ensures { result ≡ rule_matches proc.now rule.now binding.now node }
{
    matches_at(proc, binding, rule.pattern, node) && do_sides_hold(binding, rule.sides.as_slice())
}

/// Whether a rule is about a node of a procedure under a binding.
pub fn is_instance(proc: &Proc, domain: &Domain, rule: &Rule, binding: &[Arg], node: Node) -> bool
    requires { domain.now ≡ domain_of proc.now }
    ensures { result ≡ is_instance proc.now rule.now binding.now node }
{
    rule_matches(proc, rule, binding, node) && is_rule_in(proc, domain, rule)
}

/// What operands stand for under a binding, where there are no more than six.
pub fn args_under(binding: &[Arg], bases: &[RuleBase]) -> Option<Args>
    ensures found { IfSome result (λ args. args ≡ map (arg_under binding.now) bases.now) }
    ensures none { IfNone result (6 < length bases.now) }
{
    if bases.len() > 6 {
        return None;
    }
    let mut args = Args::new();
    for base in bases {
        args.push(arg_under(binding, *base));
    }
    Some(args)
}

fn are_args_under(binding: &[Arg], bases: &[RuleBase], args: &[Arg]) -> bool
    ensures { result ≡ args_eq (map (arg_under binding.now) bases.now) args.now }
{
    let Some((base, other_bases)) = bases.split_first() else {
        return args.is_empty();
    };
    let Some((arg, other_args)) = args.split_first() else {
        return false;
    };
    arg_under(binding, *base) == *arg && are_args_under(binding, other_bases, other_args)
}

/// Whether under a binding a use of a schema is the fact of this schema with these arguments.
pub fn is_fact_under(binding: &[Arg], fact: &FactUse, schema: u32, args: &[Arg]) -> bool
    ensures { result ≡ is_fact_under binding.now fact.now schema args.now }
{
    fact.schema == schema && are_args_under(binding, fact.args.as_slice(), args)
}
