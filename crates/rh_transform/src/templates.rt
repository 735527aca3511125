//! The template that takes the place of a statement.
ghost use Rattle.std.specs.Prelude.{◌≡◌, Some, length, option_copied, slice_get};
ghost use Rattle.std.specs.Option.{option_and_then, option_map};
ghost use Rattle.rh_il.specs.declared.program.Proc.{Proc};
ghost use Rattle.rh_il.specs.declared.program.Stmt.{Stmt as AStmt};
ghost use Rattle.rh_ground.specs.Match.{template_under};
ghost use Rattle.rh_rows.specs.Known.{known_in};
ghost use Rattle.rh_transform.specs.Rewritten.{first_applicable, template_by};

use rh_domain::Args;
use rh_ground::template_under;
use rh_il::{Node, Program, Stmt};
use rh_rows::Ground;
use rh_rule::{Conclusion, Form, Rule, Ruling};

fn statement_at(program: &Program, place: u32, number: u32) -> Option<Stmt>
    ensures { result ≡ option_and_then (λ proc. slice_get proc.body number) (slice_get program.now place) }
{
    let proc = program.proc(place)?;
    proc.body.as_slice().get(number as usize).copied()
}

fn rule_count(ground: &Ground) -> u32
    ensures { result ≡ length ground.now.file.rules }
{
    ground.file().rules().len() as u32
}

fn rule_at(ground: &Ground, rule: u32) -> Option<&Rule>
    ensures { option_copied result ≡ slice_get ground.now.file.rules rule }
{
    ground.file().rules().get(rule as usize)
}

fn ruling_at(ground: &Ground, rule: u32) -> Option<Ruling>
    ensures { result ≡ slice_get ground.now.rulings rule }
{
    ground.rulings().get(rule as usize).copied()
}

/// A template under the binding that was found.
fn template_for(found: Option<Args>, template: Form, stmt: Stmt) -> Option<Stmt>
    ensures { result ≡ option_map (λ binding. template_under binding template stmt) found }
{
    let binding = found?;
    Some(template_under(binding.as_slice(), template, stmt))
}

/// The template of a rule that is proved, under its first applicable binding.
fn template_at(
    ground: &Ground,
    words: &[u64],
    place: u32,
    number: u32,
    stmt: Stmt,
    rule: u32,
) -> Option<Stmt>
    ensures { (proc : Proc) → slice_get ground.now.program place ≡ Some proc
        → result ≡ template_by (known_in ground.now.file.schemas ground.now.program words.now) ground.now.file.rules ground.now.rulings place proc number stmt rule }
{
    let shape = rule_at(ground, rule)?;
    match (ruling_at(ground, rule)?, &shape.conclusion) {
        (Ruling::Admitted, Conclusion::Transform(template)) => {
            let found = ground.first_instance(words, place, Node::At(number), rule);
            template_for(found, *template, stmt)
        }
        _ => None,
    }
}

/// The template of the first proved transformation rule that has an instance at a statement, each of
/// whose premises stands in the words on every edge that enters the statement: under the first such
/// binding. None if there is none, or no such statement.
pub fn first_rewrite(ground: &Ground, words: &[u64], place: u32, number: u32) -> Option<Stmt>
    ensures { (proc : Proc) (stmt : AStmt) → slice_get ground.now.program place ≡ Some proc → slice_get proc.body number ≡ Some stmt
        → result ≡ option_map (λ candidate. template_under candidate.binding candidate.template stmt)
        (first_applicable (known_in ground.now.file.schemas ground.now.program words.now) ground.now.file.rules ground.now.rulings place proc number) }
{
    let stmt = statement_at(ground.program(), place, number)?;
    for rule in 0..rule_count(ground) {
        if let Some(new) = template_at(ground, words, place, number, stmt, rule) {
            return Some(new);
        }
    }
    None
}
