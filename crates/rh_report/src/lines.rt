//! A line for each rule, a line for each known fact, and the program after them.
ghost use Rattle.std.specs.Prelude.{◌≡◌, ◌++◌, IfOk, OnOk, length};
ghost use Rattle.rh_il.specs.Checks.{IsProgram};
ghost use Rattle.rh_il_text.specs.Program.{IsText};
ghost use Rattle.rh_il_print.specs.Text.{program_text};
ghost use Rattle.rh_rows.specs.Known.{known_in};
ghost use Rattle.rh_report.specs.Output.{fact_lines, rule_line, rule_lines, ruling_text};

use crate::known::push_known;
use rh_il::Program;
use rh_il_print::print_program;
use rh_print::push;
use rh_rows::Ground;
use rh_rule::{Rule, Ruling};
use std::alloc::{AllocError, Global};

fn push_ruling(alloc: Global, out: &mut Vec<u8>, ruling: Ruling) -> Result<(), AllocError>
    ensures { OnOk result (out.new.items ≡ out.old.items ++ ruling_text ruling) }
{
    match ruling {
        Ruling::Admitted => push(out, b" admitted\n"),
        Ruling::Refused(obligation) => {
            let text = format!(in alloc; " refused at {obligation}\n")?;
            push(out, text.as_bytes())
        }
    }
}

fn push_rule_line(
    alloc: Global,
    out: &mut Vec<u8>,
    rule: &Rule,
    ruling: Ruling,
) -> Result<(), AllocError>
    ensures { OnOk result (out.new.items ≡ out.old.items ++ rule_line rule.now ruling) }
{
    push(out, b"# rule ")?;
    push(out, rule.name.bytes())?;
    push_ruling(alloc, out, ruling)
}

fn push_rule_lines(
    alloc: Global,
    out: &mut Vec<u8>,
    rules: &[Rule],
    rulings: &[Ruling],
) -> Result<(), AllocError>
    requires { length rules.now ≡ length rulings.now }
    ensures { OnOk result (out.new.items ≡ out.old.items ++ rule_lines rules.now rulings.now) }
{
    for number in 0..rules.len() {
        push_rule_line(alloc, out, &rules[number], rulings[number])?;
    }
    Ok(())
}

/// A line for each rule with its ruling, in the order of the rules.
pub fn rule_lines(alloc: Global, rules: &[Rule], rulings: &[Ruling]) -> Result<Vec<u8>, AllocError>
    requires { length rules.now ≡ length rulings.now }
    ensures { IfOk result (λ text. text.items ≡ rule_lines rules.now rulings.now) }
{
    let mut out = Vec::new(alloc);
    push_rule_lines(alloc, &mut out, rules, rulings)?;
    Ok(out)
}

/// A law: a program passes every check.
fn is_program(program: &Program)
    ensures { IsProgram program.now }
{
    let _count = program.count();
}

/// The output of `opt`: each rule with its ruling, each fact of the program whose bit stands in the words, and the
/// rewritten program `q`. Missing words count as 0, and bits that stand for no fact add no line. The lines before `q`
/// are comments, so the whole is a text of it.
pub fn report(
    alloc: Global,
    ground: &Ground,
    words: &[u64],
    q: &Program,
) -> Result<Vec<u8>, AllocError>
    ensures text { IfOk result (λ text. text.items ≡ rule_lines ground.now.file.rules ground.now.rulings ++ fact_lines ground.now.file.schemas ground.now.program (known_in ground.now.file.schemas ground.now.program words.now) ++ program_text q.now) }
    ensures program { IfOk result (λ text. IsText text.items q.now) }
{
    let file = ground.file();
    let program = ground.program();
    is_program(program);
    let mut out = Vec::new(alloc);
    push_rule_lines(alloc, &mut out, file.rules(), ground.rulings())?;
    push_known(
        alloc,
        &mut out,
        file.schemas(),
        program,
        ground.layout(),
        words,
    )?;
    push(&mut out, print_program(alloc, q)?.as_slice())?;
    Ok(out)
}
