//! Rule files and programs together: the commands `opt` and `gen`.
ghost use Rattle.std.specs.Prelude.{◌≡◌, ◌<◌, ◌≤◌, Some, IfErr, IfOk, OnOk};
ghost use Rattle.rh_gen.specs.Generated.{generated};
ghost use Rattle.rh_gen.specs.Standard.{standard_rules};
ghost use Rattle.rh_il_print.specs.Text.{program_text};
ghost use Rattle.rh_top.specs.Call.{file, made};
ghost use Rattle.rh_audit.specs.Audit.{HaveFewTerms};
ghost use Rattle.rh_top.specs.Counts.{HaveRoom, RefusesCounts};
ghost use Rattle.rh_top.specs.Outputs.{IsOfBoth};
ghost use Rattle.rh_top.specs.Refusals.{RefusedOfBoth};
ghost use Rattle.rh_top.specs.Result.{IsCounted, IsResult};

use crate::facts::{counts_of, grounded, result_of};
use crate::input::{made_program, made_rules, program_in, rules_in};
use rh_gen::generate;
use rh_il::Program;
use rh_outside::{Gate, Shelf};
use rh_report::Status;
use rh_rule::RuleFile;
use std::alloc::Global;
use std::thread::Threads;

/// The output of `opt` for a rule file and a program.
fn optimised<R: Threads + Sync, G: Gate + Sync>(
    rt: &R,
    alloc: Global,
    file: &RuleFile,
    program: &Program,
    workers: u32,
    gate: &G,
) -> Result<Vec<u8>, Status>
    requires some { 0 < workers }
    requires few { workers ≤ 16 }
    ensures few_terms { OnOk result (HaveFewTerms file.now) }
    ensures room { OnOk result (HaveRoom file.now program.now) }
    ensures result { IfOk result (λ text. IsResult file.now program.now text.items) }
    ensures refused { IfErr result (RefusesCounts file.now program.now) }
{
    let ground = grounded(rt, alloc, file, program)?;
    Ok(result_of(rt, alloc, &ground, workers, gate)?)
}

/// The output of `gen` for a rule file and a program.
fn counted<R: Threads + Sync, G: Gate + Sync>(
    rt: &R,
    alloc: Global,
    file: &RuleFile,
    program: &Program,
    workers: u32,
    gate: &G,
) -> Result<Vec<u8>, Status>
    requires some { 0 < workers }
    requires few { workers ≤ 16 }
    ensures few_terms { OnOk result (HaveFewTerms file.now) }
    ensures room { OnOk result (HaveRoom file.now program.now) }
    ensures result { IfOk result (λ text. IsCounted file.now program.now text.items) }
    ensures refused { IfErr result (RefusesCounts file.now program.now) }
{
    let ground = grounded(rt, alloc, file, program)?;
    Ok(counts_of(rt, alloc, &ground, workers, gate)?)
}

/// Proves the rules of a file, computes the facts of a program, and rewrites it.
pub(crate) fn opt<R: Threads + Sync, S: Shelf, G: Gate + Sync>(
    rt: &R,
    alloc: Global,
    workers: u32,
    rules: &str,
    program: &str,
    shelf: &mut S,
    gate: &G,
) -> Result<Vec<u8>, Status>
    requires some { 0 < workers }
    requires few { workers ≤ 16 }
    ensures made { IfOk result (λ text. IsOfBoth IsResult (S.holds shelf.old rules.now) (S.holds shelf.old program.now) text.items) }
    ensures refused { IfErr result (RefusedOfBoth
        (file (record { holds = S.holds shelf.old; faults_before = S.faults shelf.old; faults_after = S.faults shelf.new }) rules.now)
        (file (record { holds = S.holds shelf.old; faults_before = S.faults shelf.old; faults_after = S.faults shelf.new }) program.now)) }
{
    let file = rules_in(alloc, shelf, rules)?;
    let program = program_in(alloc, shelf, program)?;
    match optimised(rt, alloc, &file, &program, workers, gate) {
        Ok(text) => Ok(text),
        Err(status) => Err(status),
    }
}

/// Does the work of `opt` on a made program with the standard rules, and counts what comes of it.
pub(crate) fn generate_and_count<R: Threads + Sync, G: Gate + Sync>(
    rt: &R,
    alloc: Global,
    workers: u32,
    n: u32,
    gate: &G,
) -> Result<Vec<u8>, Status>
    requires some { 0 < workers }
    requires few { workers ≤ 16 }
    requires small { n ≤ 255 }
    ensures made { IfOk result (λ text. IsOfBoth IsCounted (Some standard_rules) (Some (program_text (generated n))) text.items) }
    ensures refused { IfErr result (RefusedOfBoth (made standard_rules) (made (program_text (generated n)))) }
{
    let (rules, program) = generate(alloc, n)?;
    let file = made_rules(alloc, rules.as_slice())?;
    let program = made_program(alloc, program.as_slice())?;
    match counted(rt, alloc, &file, &program, workers, gate) {
        Ok(text) => Ok(text),
        Err(status) => Err(status),
    }
}
