//! The facts of a program: what `opt` prints of them, and what `gen` counts.
ghost use Rattle.std.specs.Prelude.{◌≡◌, ◌<◌, ◌≤◌, IfErr, IfOk, OnOk};
ghost use Rattle.std.specs.List.{AllZip};
ghost use Rattle.rh_il.specs.Checks.{IsProgram};
ghost use Rattle.rh_oblig.specs.Ruling.{IsRuling};
ghost use Rattle.rh_rule.specs.RuleFiles.{IsRuleFile};
ghost use Rattle.rh_audit.specs.Audit.{HaveFewTerms};
ghost use Rattle.rh_top.specs.Counts.{HaveRoom, RefusesCounts, of_layout};
ghost use Rattle.rh_top.specs.Result.{IsCounted, IsResult};

use crate::analysis::analyse;
use crate::ruled::ruled;
use rh_il::{Program, numbers_fit};
use rh_layout::LayoutFault;
use rh_outside::Gate;
use rh_report::{Large, Status, counts, report};
use rh_rows::Ground;
use rh_rule::RuleFile;
use rh_transform::rewrite;
use std::alloc::{AllocError, Global};
use std::thread::Threads;

fn of_layout(fault: LayoutFault) -> Status
    ensures { result ≡ of_layout fault }
{
    match fault {
        LayoutFault::TooManyFacts { proc, count } => Status::TooLarge(Large::Facts { proc, count }),
        LayoutFault::TooManyWords(count) => Status::TooLarge(Large::Words { count }),
        LayoutFault::NoMemory => Status::NoMemory,
    }
}

/// A rule file with its rulings and a program, with the bits of the program's facts.
pub(crate) fn grounded<R: Threads + Sync>(
    rt: &R,
    alloc: Global,
    file: &RuleFile,
    program: &Program,
) -> Result<Ground, Status>
    ensures file { IfOk result (λ ground. ground.file ≡ file.now) }
    ensures program { IfOk result (λ ground. ground.program ≡ program.now) }
    ensures ruled { IfOk result (λ ground. AllZip (IsRuling file.now.schemas) file.now.rules ground.rulings) }
    ensures few_terms { OnOk result (HaveFewTerms file.now) }
    ensures room { OnOk result (HaveRoom file.now program.now) }
    ensures refused { IfErr result (RefusesCounts file.now program.now) }
{
    let rulings = match ruled(rt, alloc, file) {
        Ok(rulings) => rulings,
        Err(status) => return Err(status),
    };
    match Ground::new(alloc, file, rulings.as_slice(), program) {
        Ok(ground) => Ok(ground),
        Err(fault) => Err(of_layout(fault)),
    }
}

/// A law: a rule file passes every check.
fn is_rule_file(file: &RuleFile)
    ensures { IsRuleFile file.now }
{
    let _rules = file.rules();
}

/// A law: a program passes every check.
fn passes_checks(program: &Program)
    ensures { IsProgram program.now }
{
    let _count = program.count();
}

/// What `opt` prints: the rulings, the facts and the rewritten program.
pub(crate) fn result_of<R: Threads + Sync, G: Gate + Sync>(
    rt: &R,
    alloc: Global,
    ground: &Ground,
    workers: u32,
    gate: &G,
) -> Result<Vec<u8>, AllocError>
    requires some { 0 < workers }
    requires few { workers ≤ 16 }
    requires ruled { AllZip (IsRuling ground.now.file.schemas) ground.now.file.rules ground.now.rulings }
    ensures { IfOk result (λ text. IsResult ground.now.file ground.now.program text.items) }
{
    is_rule_file(ground.file());
    numbers_fit(ground.program());
    passes_checks(ground.program());
    let analysed = analyse(rt, alloc, ground, workers, gate)?;
    let words = analysed.words.as_slice();
    let rewritten = rewrite(alloc, ground, words)?;
    report(alloc, ground, words, &rewritten)
}

/// What `gen` prints: how many procedures, rules, facts and rewritten statements there are.
pub(crate) fn counts_of<R: Threads + Sync, G: Gate + Sync>(
    rt: &R,
    alloc: Global,
    ground: &Ground,
    workers: u32,
    gate: &G,
) -> Result<Vec<u8>, AllocError>
    requires some { 0 < workers }
    requires few { workers ≤ 16 }
    requires ruled { AllZip (IsRuling ground.now.file.schemas) ground.now.file.rules ground.now.rulings }
    ensures { IfOk result (λ text. IsCounted ground.now.file ground.now.program text.items) }
{
    is_rule_file(ground.file());
    let analysed = analyse(rt, alloc, ground, workers, gate)?;
    counts(alloc, ground, analysed.words.as_slice())
}
