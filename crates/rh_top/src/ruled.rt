//! Rule files alone: their rulings, and their logs.
ghost use Rattle.std.specs.Prelude.{ℕ, ◌≡◌, List, map, IfErr, IfOk, OnOk};
ghost use Rattle.std.specs.List.{AllZip};
ghost use Rattle.rh_admit.specs.Rules.{IsTold};
ghost use Rattle.rh_log.specs.Admission.{ruling_of};
ghost use Rattle.rh_oblig.specs.Ruling.{IsRuling};
ghost use Rattle.rh_audit.specs.Audit.{HaveFewTerms};
ghost use Rattle.rh_top.specs.Counts.{RefusesTerms, of_admit};
ghost use Rattle.rh_top.specs.Outputs.{IsOfRules};
ghost use Rattle.rh_top.specs.Refusals.{RefusedOfRules};
ghost use Rattle.rh_top.specs.Result.{IsChecked, IsProved};

use crate::input::rules_in;
use rh_admit::{AdmitFault, admit};
use rh_audit::proofs;
use rh_log::Admission;
use rh_outside::Shelf;
use rh_report::{Large, Status, rule_lines};
use rh_rule::{RuleFile, Ruling};
use std::alloc::{AllocError, Global};
use std::thread::Threads;

fn rulings_of(alloc: Global, admissions: &[Admission]) -> Result<Vec<Ruling>, AllocError>
    ensures { IfOk result (λ rulings. rulings.items ≡ map ruling_of admissions.now) }
{
    let mut rulings = Vec::with_capacity(alloc, admissions.len())?;
    for admission in admissions {
        rulings.push(admission.ruling())?;
    }
    Ok(rulings)
}

fn of_admit(fault: AdmitFault) -> Status
    ensures { result ≡ of_admit fault }
{
    match fault {
        AdmitFault::TooManyTerms { rule, count } => Status::TooLarge(Large::Terms { rule, count }),
        AdmitFault::NoMemory => Status::NoMemory,
    }
}

/// What the prover finds of each rule of a file.
fn admissions_of<R: Threads + Sync>(
    rt: &R,
    alloc: Global,
    file: &RuleFile,
) -> Result<Vec<Admission>, Status>
    ensures few_terms { OnOk result (HaveFewTerms file.now) }
    ensures told { IfOk result (λ admissions. AllZip (IsTold file.now.schemas) file.now.rules admissions.items) }
    ensures refused { IfErr result (RefusesTerms file.now) }
{
    match admit(rt, alloc, file) {
        Ok(admissions) => Ok(admissions),
        Err(fault) => Err(of_admit(fault)),
    }
}

/// The rulings on the rules of a file.
pub(crate) fn ruled<R: Threads + Sync>(
    rt: &R,
    alloc: Global,
    file: &RuleFile,
) -> Result<Vec<Ruling>, Status>
    ensures few_terms { OnOk result (HaveFewTerms file.now) }
    ensures ruled { IfOk result (λ rulings. AllZip (IsRuling file.now.schemas) file.now.rules rulings.items) }
    ensures refused { IfErr result (RefusesTerms file.now) }
{
    let admissions = admissions_of(rt, alloc, file)?;
    Ok(rulings_of(alloc, admissions.as_slice())?)
}

/// The output of `check` on a rule file.
fn checked<R: Threads + Sync>(rt: &R, alloc: Global, file: &RuleFile) -> Result<Vec<u8>, Status>
    ensures few_terms { OnOk result (HaveFewTerms file.now) }
    ensures result { IfOk result (λ text. IsChecked file.now text.items) }
    ensures refused { IfErr result (RefusesTerms file.now) }
{
    let rulings = ruled(rt, alloc, file)?;
    Ok(rule_lines(alloc, file.rules(), rulings.as_slice())?)
}

/// The rulings that admissions tell, and the logs of the proved rules after them.
fn proved_text(
    alloc: Global,
    file: &RuleFile,
    admissions: Vec<Admission>,
) -> Result<Vec<u8>, AllocError>
    requires { AllZip (IsTold file.now.schemas) file.now.rules admissions.items }
    ensures { IfOk result (λ text. IsProved file.now text.items) }
{
    let rulings = rulings_of(alloc, admissions.as_slice())?;
    let mut text = rule_lines(alloc, file.rules(), rulings.as_slice())?;
    let logs = proofs(alloc, file, admissions)?;
    text.extend_from_slice(logs.as_slice())?;
    Ok(text)
}

/// The output of `prove` on a rule file.
fn proved<R: Threads + Sync>(rt: &R, alloc: Global, file: &RuleFile) -> Result<Vec<u8>, Status>
    ensures few_terms { OnOk result (HaveFewTerms file.now) }
    ensures result { IfOk result (λ text. IsProved file.now text.items) }
    ensures refused { IfErr result (RefusesTerms file.now) }
{
    let admissions = admissions_of(rt, alloc, file)?;
    Ok(proved_text(alloc, file, admissions)?)
}

/// Rules on the rules of a file.
pub(crate) fn check<R: Threads + Sync, S: Shelf>(
    rt: &R,
    alloc: Global,
    rules: &str,
    shelf: &mut S,
) -> Result<Vec<u8>, Status>
    ensures made { IfOk result (λ text. IsOfRules IsChecked (S.holds shelf.old rules.now) text.items) }
    ensures refused { IfErr result (RefusedOfRules (record { held = S.holds shelf.old rules.now; faults_before = S.faults shelf.old rules.now; faults_after = S.faults shelf.new rules.now })) }
{
    let file = rules_in(alloc, shelf, rules)?;
    checked(rt, alloc, &file)
}

/// Rules on the rules of a file, and gives the logs of those that are proved.
pub(crate) fn prove<R: Threads + Sync, S: Shelf>(
    rt: &R,
    alloc: Global,
    rules: &str,
    shelf: &mut S,
) -> Result<Vec<u8>, Status>
    ensures made { IfOk result (λ text. IsOfRules IsProved (S.holds shelf.old rules.now) text.items) }
    ensures refused { IfErr result (RefusedOfRules (record { held = S.holds shelf.old rules.now; faults_before = S.faults shelf.old rules.now; faults_after = S.faults shelf.new rules.now })) }
{
    let file = rules_in(alloc, shelf, rules)?;
    proved(rt, alloc, &file)
}
