//! The rulings on all rules of a file.
ghost use Rattle.std.specs.Prelude.{◌≡◌, ◌<◌, ℕ, Ok, Err, IfOk, length, map};
ghost use Rattle.std.specs.List.{AllZip};
ghost use Rattle.rh_admit.specs.Rules.{AreAnswers, IsAnswer, IsFirstExcess, IsFirstFault, IsTold};
ghost use Rattle.rh_admit.specs.declared.all.AdmitFault.{AdmitFault};
ghost use Rattle.rh_oblig.specs.declared.obligation.ObligFault.{ObligFault};
ghost use Rattle.rh_rule.specs.RuleFiles.{OfRule};
ghost use Rattle.rh_admit.specs.Rules.{fault_of};

use crate::one::admit_rule;
use rayon::prelude::*;
use rh_log::Admission;
use rh_oblig::ObligFault;
use rh_rule::RuleFile;
use std::alloc::{AllocError, AllocFailed, Global};
use std::thread::Threads;
use thiserror::Error;

/// Why the rules were not ruled on.
#[derive(Clone, Copy, Debug, PartialEq, Eq, Error)]
pub enum AdmitFault {
    /// An obligation of the rule with this number has more than 512 terms, and it is the first rule with
    /// such: so many terms, in the first such obligation.
    #[error("{count} terms at rule {rule}")]
    TooManyTerms { rule: u32, count: u64 },
    /// There was no memory for the search.
    #[error("out of memory")]
    NoMemory,
}

impl From<AllocError> for AdmitFault {
    ghost use Rattle.rh_admit.specs.declared.all.AdmitFault.TheVariants.{NoMemory};

    ghost from_gives = { λ _ fault. fault ≡ NoMemory };

    fn from(_error: AllocError) -> AdmitFault {
        AdmitFault::NoMemory
    }
}

impl<T: Drop> From<AllocFailed<T>> for AdmitFault {
    ghost use Rattle.rh_admit.specs.declared.all.AdmitFault.TheVariants.{NoMemory};

    ghost from_gives = { λ _ fault. fault ≡ NoMemory };

    fn from(_error: AllocFailed<T>) -> AdmitFault {
        AdmitFault::NoMemory
    }
}

/// Rules on each of the rules of a file, in their order. The rules are proved by several threads; which thread
/// proves a rule changes nothing in the answer.
pub fn admit<R: Threads + Sync>(
    rt: &R,
    alloc: Global,
    file: &RuleFile,
) -> Result<Vec<Admission>, AdmitFault>
    ensures told { IfOk result (λ made. AllZip (IsTold file.now.schemas) file.now.rules made.items) }
    ensures too_many { (rule count : ℕ) → result ≡ Err (AdmitFault.TooManyTerms rule count)
        → IsFirstExcess file.now.schemas file.now.rules rule count }
{
    let answers = answers_of(rt, alloc, file)?;
    admissions_in(alloc, answers)
}

/// The answer on each rule, in their order.
fn answers_of<R: Threads + Sync>(
    rt: &R,
    alloc: Global,
    file: &RuleFile,
) -> Result<Vec<Result<Admission, AdmitFault>>, AllocError>
    ensures { IfOk result (λ answers. AreAnswers file.now answers.items) }
{
    // A rule is worth a thread, so the least piece is one rule.
    (0..rule_count(file))
        .into_par_iter()
        .with_min_len(1)
        .map(
            |number: u32| -> Result<Admission, AdmitFault>
                requires { number < length file.now.rules }
                ensures { OfRule file.entry.now number (λ schemas rule. IsAnswer schemas rule number result) }
            { answer_on(alloc, file, number) },
        )
        .collect(rt, alloc)
}

/// The answer on the rule with this number, which its fault names.
fn answer_on(alloc: Global, file: &RuleFile, number: u32) -> Result<Admission, AdmitFault>
    requires { number < length file.now.rules }
    ensures { OfRule file.now number (λ schemas rule. IsAnswer schemas rule number result) }
{
    match admit_rule(alloc, file, number) {
        Ok(admission) => Ok(admission),
        Err(fault) => Err(fault_of(number, fault)),
    }
}

/// The admissions, or the first fault in the order of the rules, whichever thread came upon a fault first.
fn admissions_in(
    alloc: Global,
    answers: Vec<Result<Admission, AdmitFault>>,
) -> Result<Vec<Admission>, AdmitFault>
    ensures admissions { IfOk result (λ made. answers.items ≡ map Ok made.items) }
    ensures fault { (rule count : ℕ) → result ≡ Err (AdmitFault.TooManyTerms rule count)
        → IsFirstFault answers.items (AdmitFault.TooManyTerms rule count) }
{
    let mut made = Vec::with_capacity(alloc, answers.len())?;
    for answer in answers {
        made.push(answer?)?;
    }
    Ok(made)
}

/// How many rules the file has.
fn rule_count(file: &RuleFile) -> u32
    ensures { result ≡ length file.now.rules }
{
    file.rules().len() as u32
}

/// The fault of a rule, with its number.
fn fault_of(rule: u32, fault: ObligFault) -> AdmitFault
    ensures { result ≡ fault_of rule fault }
{
    match fault {
        ObligFault::TooManyTerms(count) => AdmitFault::TooManyTerms { rule, count },
        ObligFault::NoMemory => AdmitFault::NoMemory,
    }
}
