//! The limit on terms, which comes before any log is checked.
ghost use Rattle.std.specs.Prelude.{◌≡◌, OnOk, IfErr, length};
ghost use Rattle.rh_audit.specs.Audit.{HaveFewTerms};
ghost use Rattle.rh_audit.specs.Walk.{ExceedsWith, of_rule};

use crate::fault::AuditFault;
use rh_oblig::{ObligFault, obligations};
use rh_rule::RuleFile;
use std::alloc::Global;

/// Finds the first rule with an obligation of too many terms.
pub(crate) fn check_terms(alloc: Global, file: &RuleFile) -> Result<(), AuditFault>
    ensures few { OnOk result (HaveFewTerms file.now) }
    ensures fault { IfErr result (ExceedsWith file.now) }
{
    for rule in 0..rule_count(file) {
        if let Err(fault) = obligations(alloc, file, rule) {
            return Err(of_rule(rule, fault));
        }
    }
    Ok(())
}

/// How many rules the file has.
fn rule_count(file: &RuleFile) -> u32
    ensures { result ≡ length file.now.rules }
{
    file.rules().len() as u32
}

/// The fault of a rule, with its number.
fn of_rule(rule: u32, fault: ObligFault) -> AuditFault
    ensures { result ≡ of_rule rule fault }
{
    match fault {
        ObligFault::TooManyTerms(count) => AuditFault::TooManyTerms { rule, count },
        ObligFault::NoMemory => AuditFault::NoMemory,
    }
}
