//! The command `audit`.
ghost use Rattle.std.specs.Prelude.{ℕ, ◌≡◌, ◌≤◌, List, length, IfErr, IfOk};
ghost use Rattle.rh_audit.specs.Audit.{IsAudited};
ghost use Rattle.rh_top.specs.Call.{file};
ghost use Rattle.rh_top.specs.Files.{most_log_bytes};
ghost use Rattle.rh_top.specs.Outputs.{IsOfLogs};
ghost use Rattle.rh_top.specs.Refusals.{RefusedOfLogs, RefusesLogText, of_audit};

use crate::input::{log_in, rules_in};
use rh_audit::AuditFault;
use rh_outside::Shelf;
use rh_report::{Large, Status};
use rh_rule::RuleFile;
use std::alloc::Global;

fn of_audit(fault: AuditFault) -> Status
    ensures { result ≡ of_audit fault }
{
    match fault {
        AuditFault::BadLog(line) => Status::BadLog(line),
        AuditFault::TooManyTerms { rule, count } => Status::TooLarge(Large::Terms { rule, count }),
        AuditFault::NoMemory => Status::NoMemory,
    }
}

/// The output of `audit` for a rule file and a text of logs.
fn audited(alloc: Global, file: &RuleFile, text: &[u8]) -> Result<Vec<u8>, Status>
    requires { length text.now ≤ most_log_bytes }
    ensures audited { IfOk result (λ out. IsAudited file.now text.now out.items) }
    ensures refused { IfErr result (RefusesLogText file.now text.now) }
{
    match rh_audit::audit(alloc, file, text) {
        Ok(out) => Ok(out),
        Err(fault) => Err(of_audit(fault)),
    }
}

/// Checks a file of logs against a rule file.
pub(crate) fn audit<S: Shelf>(
    alloc: Global,
    rules: &str,
    log: &str,
    shelf: &mut S,
) -> Result<Vec<u8>, Status>
    ensures made { IfOk result (λ text. IsOfLogs (S.holds shelf.old rules.now) (S.holds shelf.old log.now) text.items) }
    ensures refused { IfErr result (RefusedOfLogs
        (file (record { holds = S.holds shelf.old; faults_before = S.faults shelf.old; faults_after = S.faults shelf.new }) rules.now)
        (file (record { holds = S.holds shelf.old; faults_before = S.faults shelf.old; faults_after = S.faults shelf.new }) log.now)) }
{
    let file = rules_in(alloc, shelf, rules)?;
    let text = log_in(alloc, shelf, log)?;
    match audited(alloc, &file, text.as_slice()) {
        Ok(out) => Ok(out),
        Err(status) => Err(status),
    }
}
