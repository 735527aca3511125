//! The audit of a text of logs: its grammar, the terms of all rules, and the logs.
ghost use Rattle.std.specs.Prelude.{ℕ, ◌≡◌, ◌≤◌, List, IfOk, IfErr, length};
ghost use Rattle.rh_audit.specs.Audit.{HaveFewTerms, IsAccepted, IsAudited, RefusesAudit};
ghost use Rattle.rh_audit.specs.declared.fault.AuditFault.TheVariants.{NoMemory};
ghost use Rattle.rh_audit.specs.Faults.{IsAtFault};
ghost use Rattle.rh_log_text.specs.Text.{IsLogText};

use crate::fault::AuditFault;
use crate::few_terms::check_terms;
use crate::lines::marked_lines;
use crate::walk::check_sections;
use rh_log_text::{LogFault, RuleLogs, read_logs};
use rh_rule::RuleFile;
use std::alloc::Global;

/// Checks a text of logs against a rule file, and gives a line for each rule: `# rule NAME proved` where the
/// text has the rule's logs, else `# rule NAME without log`.
///
/// The grammar of the text is checked first, then the terms of all rules of the file, and then the logs in
/// the order of their lines.
pub fn audit(alloc: Global, file: &RuleFile, text: &[u8]) -> Result<Vec<u8>, AuditFault>
    requires { length text.now ≤ 16777216 }
    ensures audited { IfOk result (λ out. IsAudited file.now text.now out.items) }
    ensures refused { IfErr result (RefusesAudit file.now text.now) }
    ensures accepted { IfErr result (λ fault. IsAccepted file.now text.now → fault ≡ NoMemory) }
{
    match read_logs(alloc, text) {
        Ok(sections) => audit_sections(alloc, file, sections.as_slice()),
        Err(LogFault::Syntax(line)) => Err(AuditFault::BadLog(line)),
        Err(LogFault::NoMemory) => Err(AuditFault::NoMemory),
    }
}

/// Checks the sections that a text consists of.
fn audit_sections(
    alloc: Global,
    file: &RuleFile,
    sections: &[RuleLogs],
) -> Result<Vec<u8>, AuditFault>
    ensures audited { IfOk result (λ out. (text : List ℕ) → IsLogText text sections.now → IsAudited file.now text out.items) }
    ensures refused { IfErr result (λ fault. (text : List ℕ) → IsLogText text sections.now → RefusesAudit file.now text fault) }
    ensures spared { IfErr result (λ fault. HaveFewTerms file.now → ((line : ℕ) → ¬ (IsAtFault file.now sections.now line)) → fault ≡ NoMemory) }
{
    check_terms(alloc, file)?;
    let marks = check_sections(alloc, file, sections)?;
    Ok(marked_lines(alloc, file.rules(), marks.as_slice())?)
}
