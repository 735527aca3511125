//! The walk over the sections, in their order.
ghost use Rattle.std.specs.Prelude.{ℕ, ◌≡◌, List, IfOk, IfErr, OnOk, false, map, replicate};
ghost use Rattle.rh_audit.specs.Audit.{AreAdmitted, HaveFewTerms, RefusesAudit, has_logs};
ghost use Rattle.rh_audit.specs.declared.fault.AuditFault.TheVariants.{NoMemory};
ghost use Rattle.rh_audit.specs.Faults.{IsAtFault};
ghost use Rattle.rh_log_text.specs.Text.{IsLogText};

use crate::fault::AuditFault;
use crate::section::check_section;
use rh_log_text::RuleLogs;
use rh_rule::RuleFile;
use std::alloc::{AllocError, Global};

/// Checks each section, and marks the rules that have one.
pub(crate) fn check_sections(
    alloc: Global,
    file: &RuleFile,
    sections: &[RuleLogs],
) -> Result<Vec<bool>, AuditFault>
    requires few { HaveFewTerms file.now }
    ensures marks { IfOk result (λ marks. marks.items ≡ map (has_logs sections.now) file.now.rules) }
    ensures faultless { OnOk result ((line : ℕ) → ¬ (IsAtFault file.now sections.now line)) }
    ensures admitted { OnOk result (AreAdmitted file.now sections.now) }
    ensures fault { IfErr result (λ fault. (text : List ℕ) → IsLogText text sections.now → RefusesAudit file.now text fault) }
    ensures spared { IfErr result (λ fault. ((line : ℕ) → ¬ (IsAtFault file.now sections.now line)) → fault ≡ NoMemory) }
{
    let mut marks = unmarked(alloc, file.rules().len())?;
    let mut next = 0;
    for section in sections {
        let rule = check_section(alloc, file, next, section)?;
        marks[rule] = true;
        next = rule + 1;
    }
    Ok(marks)
}

fn unmarked(alloc: Global, count: usize) -> Result<Vec<bool>, AllocError>
    ensures { IfOk result (λ marks. marks.items ≡ replicate count false) }
{
    vec![in alloc; false; count]
}
