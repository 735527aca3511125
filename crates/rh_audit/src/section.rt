//! One section, checked against the rule that it names.
ghost use Rattle.std.specs.Prelude.{ℕ, ◌≡◌, ◌≢◌, ◌≤◌, ◌<◌, ◌↔◌, Some, IfOk, IfErr, OnOk, IsTrue, MatchOption, length, slice_get};
ghost use Rattle.rh_admit.specs.Admission.{IsShut, Part};
ghost use Rattle.rh_audit.specs.Audit.{HaveFewTerms};
ghost use Rattle.rh_audit.specs.Walk.{BreaksWith, IsPassed, IsProof, IsProved, StopsWith};
ghost use Rattle.rh_list.specs.Each.{Each};
ghost use Rattle.rh_oblig.specs.Obligation.{IsAdmitted, obligations_of, parts_of};
ghost use Rattle.rh_rule.specs.declared.rule.Rule.{Rule};
ghost use Rattle.rh_rule.specs.RuleFiles.{OfRule};

use crate::fault::AuditFault;
use rh_il::Name;
use rh_log::check;
use rh_log_text::{PlacedLog, RuleLogs};
use rh_oblig::{ObligFault, obligations};
use rh_rule::{Rule, RuleFile};
use rh_term::Obligation;
use std::alloc::{AllocError, Global};

/// Checks that a section names a rule from the number `next` on, and that its logs prove it. Gives the
/// number of the rule.
pub(crate) fn check_section(
    alloc: Global,
    file: &RuleFile,
    next: usize,
    section: &RuleLogs,
) -> Result<usize, AuditFault>
    requires few { HaveFewTerms file.now }
    ensures passed { IfOk result (IsPassed file.now next section.now) }
    ensures fault { IfErr result (StopsWith file.now next section.now) }
{
    match place_from(file.rules(), next, section.name) {
        Some(rule) => {
            check_rule(alloc, file, rule as u32, section)?;
            Ok(rule)
        }
        None => Err(AuditFault::BadLog(section.line)),
    }
}

/// The place from `next` on of a rule with this name.
fn place_from(rules: &[Rule], next: usize, name: Name) -> Option<usize>
    ensures { MatchOption result
        ((number : ℕ) (rule : Rule) → next ≤ number → slice_get rules.now number ≡ Some rule → name ≢ rule.name)
        (λ place. (next ≤ place) × (rule : Rule) × (slice_get rules.now place ≡ Some rule) × (name ≡ rule.name)) }
{
    for place in next..rules.len() {
        if is_called(&rules[place], name) {
            return Some(place);
        }
    }
    None
}

fn is_called(rule: &Rule, name: Name) -> bool
    ensures { IsTrue result ↔ (name ≡ rule.now.name) }
{
    name.bytes() == rule.name.bytes()
}

/// Checks the logs of a section, which are of the rule with this number.
fn check_rule(
    alloc: Global,
    file: &RuleFile,
    rule: u32,
    section: &RuleLogs,
) -> Result<(), AuditFault>
    requires within { rule < length file.now.rules }
    requires few { HaveFewTerms file.now }
    ensures proved { OnOk result (OfRule file.now rule (λ schemas described. IsProved (obligations_of schemas described) section.now × IsAdmitted schemas described)) }
    ensures fault { IfErr result (λ fault. OfRule file.now rule (λ schemas described. BreaksWith (obligations_of schemas described) section.now fault)) }
{
    match obligations(alloc, file, rule) {
        Ok(made) => check_logs(alloc, made.as_slice(), section),
        Err(ObligFault::TooManyTerms(_)) => unreachable!(),
        Err(ObligFault::NoMemory) => Err(AuditFault::NoMemory),
    }
}

/// Checks the logs of a section against the obligations of its rule.
fn check_logs(
    alloc: Global,
    obligations: &[Obligation],
    section: &RuleLogs,
) -> Result<(), AuditFault>
    ensures proved { OnOk result (IsProved (parts_of obligations.now) section.now) }
    ensures shut { OnOk result (Each IsShut (parts_of obligations.now)) }
    ensures fault { IfErr result (BreaksWith (parts_of obligations.now) section.now) }
{
    let logs = section.logs.as_slice();
    for (number, log) in logs.iter().enumerate() {
        if !is_proof(alloc, obligations, number, log)? {
            return Err(AuditFault::BadLog(log.line));
        }
    }
    if logs.len() < obligations.len() {
        return Err(AuditFault::BadLog(section.end));
    }
    Ok(())
}

/// Whether the log has this number, and is a closed tree of the obligation with it.
fn is_proof(
    alloc: Global,
    obligations: &[Obligation],
    number: usize,
    log: &PlacedLog,
) -> Result<bool, AllocError>
    ensures proof { IfOk result (λ proves. IsTrue proves ↔ IsProof (parts_of obligations.now) number log.now) }
    ensures shut { IfOk result (λ proves. IsTrue proves → (part : Part) → slice_get (parts_of obligations.now) number ≡ Some part → IsShut part) }
{
    if log.number as usize != number {
        return Ok(false);
    }
    match obligations.get(number) {
        Some(obligation) => check(alloc, obligation, &log.log),
        None => Ok(false),
    }
}
