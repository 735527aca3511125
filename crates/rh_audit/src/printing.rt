//! The logs of the admitted rules, as a text.
ghost use Rattle.std.specs.Prelude.{◌≡◌, ◌++◌, ◌∷◌, [], IfOk, OnOk};
ghost use Rattle.rh_audit.specs.Proofs.{numbered_from, proofs_text, section_of, sections_of};

use rh_list::Items;
use rh_log::{Admission, Log};
use rh_log_text::{PlacedLog, RuleLogs, print_logs};
use rh_rule::{Rule, RuleFile};
use std::alloc::{AllocError, Global};

/// The logs of the admitted rules, as a text: what `prove` writes after the rulings.
pub fn proofs(
    alloc: Global,
    file: &RuleFile,
    admissions: Vec<Admission>,
) -> Result<Vec<u8>, AllocError>
    ensures { IfOk result (λ text. text.items ≡ proofs_text file.now.rules admissions.items) }
{
    let sections = sections_of(alloc, file.rules(), admissions)?;
    print_logs(alloc, sections.as_slice())
}

/// A section for each admitted rule.
fn sections_of(
    alloc: Global,
    rules: &[Rule],
    admissions: Vec<Admission>,
) -> Result<Vec<RuleLogs>, AllocError>
    ensures { IfOk result (λ sections. sections.items ≡ sections_of rules.now admissions.items) }
{
    let mut sections = Vec::new(alloc);
    let mut left = rules;
    for admission in admissions {
        let Some((rule, others)) = left.split_first() else {
            return Ok(sections);
        };
        push_section(alloc, &mut sections, rule, admission)?;
        left = others;
    }
    Ok(sections)
}

/// Adds the section of a rule, where it is admitted.
fn push_section(
    alloc: Global,
    sections: &mut Vec<RuleLogs>,
    rule: &Rule,
    admission: Admission,
) -> Result<(), AllocError>
    ensures { OnOk result (sections.new.items ≡ sections.old.items ++ sections_of (rule.now ∷ []) (admission ∷ [])) }
{
    match admission {
        Admission::Admitted(logs) => {
            sections.push(section_of(alloc, rule, logs)?)?;
            Ok(())
        }
        Admission::Refused { .. } => Ok(()),
    }
}

fn section_of(alloc: Global, rule: &Rule, logs: Items<Log>) -> Result<RuleLogs, AllocError>
    ensures { IfOk result (λ section. section ≡ section_of rule.now logs) }
{
    Ok(RuleLogs {
        name: rule.name,
        line: 0,
        end: 0,
        logs: numbered(alloc, logs.into_vec())?,
    })
}

/// The logs with their numbers from 0 on. More logs than 32 bits can number count as out of memory.
fn numbered(alloc: Global, logs: Vec<Log>) -> Result<Items<PlacedLog>, AllocError>
    ensures { IfOk result (λ placed. placed ≡ numbered_from 0 logs.items) }
{
    let mut placed = Items::new(alloc);
    for log in logs {
        let Ok(number) = u32::try_from(placed.len()) else {
            return Err(AllocError);
        };
        placed.push(PlacedLog {
            line: 0,
            number,
            log,
        })?;
    }
    Ok(placed)
}
