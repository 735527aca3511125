//! The ruling on one rule.
ghost use Rattle.std.specs.Prelude.{◌≡◌, ◌<◌, ◌^◌, ℕ, Some, Err, IfOk, length};
ghost use Rattle.std.specs.List.{All};
ghost use Rattle.rh_admit.specs.Admission.{IsDecision, IsKept};
ghost use Rattle.rh_admit.specs.Rules.{IsTold};
ghost use Rattle.rh_oblig.specs.Obligation.{IsSmall, excess, parts_of};
ghost use Rattle.rh_refuter.specs.Choice.{IsDecided, IsFound};
ghost use Rattle.rh_rule.specs.RuleFiles.{OfRule};

use rh_list::Items;
use rh_log::Admission;
use rh_oblig::{ObligFault, obligations};
use rh_refuter::{Verdict, refute};
use rh_rule::RuleFile;
use rh_term::Obligation;
use std::alloc::{AllocError, Global};

/// Whether a rule of a file is proved: the logs of closed trees of all its obligations, or the first
/// obligation that has an open partition, with the labels of one.
pub fn admit_rule(alloc: Global, file: &RuleFile, rule: u32) -> Result<Admission, ObligFault>
    requires { rule < length file.now.rules }
    ensures told { IfOk result (λ admission. OfRule file.now rule (λ schemas described. IsTold schemas described admission)) }
    ensures too_many { (count : ℕ) → result ≡ Err (ObligFault.TooManyTerms count)
        → OfRule file.now rule (λ schemas described. excess schemas described ≡ Some count) }
{
    let made = obligations(alloc, file, rule)?;
    Ok(decide_all(alloc, made.as_slice())?)
}

/// What comes of the obligations, looked at in order up to the first that has an open partition.
fn decide_all(alloc: Global, obligations: &[Obligation]) -> Result<Admission, AllocError>
    requires few { length obligations.now < 2 ^ 32 }
    requires small { All IsSmall obligations.now }
    ensures kept { IfOk result (IsKept (parts_of obligations.now)) }
    ensures decided { IfOk result (IsDecision (parts_of obligations.now)) }
{
    let mut logs = Items::new(alloc);
    for (number, obligation) in obligations.iter().enumerate() {
        match refute(alloc, obligation)? {
            Verdict::Closed(log) => logs.push(log)?,
            Verdict::Open(classes) => {
                return Ok(Admission::Refused {
                    obligation: number as u32,
                    classes,
                });
            }
        }
    }
    Ok(Admission::Admitted(logs))
}
