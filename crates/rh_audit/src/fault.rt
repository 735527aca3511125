//! The errors of an audit.
ghost use Rattle.std.specs.Prelude.{◌≡◌};

use std::alloc::{AllocError, AllocFailed};
use thiserror::Error;

/// Why logs were not accepted.
#[derive(Clone, Copy, Debug, PartialEq, Eq, Error)]
pub enum AuditFault {
    /// The first line at fault, from 1 on: the text is no text of logs there, or a section or a log that
    /// begins or ends there does not prove its rule.
    #[error("line {0}")]
    BadLog(u64),
    /// An obligation of the rule with this number has more than 512 terms, and it is the first rule with
    /// such: so many terms, in the first such obligation.
    #[error("{count} terms at rule {rule}")]
    TooManyTerms { rule: u32, count: u64 },
    /// There was no memory for the logs.
    #[error("out of memory")]
    NoMemory,
}

impl From<AllocError> for AuditFault {
    ghost use Rattle.rh_audit.specs.declared.fault.AuditFault.TheVariants.{NoMemory};

    ghost from_gives = { λ _ fault. fault ≡ NoMemory };

    fn from(_error: AllocError) -> AuditFault {
        AuditFault::NoMemory
    }
}

impl<T: Drop> From<AllocFailed<T>> for AuditFault {
    ghost use Rattle.rh_audit.specs.declared.fault.AuditFault.TheVariants.{NoMemory};

    ghost from_gives = { λ _ fault. fault ≡ NoMemory };

    fn from(_error: AllocFailed<T>) -> AuditFault {
        AuditFault::NoMemory
    }
}
