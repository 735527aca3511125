//! Logs with the rules that they are of, and the lines at which they stand.
ghost use Rattle.std.specs.Prelude.{◌≡◌};

use rh_il::Name;
use rh_list::Items;
use rh_log::Log;
use std::alloc::{AllocError, AllocFailed};
use thiserror::Error;

/// A log in a text.
#[derive(Drop)]
pub struct PlacedLog {
    /// The number of its line `log NUMBER`, from 1 on.
    pub line: u64,
    /// The number that this line tells.
    pub number: u32,
    /// The log itself.
    pub log: Log,
}

/// The logs of a rule in a text.
#[derive(Drop)]
pub struct RuleLogs {
    /// The name of the rule.
    pub name: Name,
    /// The number of its line `rule NAME`, from 1 on.
    pub line: u64,
    /// The number of the next such line, or of the line behind the text.
    pub end: u64,
    /// The logs.
    pub logs: Items<PlacedLog>,
}

/// Why a text was not read.
#[derive(Clone, Copy, Debug, PartialEq, Eq, Error)]
pub enum LogFault {
    /// It is no text of logs: the first line with which none begins, or the line behind the text where
    /// more is wanted.
    #[error("line {0}")]
    Syntax(u64),
    /// There was no memory for the logs.
    #[error("out of memory")]
    NoMemory,
}

impl From<AllocError> for LogFault {
    ghost use Rattle.rh_log_text.specs.declared.logs.LogFault.TheVariants.{NoMemory};

    ghost from_gives = { λ _ fault. fault ≡ NoMemory };

    fn from(_error: AllocError) -> LogFault {
        LogFault::NoMemory
    }
}

impl<T: Drop> From<AllocFailed<T>> for LogFault {
    ghost use Rattle.rh_log_text.specs.declared.logs.LogFault.TheVariants.{NoMemory};

    ghost from_gives = { λ _ fault. fault ≡ NoMemory };

    fn from(_error: AllocFailed<T>) -> LogFault {
        LogFault::NoMemory
    }
}
