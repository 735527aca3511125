//! How a command ends, and the line that tells a refusal.
ghost use Rattle.std.specs.Prelude.{◌≡◌, IfOk};
ghost use Rattle.rh_report.specs.Status.{line_of, number_of};

use crate::fault_text::{ProgramFaultText, RulesFaultText};
use rh_il_text::ReadFault;
use rh_rule_text::RulesFault;
use std::alloc::{AllocError, Global};
use std::fmt;

/// A file of a command.
#[derive(Clone, Copy, Debug, PartialEq, Eq)]
pub enum Part {
    Rules,
    Program,
    Log,
}

/// What passes its limit.
#[derive(Clone, Copy, Debug, PartialEq, Eq)]
pub enum Large {
    /// An obligation of this rule, the first such, has so many terms.
    Terms { rule: u32, count: u64 },
    /// This procedure, the first such, has so many facts.
    Facts { proc: u32, count: u128 },
    /// The edges of all procedures have so many words of facts.
    Words { count: u64 },
}

/// How a command ends.
#[derive(Clone, Copy, Debug, PartialEq, Eq)]
pub enum Status {
    /// All files were read to their end, and the whole output was taken.
    Done,
    /// No command has these words. The number is the length of the longest prefix of them with which an accepted list
    /// of words begins.
    Usage(u32),
    /// The file could not be read.
    ReadFault(Part),
    /// The file is longer than its limit.
    TooLong(Part),
    /// The file of rules is not a text of a rule file.
    BadRules(RulesFault),
    /// The file of the program is not a text of a program.
    BadProgram(ReadFault),
    /// A counted quantity passes its limit.
    TooLarge(Large),
    /// The sink took so many bytes of the output and no more.
    WriteFault(u64),
    /// The log is wrong at this line. Lines are counted from 1.
    BadLog(u64),
    /// There was no memory. Nothing was written.
    NoMemory,
}

impl Status {
    /// The status with which the program ends.
    pub fn number(self) -> u8
        ensures { result ≡ number_of self }
    {
        match self {
            Status::Done => 0,
            Status::Usage(_) => 2,
            Status::ReadFault(_) => 3,
            Status::TooLong(_) => 4,
            Status::BadRules(_) => 5,
            Status::BadProgram(_) => 6,
            Status::TooLarge(_) => 7,
            Status::WriteFault(_) => 8,
            Status::BadLog(_) => 9,
            Status::NoMemory => 10,
        }
    }
}

impl From<AllocError> for Status {
    ghost use Rattle.rh_report.specs.declared.status.Status.TheVariants.{NoMemory};

    ghost from_gives = { λ _ status. status ≡ NoMemory };

    fn from(_error: AllocError) -> Status {
        Status::NoMemory
    }
}

impl fmt::Display for Part {
    ghost use Rattle.std.specs.Prelude.{Some};
    ghost use Rattle.rh_report.specs.Status.{part_name};

    ghost output = { λ part. Some (part_name part) };

    fn fmt<W: fmt::Write>(&self, f: &mut fmt::Formatter<W>) -> fmt::Result {
        match self {
            Part::Rules => f.write_str("rules"),
            Part::Program => f.write_str("program"),
            Part::Log => f.write_str("log"),
        }
    }
}

impl fmt::Display for Large {
    ghost use Rattle.std.specs.Prelude.{Some};
    ghost use Rattle.rh_report.specs.Status.{large_text};

    ghost output = { λ large. Some (large_text large) };

    fn fmt<W: fmt::Write>(&self, f: &mut fmt::Formatter<W>) -> fmt::Result {
        match *self {
            Large::Terms { rule, count } => write!(f, "{count} terms at rule {rule}"),
            Large::Facts { proc, count } => write!(f, "{count} facts at procedure {proc}"),
            Large::Words { count } => write!(f, "{count} words"),
        }
    }
}

/// What a refusal says, and nothing where there is none.
impl fmt::Display for Status {
    ghost use Rattle.std.specs.Prelude.{Some};
    ghost use Rattle.rh_report.specs.Status.{reason_of};

    ghost output = { λ status. Some (reason_of status) };

    fn fmt<W: fmt::Write>(&self, f: &mut fmt::Formatter<W>) -> fmt::Result {
        match *self {
            Status::Done => Ok(()),
            Status::Usage(place) => write!(f, "usage: word {place}"),
            Status::ReadFault(part) => write!(f, "cannot read: {part}"),
            Status::TooLong(part) => write!(f, "too long: {part}"),
            Status::BadRules(fault) => write!(f, "rules: {}", RulesFaultText(fault)),
            Status::BadProgram(fault) => write!(f, "program: {}", ProgramFaultText(fault)),
            Status::TooLarge(large) => write!(f, "too large: {large}"),
            Status::WriteFault(count) => write!(f, "cannot write after {count}"),
            Status::BadLog(line) => write!(f, "log: line {line}"),
            Status::NoMemory => f.write_str("out of memory"),
        }
    }
}

/// The line that tells a refusal, and no bytes where there is none.
pub fn refusal_line(alloc: Global, status: Status) -> Result<Vec<u8>, AllocError>
    ensures { IfOk result (λ line. line.items ≡ line_of status) }
{
    if status == Status::Done {
        return Ok(Vec::new(alloc));
    }
    let line = format!(in alloc; "rhodium: {status}\n")?;
    Ok(line.into_bytes())
}
