//! Reads a text of logs.
ghost use Rattle.std.specs.Prelude.{◌≡◌, ◌≤◌, length, ℕ, List, None, Some, Err, IfOk, MatchOption, option_and_then};
ghost use Rattle.rh_log_text.specs.Faults.{IsSyntaxFault};
ghost use Rattle.rh_log_text.specs.declared.line.Line.{Line};
ghost use Rattle.rh_log_text.specs.declared.logs.RuleLogs.{RuleLogs};
ghost use Rattle.rh_log_text.specs.Reader.{IsAllOf, IsFine, IsWithin, Reads, advance, at_of};
ghost use Rattle.rh_log_text.specs.Reading.{line_of};
ghost use Rattle.rh_log_text.specs.Same.{IsAnswer};
ghost use Rattle.rh_log_text.specs.Text.{IsLogText};

use crate::line::line_of;
use crate::lines::{cut_line, is_comment};
use crate::logs::{LogFault, RuleLogs};
use crate::reader::Reader;
use rh_list::Items;
use std::alloc::{AllocError, Global};

/// The logs of a text, rule by rule.
pub fn read_logs(alloc: Global, text: &[u8]) -> Result<Items<RuleLogs>, LogFault>
    requires { length text.now ≤ 16777216 }
    ensures read { IfOk result (IsLogText text.now) }
    ensures fault { (number : ℕ) → result ≡ Err (LogFault.Syntax number) → IsSyntaxFault text.now number }
    ensures whole { (sections : List RuleLogs) → IsLogText text.now sections → IsAnswer sections result }
{
    let mut reader = Reader::Start;
    let mut number = 1;
    let mut rest = text;
    while !rest.is_empty() {
        let (line, behind) = cut_line(rest);
        if !is_comment(line) {
            reader = match read_line(alloc, reader, number, line)? {
                Some(next) => next,
                None => return Err(LogFault::Syntax(number)),
            };
        }
        rest = behind;
        number += 1;
    }
    finish(alloc, reader, number)
}

/// What comes of one more line that is not skipped, where it may stand there.
fn read_line(
    alloc: Global,
    reader: Reader,
    number: u64,
    line: &[u8],
) -> Result<Option<Reader>, AllocError>
    ensures { IfOk result (λ next. MatchOption next
        (IsFine reader → option_and_then (advance (at_of reader)) (line_of line.now) ≡ None)
        (λ next. (read : Line) × (line_of line.now ≡ Some read) × Reads reader number read next)) }
{
    match line_of(line) {
        Some(line) => reader.with(alloc, number, line),
        None => Ok(None),
    }
}

/// The logs of all rules, where no node is wanted at the end of the text.
fn finish(alloc: Global, reader: Reader, next: u64) -> Result<Items<RuleLogs>, LogFault>
    ensures all { IfOk result (IsAllOf reader next) }
    ensures fault { (number : ℕ) → result ≡ Err (LogFault.Syntax number) → (number ≡ next) × IsWithin reader }
{
    match reader {
        Reader::Start => Ok(Items::new(alloc)),
        Reader::Between { mut done, section } => {
            done.push(section.closed(next))?;
            Ok(done)
        }
        Reader::Within { .. } => Err(LogFault::Syntax(next)),
    }
}
