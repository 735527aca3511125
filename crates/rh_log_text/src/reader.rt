//! The reader: what comes of the lines so far.
ghost use Rattle.std.specs.Prelude.{◌≡◌, ℕ, [], None, IfOk, MatchOption};
ghost use Rattle.rh_log_text.specs.Reader.{IsFine, Reads, advance, at_of};
ghost use Rattle.rh_log_text.specs.Tree.{awaited_after, root};

use crate::line::Line;
use crate::logs::{PlacedLog, RuleLogs};
use crate::waiting::Waiting;
use rh_il::Name;
use rh_list::Items;
use rh_log::{Log, LogNode};
use std::alloc::{AllocError, Global};

/// The logs of a rule, the end of which has not come.
#[derive(Drop)]
pub(crate) struct Section {
    pub name: Name,
    pub line: u64,
    pub logs: Items<PlacedLog>,
}

/// A log to which more nodes belong.
#[derive(Drop)]
pub(crate) struct Unfinished {
    pub line: u64,
    pub number: u32,
    pub nodes: Items<LogNode>,
    pub waiting: Waiting,
}

/// What comes of the lines so far.
#[derive(Drop)]
pub(crate) enum Reader {
    /// No rule is named yet.
    Start,
    /// No log is open.
    Between {
        done: Items<RuleLogs>,
        section: Section,
    },
    /// A log is open.
    Within {
        done: Items<RuleLogs>,
        section: Section,
        log: Unfinished,
    },
}

impl Section {
    fn new(alloc: Global, name: Name, line: u64) -> Self
        ensures { result ≡ record { name = name; line = line; logs = [] } }
    {
        Section {
            name,
            line,
            logs: Items::new(alloc),
        }
    }

    /// The logs of the rule, which end at a line.
    pub fn closed(self, end: u64) -> RuleLogs
        ensures { result ≡ record { name = self.name; line = self.line; end = end; logs = self.logs } }
    {
        RuleLogs {
            name: self.name,
            line: self.line,
            end,
            logs: self.logs,
        }
    }
}

impl Unfinished {
    fn new(alloc: Global, line: u64, number: u32) -> Result<Self, AllocError>
        ensures { IfOk result (λ log. log ≡ record { line = line; number = number; nodes = []; waiting = root }) }
    {
        Ok(Unfinished {
            line,
            number,
            nodes: Items::new(alloc),
            waiting: Waiting::root(alloc)?,
        })
    }

    fn closed(self) -> PlacedLog
        ensures { result ≡ record { line = self.line; number = self.number; log = record { nodes = self.nodes } } }
    {
        PlacedLog {
            line: self.line,
            number: self.number,
            log: Log { nodes: self.nodes },
        }
    }
}

impl Reader {
    /// What comes of one more line, where it may stand there.
    pub fn with(self, alloc: Global, number: u64, line: Line) -> Result<Option<Reader>, AllocError>
        ensures { IfOk result (λ next. MatchOption next (IsFine self → advance (at_of self) line ≡ None) (Reads self number line)) }
    {
        match self {
            Reader::Start => match line {
                Line::Rule(name) => Ok(Some(begun(alloc, Items::new(alloc), name, number))),
                Line::Log(_) | Line::Node(_) => Ok(None),
            },
            Reader::Between { done, section } => match line {
                Line::Rule(name) => Ok(Some(ended(alloc, done, section, name, number)?)),
                Line::Log(told) => Ok(Some(opened(alloc, done, section, told, number)?)),
                Line::Node(_) => Ok(None),
            },
            Reader::Within { done, section, log } => match line {
                Line::Node(node) => grown(done, section, log, node),
                Line::Rule(_) | Line::Log(_) => Ok(None),
            },
        }
    }
}

/// A rule is named.
fn begun(alloc: Global, done: Items<RuleLogs>, name: Name, number: u64) -> Reader
    ensures { result ≡ Reader.Between done record { name = name; line = number; logs = [] } }
{
    Reader::Between {
        done,
        section: Section::new(alloc, name, number),
    }
}

/// The next rule is named.
fn ended(
    alloc: Global,
    mut done: Items<RuleLogs>,
    section: Section,
    name: Name,
    number: u64,
) -> Result<Reader, AllocError>
    ensures { IfOk result (Reads (Reader.Between done section) number (Line.Rule name)) }
{
    done.push(section.closed(number))?;
    Ok(begun(alloc, done, name, number))
}

/// A log begins.
fn opened(
    alloc: Global,
    done: Items<RuleLogs>,
    section: Section,
    told: u32,
    number: u64,
) -> Result<Reader, AllocError>
    ensures { IfOk result (Reads (Reader.Between done section) number (Line.Log told)) }
{
    Ok(Reader::Within {
        done,
        section,
        log: Unfinished::new(alloc, number, told)?,
    })
}

/// A log has one more node.
fn grown(
    done: Items<RuleLogs>,
    mut section: Section,
    mut log: Unfinished,
    node: LogNode,
) -> Result<Option<Reader>, AllocError>
    ensures { IfOk result (λ next. MatchOption next
        (awaited_after log.waiting node.children ≡ None)
        (λ reader. (number : ℕ) → Reads (Reader.Within done section log) number (Line.Node node) reader)) }
{
    if !log.waiting.take(node.children)? {
        return Ok(None);
    }
    log.nodes.push(node)?;
    if log.waiting.is_empty() {
        section.logs.push(log.closed())?;
        return Ok(Some(Reader::Between { done, section }));
    }
    Ok(Some(Reader::Within { done, section, log }))
}
