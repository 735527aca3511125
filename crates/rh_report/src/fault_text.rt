//! How a refusal words the fault of a text.
ghost use Rattle.std.specs.Prelude.{◌≡◌};
ghost use Rattle.rh_report.specs.Faults.{prog_wrong_text, rule_wrong_text};

use rh_il::{Limited, ProgFault, ProgWrong};
use rh_il_text::ReadFault;
use rh_rule::{Item, Many, RuleFault, RuleWrong};
use rh_rule_text::RulesFault;
use rh_text::LexFault;
use std::fmt::{self, Display};

/// Shows why bytes are not a text of a program.
#[derive(Clone, Copy)]
pub(crate) struct ProgramFaultText(pub(crate) ReadFault);

impl Display for ProgramFaultText {
    ghost use Rattle.std.specs.Prelude.{Some};
    ghost use Rattle.rh_report.specs.Faults.{program_fault_text};

    ghost output = { λ text. Some (program_fault_text text.0) };

    fn fmt<W: fmt::Write>(&self, f: &mut fmt::Formatter<W>) -> fmt::Result {
        match self.0 {
            ReadFault::Lex(fault) => LexText(fault).fmt(f),
            ReadFault::Syntax(offset) => write!(f, "syntax at {offset}"),
            ReadFault::Unknown(offset) => write!(f, "unknown name at {offset}"),
            ReadFault::Program(fault) => ProgText(fault).fmt(f),
            ReadFault::NoMemory => f.write_str("out of memory"),
        }
    }
}

/// Shows why bytes are not a text of a rule file.
#[derive(Clone, Copy)]
pub(crate) struct RulesFaultText(pub(crate) RulesFault);

impl Display for RulesFaultText {
    ghost use Rattle.std.specs.Prelude.{Some};
    ghost use Rattle.rh_report.specs.Faults.{rules_fault_text};

    ghost output = { λ text. Some (rules_fault_text text.0) };

    fn fmt<W: fmt::Write>(&self, f: &mut fmt::Formatter<W>) -> fmt::Result {
        match self.0 {
            RulesFault::Lex(fault) => LexText(fault).fmt(f),
            RulesFault::Syntax(offset) => write!(f, "syntax at {offset}"),
            RulesFault::Unknown(offset) => write!(f, "unknown name at {offset}"),
            RulesFault::Rules(fault) => RuleText(fault).fmt(f),
            RulesFault::NoMemory => f.write_str("out of memory"),
        }
    }
}

/// Shows why a text is not cut into tokens.
#[derive(Clone, Copy)]
struct LexText(LexFault);

impl Display for LexText {
    ghost use Rattle.std.specs.Prelude.{Some};
    ghost use Rattle.rh_report.specs.Faults.{lex_text};

    ghost output = { λ text. Some (lex_text text.0) };

    fn fmt<W: fmt::Write>(&self, f: &mut fmt::Formatter<W>) -> fmt::Result {
        match self.0 {
            LexFault::BadByte(offset) => write!(f, "bad byte at {offset}"),
            LexFault::NumberRange(offset) => write!(f, "number out of range at {offset}"),
            LexFault::LongName(offset) => write!(f, "name too long at {offset}"),
            LexFault::NoMemory => f.write_str("out of memory"),
        }
    }
}

/// Shows why procedures are not a program, and where.
#[derive(Clone, Copy)]
struct ProgText(ProgFault);

impl Display for ProgText {
    ghost use Rattle.std.specs.Prelude.{Some};
    ghost use Rattle.rh_report.specs.Faults.{prog_text};

    ghost output = { λ text. Some (prog_text text.0) };

    fn fmt<W: fmt::Write>(&self, f: &mut fmt::Formatter<W>) -> fmt::Result {
        match self.0 {
            ProgFault::Wrong { kind, proc, item } => {
                write!(
                    f,
                    "{} at procedure {proc}, item {item}",
                    prog_wrong_text(kind)
                )
            }
            ProgFault::NoMemory => f.write_str("out of memory"),
        }
    }
}

/// Shows why schemas and rules are not a rule file, and where.
#[derive(Clone, Copy)]
struct RuleText(RuleFault);

impl Display for RuleText {
    ghost use Rattle.std.specs.Prelude.{Some};
    ghost use Rattle.rh_report.specs.Faults.{rule_text};

    ghost output = { λ text. Some (rule_text text.0) };

    fn fmt<W: fmt::Write>(&self, f: &mut fmt::Formatter<W>) -> fmt::Result {
        match self.0 {
            RuleFault::Wrong { kind, item } => {
                write!(f, "{} at {}", rule_wrong_text(kind), ItemText(item))
            }
            RuleFault::NoMemory => f.write_str("out of memory"),
        }
    }
}

/// Shows a place in a rule file.
#[derive(Clone, Copy)]
struct ItemText(Item);

impl Display for ItemText {
    ghost use Rattle.std.specs.Prelude.{Some};
    ghost use Rattle.rh_report.specs.Faults.{item_text};

    ghost output = { λ text. Some (item_text text.0) };

    fn fmt<W: fmt::Write>(&self, f: &mut fmt::Formatter<W>) -> fmt::Result {
        match self.0 {
            Item::File => f.write_str("file"),
            Item::Fact(number) => write!(f, "fact {number}"),
            Item::Rule(number) => write!(f, "rule {number}"),
        }
    }
}

fn prog_wrong_text(kind: ProgWrong) -> &'static str
    ensures { result.now ≡ prog_wrong_text kind }
{
    match kind {
        ProgWrong::DuplicateName => "duplicate name",
        ProgWrong::BadNumber => "bad number",
        ProgWrong::BadTarget => "bad target",
        ProgWrong::FallsOff => "falls off",
        ProgWrong::NoMain => "no main",
        ProgWrong::Limit(Limited::Procs) => "too many procs",
        ProgWrong::Limit(Limited::Vars) => "too many vars",
        ProgWrong::Limit(Limited::Stmts) => "too many stmts",
    }
}

fn rule_wrong_text(kind: RuleWrong) -> &'static str
    ensures { result.now ≡ rule_wrong_text kind }
{
    match kind {
        RuleWrong::DuplicateName => "duplicate name",
        RuleWrong::BadNumber => "bad number",
        RuleWrong::Arity => "wrong arity",
        RuleWrong::KindMismatch => "wrong kind",
        RuleWrong::BadShape => "bad shape",
        RuleWrong::BadSlot => "bad slot",
        RuleWrong::UnusedMeta => "unused metavariable",
        RuleWrong::Limit(Many::Facts) => "too many facts",
        RuleWrong::Limit(Many::Rules) => "too many rules",
        RuleWrong::Limit(Many::Params) => "too many params",
        RuleWrong::Limit(Many::Atoms) => "too many atoms",
        RuleWrong::Limit(Many::Premises) => "too many premises",
        RuleWrong::Limit(Many::Sides) => "too many sides",
    }
}
