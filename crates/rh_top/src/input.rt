//! The texts of a call, from the shelf to what they are texts of.
ghost use Rattle.std.specs.Prelude.{ℕ, ◌≡◌, ◌<◌, ◌≤◌, ◌^◌, List, Some, length, IfOk, IfErr};
ghost use Rattle.rh_top.specs.Call.{MayBe, file, made};
ghost use Rattle.rh_top.specs.Files.{AcceptsProgram, AcceptsRules, RefusesProgram, RefusesProgramText, RefusesRead, RefusesRules, RefusesRulesText, SpellProgram, SpellRules, most_bytes, most_log_bytes};
ghost use Rattle.rh_top.specs.Faults.{of_program, of_rules};

use rh_il::Program;
use rh_il_text::{ReadFault, read_program};
use rh_outside::{ReadError, Shelf, read_whole};
use rh_report::{Part, Status};
use rh_rule::RuleFile;
use rh_rule_text::{RulesFault, read_rules};
use std::alloc::Global;

/// The most bytes of a rule file or a program.
const MOST_BYTES: usize = 1048576;

/// The most bytes of a file of logs.
const MOST_LOG_BYTES: usize = 16777216;

/// The bytes of a file of at most so many.
fn read_file<S: Shelf>(
    alloc: Global,
    shelf: &mut S,
    name: &str,
    part: Part,
    most: usize,
) -> Result<Vec<u8>, Status>
    requires { most < 2 ^ 32 }
    ensures told { IfOk result (λ bytes. MayBe (S.holds shelf.old name.now) bytes.items) }
    ensures within { IfOk result (λ bytes. length bytes.items ≤ most) }
    ensures refused { IfErr result (RefusesRead part most (record { held = S.holds shelf.old name.now; faults_before = S.faults shelf.old name.now; faults_after = S.faults shelf.new name.now })) }
    ensures never_falls { (other : List ℕ) → S.faults shelf.old other ≤ S.faults shelf.new other }
    ensures unchanged { (other : List ℕ) → S.holds shelf.new other ≡ S.holds shelf.old other }
{
    match read_whole(alloc, shelf, name, most) {
        Ok(bytes) => Ok(bytes),
        Err(ReadError::Fault) => Err(Status::ReadFault(part)),
        Err(ReadError::TooLong) => Err(Status::TooLong(part)),
        Err(ReadError::NoMemory) => Err(Status::NoMemory),
    }
}

fn of_rules(fault: RulesFault) -> Status
    ensures { result ≡ of_rules fault }
{
    match fault {
        RulesFault::NoMemory => Status::NoMemory,
        _ => Status::BadRules(fault),
    }
}

fn of_program(fault: ReadFault) -> Status
    ensures { result ≡ of_program fault }
{
    match fault {
        ReadFault::NoMemory => Status::NoMemory,
        _ => Status::BadProgram(fault),
    }
}

/// The rule file of a text.
fn spelled_rules(alloc: Global, bytes: &[u8]) -> Result<RuleFile, Status>
    requires { length bytes.now ≤ most_bytes }
    ensures spelled { IfOk result (SpellRules bytes.now) }
    ensures refused { IfErr result (RefusesRulesText bytes.now) }
{
    match read_rules(alloc, bytes) {
        Ok(file) => Ok(file),
        Err(fault) => Err(of_rules(fault)),
    }
}

/// The program of a text.
fn spelled_program(alloc: Global, bytes: &[u8]) -> Result<Program, Status>
    requires { length bytes.now ≤ most_bytes }
    ensures spelled { IfOk result (SpellProgram bytes.now) }
    ensures refused { IfErr result (RefusesProgramText bytes.now) }
{
    match read_program(alloc, bytes) {
        Ok(program) => Ok(program),
        Err(fault) => Err(of_program(fault)),
    }
}

/// The rule file in a file.
pub(crate) fn rules_in<S: Shelf>(
    alloc: Global,
    shelf: &mut S,
    name: &str,
) -> Result<RuleFile, Status>
    ensures read { IfOk result (AcceptsRules (S.holds shelf.old name.now)) }
    ensures refused { IfErr result (RefusesRules (record { held = S.holds shelf.old name.now; faults_before = S.faults shelf.old name.now; faults_after = S.faults shelf.new name.now })) }
    ensures never_falls { (other : List ℕ) → S.faults shelf.old other ≤ S.faults shelf.new other }
    ensures unchanged { (other : List ℕ) → S.holds shelf.new other ≡ S.holds shelf.old other }
{
    let bytes = read_file(alloc, shelf, name, Part::Rules, MOST_BYTES)?;
    spelled_rules(alloc, bytes.as_slice())
}

/// The program in a file.
pub(crate) fn program_in<S: Shelf>(
    alloc: Global,
    shelf: &mut S,
    name: &str,
) -> Result<Program, Status>
    ensures read { IfOk result (AcceptsProgram (S.holds shelf.old name.now)) }
    ensures refused { IfErr result (RefusesProgram (record { held = S.holds shelf.old name.now; faults_before = S.faults shelf.old name.now; faults_after = S.faults shelf.new name.now })) }
{
    let bytes = read_file(alloc, shelf, name, Part::Program, MOST_BYTES)?;
    spelled_program(alloc, bytes.as_slice())
}

/// The bytes of a file of logs.
pub(crate) fn log_in<S: Shelf>(alloc: Global, shelf: &mut S, name: &str) -> Result<Vec<u8>, Status>
    ensures told { IfOk result (λ bytes. MayBe (S.holds shelf.old name.now) bytes.items) }
    ensures within { IfOk result (λ bytes. length bytes.items ≤ most_log_bytes) }
    ensures refused { IfErr result (RefusesRead Part.Log most_log_bytes (record { held = S.holds shelf.old name.now; faults_before = S.faults shelf.old name.now; faults_after = S.faults shelf.new name.now })) }
{
    read_file(alloc, shelf, name, Part::Log, MOST_LOG_BYTES)
}

/// The rule file of bytes in memory.
pub(crate) fn made_rules(alloc: Global, bytes: &[u8]) -> Result<RuleFile, Status>
    ensures read { IfOk result (AcceptsRules (Some bytes.now)) }
    ensures refused { IfErr result (RefusesRules (made bytes.now)) }
{
    if bytes.len() > MOST_BYTES {
        return Err(Status::TooLong(Part::Rules));
    }
    spelled_rules(alloc, bytes)
}

/// The program of bytes in memory.
pub(crate) fn made_program(alloc: Global, bytes: &[u8]) -> Result<Program, Status>
    ensures read { IfOk result (AcceptsProgram (Some bytes.now)) }
    ensures refused { IfErr result (RefusesProgram (made bytes.now)) }
{
    if bytes.len() > MOST_BYTES {
        return Err(Status::TooLong(Part::Program));
    }
    spelled_program(alloc, bytes)
}
