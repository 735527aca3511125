//! The top call.
ghost use Rattle.std.specs.Prelude.{ℕ, ◌≡◌, false, List, IfErr, IfOk};
ghost use Rattle.rh_args.specs.Forms.{is_accepted, texts};
ghost use Rattle.rh_top.specs.Complete.{IsDoneOrNothing, IsGood};
ghost use Rattle.rh_top.specs.Ends.{Ends, EndsAsUsage};
ghost use Rattle.rh_top.specs.Outputs.{IsMade};
ghost use Rattle.rh_top.specs.Refusals.{IsRefused};
ghost use Rattle.rh_top.specs.Requests.{IsInRange, IsRequest, Request, request_of};

use crate::audited::audit;
use crate::opt::{generate_and_count, opt};
use crate::ran::run;
use crate::ruled::{check, prove};
use rh_args::{Command, UsageAt, read_words};
use rh_outside::{Gate, Shelf, Sink, write_whole};
use rh_report::Status;
use std::alloc::Global;
use std::thread::Threads;

/// The whole output of a command.
fn output_of<R: Threads + Sync, S: Shelf, G: Gate + Sync>(
    rt: &R,
    alloc: Global,
    command: Command<'_>,
    shelf: &mut S,
    gate: &G,
) -> Result<Vec<u8>, Status>
    requires range { IsInRange (request_of command) }
    ensures made { IfOk result (λ text. IsMade (record { holds = S.holds shelf.old; faults_before = S.faults shelf.old; faults_after = S.faults shelf.new }) (request_of command.entry) text.items) }
    ensures refused { IfErr result (IsRefused (record { holds = S.holds shelf.old; faults_before = S.faults shelf.old; faults_after = S.faults shelf.new }) (request_of command.entry)) }
{
    match command {
        Command::Opt {
            workers,
            rules,
            program,
        } => opt(rt, alloc, workers, rules, program, shelf, gate),
        Command::Check { rules } => check(rt, alloc, rules, shelf),
        Command::Prove { rules } => prove(rt, alloc, rules, shelf),
        Command::Audit { rules, log } => audit(alloc, rules, log, shelf),
        Command::Run {
            steps,
            program,
            arg,
        } => run(alloc, steps, program, arg, shelf),
        Command::Gen { workers, n } => generate_and_count(rt, alloc, workers, n, gate),
    }
}

/// Makes the whole output of a command, and then writes it.
fn done<R: Threads + Sync, S: Shelf, K: Sink, G: Gate + Sync>(
    rt: &R,
    alloc: Global,
    command: Command<'_>,
    shelf: &mut S,
    out: &mut K,
    gate: &G,
) -> Status
    requires range { IsInRange (request_of command) }
    ensures { Ends (record { holds = S.holds shelf.old; faults_before = S.faults shelf.old; faults_after = S.faults shelf.new })
        (record { written_before = K.written out.old; written_after = K.written out.new; sunk_before = K.faults out.old; sunk_after = K.faults out.new })
        (request_of command.entry) result }
{
    match output_of(rt, alloc, command, shelf, gate) {
        Ok(text) => match write_whole(out, text.as_slice()) {
            Ok(()) => Status::Done,
            Err(count) => Status::WriteFault(count as u64),
        },
        Err(status) => status,
    }
}

/// Does what a command line says: `words` are those after the program's name. It reads from the shelf
/// under the names that the words give, and writes to the sink.
///
/// The words are `opt [--workers=N] RULES PROG`, `check RULES`, `prove RULES`, `audit RULES LOG`,
/// `run [--steps=N] PROG ARG` or `gen [--workers=N] N`. Each worker asks the gate before each of its turns.
pub fn rhodium<R: Threads + Sync, S: Shelf, K: Sink, G: Gate + Sync>(
    rt: &R,
    alloc: Global,
    words: &[String],
    shelf: &mut S,
    out: &mut K,
    gate: &G,
) -> Status
    ensures ends { (request : Request) → IsRequest (texts words.now) request
        → Ends (record { holds = S.holds shelf.old; faults_before = S.faults shelf.old; faults_after = S.faults shelf.new })
        (record { written_before = K.written out.old; written_after = K.written out.new; sunk_before = K.faults out.old; sunk_after = K.faults out.new })
        request result }
    ensures complete { (request : Request) → IsRequest (texts words.now) request
        → IsGood (record { holds = S.holds shelf.old; faults_before = S.faults shelf.old; faults_after = S.faults shelf.new })
        (record { written_before = K.written out.old; written_after = K.written out.new; sunk_before = K.faults out.old; sunk_after = K.faults out.new })
        request
        → IsDoneOrNothing (record { written_before = K.written out.old; written_after = K.written out.new; sunk_before = K.faults out.old; sunk_after = K.faults out.new }) result }
    ensures usage { is_accepted (texts words.now) ≡ false
        → EndsAsUsage (texts words.now) (record { written_before = K.written out.old; written_after = K.written out.new; sunk_before = K.faults out.old; sunk_after = K.faults out.new }) result }
{
    match read_words(words) {
        Ok(command) => done(rt, alloc, command, shelf, out, gate),
        Err(UsageAt(place)) => Status::Usage(place),
    }
}
