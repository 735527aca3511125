//! Reads programs from bytes.

ghost use Rattle.std.specs.Prelude.{◌≡◌, ◌≢◌, ◌≤◌, ℕ, true, not, List, length, IfOk, IfErr, Some, None};
ghost use Rattle.std.specs.List.{All, list_all, position};
ghost use Rattle.rh_text.specs.Words.{IsTokenOf};
ghost use Rattle.rh_text.specs.Pieces.{AreTokens};
ghost use Rattle.rh_il.specs.declared.program.Proc.{Proc};
ghost use Rattle.rh_il.specs.declared.fault.ProgFault.{ProgFault};
ghost use Rattle.rh_il.specs.Checks.{has_proper_names, program_fault};
ghost use Rattle.rh_il_source.specs.Words.{words_of, classes_of};
ghost use Rattle.rh_il_text.specs.Program.{Spells, IsText, start_of, FaultsAs, HasOneAnswer, IsProgram, IsFault, of_lexer, of_checks};
ghost use Rattle.rh_il_text.specs.declared.fault.ReadFault.{ReadFault};
ghost use Rattle.rh_il_text.specs.declared.fault.ReadFault.TheVariants.{NoMemory};

use crate::fault::ReadFault;
use crate::marks::{marks_of, names_of};
use crate::resolve::procs_of;
use rh_grammar::ParseFault;
use rh_il::{Proc, ProgFault, Program};
use rh_il_source::{Source, Word, class_of, read_sources, steps_of, word_of};
use rh_list::Items;
use rh_text::{LexFault, TEXT_LIMIT, Token, tokens};
use std::alloc::{AllocError, Global};

fn of_lexer(fault: LexFault) -> ReadFault
    ensures { result ≡ of_lexer fault }
{
    match fault {
        LexFault::NoMemory => ReadFault::NoMemory,
        other => ReadFault::Lex(other),
    }
}

fn of_checks(fault: ProgFault) -> ReadFault
    ensures { result ≡ of_checks fault }
{
    match fault {
        ProgFault::NoMemory => ReadFault::NoMemory,
        other => ReadFault::Program(other),
    }
}

/// The offset of the token of a number, or of the end.
fn start_of(text: &[u8], tokens: &[Token], place: usize) -> u32
    requires { length text.now ≤ TEXT_LIMIT }
    ensures { result ≡ start_of text.now tokens.now place }
{
    match tokens.get(place) {
        Some(token) => token.start,
        None => text.len() as u32,
    }
}

fn words_of(alloc: Global, text: &[u8], tokens: &[Token]) -> Result<Vec<Word>, AllocError>
    requires { All (IsTokenOf text.now) tokens.now }
    ensures { IfOk result (λ words. words.items ≡ words_of text.now tokens.now) }
{
    let mut words = Vec::new(alloc);
    for token in tokens {
        words.push(word_of(text, *token))?;
    }
    Ok(words)
}

fn classes_of(alloc: Global, words: &[Word]) -> Result<Vec<u8>, AllocError>
    ensures { IfOk result (λ classes. classes.items ≡ classes_of words.now) }
{
    let mut classes = Vec::new(alloc);
    for word in words {
        classes.push(class_of(word))?;
    }
    Ok(classes)
}

fn first_missing(marks: &[bool]) -> Option<usize>
    ensures { result ≡ position not marks.now }
{
    marks.iter().position(|mark| !*mark)
}

/// The procedures that the tokens of a text spell.
fn sources_of(alloc: Global, text: &[u8], tokens: &[Token]) -> Result<Items<Source>, ReadFault>
    requires small { length text.now ≤ TEXT_LIMIT }
    requires are_tokens { AreTokens text.now tokens.now }
    requires each { All (IsTokenOf text.now) tokens.now }
    ensures spells { IfOk result (Spells text.now tokens.now) }
    ensures fault { IfErr result (FaultsAs text.now) }
{
    let words = words_of(alloc, text, tokens)?;
    let classes = classes_of(alloc, &words)?;
    match steps_of(alloc, &classes) {
        Ok(steps) => Ok(read_sources(alloc, &steps, &words)?),
        Err(ParseFault::Syntax(place)) => Err(ReadFault::Syntax(start_of(text, tokens, place))),
        Err(ParseFault::NoMemory) => Err(ReadFault::NoMemory),
    }
}

/// The program of procedures, if they pass the checks.
fn checked(procs: Vec<Proc>) -> Result<Program, ReadFault>
    requires { list_all has_proper_names procs.items ≡ true }
    ensures program { IfOk result (λ program. program ≡ procs.items) }
    ensures passes { IfOk result (λ program. program_fault procs.items ≡ None) }
    ensures fault { IfErr result (λ fault. (f : ProgFault) × (program_fault procs.items ≡ Some f) × (fault ≡ of_checks f)) }
{
    match Program::new(procs) {
        Ok(program) => Ok(program),
        Err(fault) => Err(of_checks(fault)),
    }
}

/// The program of procedures that a text spells.
fn program_of(
    alloc: Global,
    text: &[u8],
    tokens: &[Token],
    sources: &[Source],
) -> Result<Program, ReadFault>
    requires small { length text.now ≤ TEXT_LIMIT }
    requires spells { Spells text.now tokens.now sources.now }
    ensures program { IfOk result (IsText text.now) }
    ensures fault { IfErr result (FaultsAs text.now) }
{
    let names = names_of(alloc, sources)?;
    let marks = marks_of(alloc, &names, sources)?;
    if let Some(place) = first_missing(&marks) {
        return Err(ReadFault::Unknown(start_of(text, tokens, place)));
    }
    let procs = procs_of(alloc, &names, sources)?;
    checked(procs)
}

/// The program of which the bytes are a text, or their first fault.
///
/// The input drives no recursion. Names are looked up in hash maps, so the time grows with the bytes.
pub fn read_program(alloc: Global, src: &[u8]) -> Result<Program, ReadFault>
    requires { length src.now ≤ TEXT_LIMIT }
    ensures program { IfOk result (IsText src.now) }
    ensures fault { IfErr result (FaultsAs src.now) }
    ensures whole { (procs : List Proc) → IsText src.now procs → IsProgram procs result }
    ensures first { (fault : ReadFault) → FaultsAs src.now fault → fault ≢ NoMemory → IsFault fault result }
{
    match tokens(alloc, src) {
        Ok(tokens) => {
            let sources = sources_of(alloc, src, &tokens)?;
            program_of(alloc, src, &tokens, sources.as_slice())
        }
        Err(fault) => Err(of_lexer(fault)),
    }
}

/// A law: bytes are a text of one program or have one fault, and never both.
pub fn program_texts_have_one_answer()
    ensures { (text : List ℕ) → HasOneAnswer text }
{}
