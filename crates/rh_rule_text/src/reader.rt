//! Reads rule files.

ghost use Rattle.std.specs.Prelude.{◌≡◌, ◌≢◌, ◌≤◌, ◌∷◌, ℕ, List, [], true, map, length, IfOk, IfErr};
ghost use Rattle.std.specs.List.{All, list_all};
ghost use Rattle.rh_text.specs.Pieces.{AreTokens};
ghost use Rattle.rh_text.specs.Words.{IsTokenOf};
ghost use Rattle.rh_rule.specs.RuleFiles.{Rules};
ghost use Rattle.rh_rule_text.specs.declared.fault.RulesFault.{RulesFault};
ghost use Rattle.rh_rule_text.specs.declared.fault.RulesFault.TheVariants.{NoMemory};
ghost use Rattle.rh_rule_text.specs.Answer.{IsAnswer, IsRefusal};
ghost use Rattle.rh_rule_source.specs.Words.{word_of};
ghost use Rattle.rh_rule_text.specs.Proper.{is_proper_word};
ghost use Rattle.rh_rule_source.specs.Source.{file_words};
ghost use Rattle.rh_rule_source.specs.Spelling.{AreOf};
ghost use Rattle.rh_rule_text.specs.Reading.{offset_at, IsText, FaultsAs, HasOneAnswer, LexFaultsAs, ParseFaultsAs, IsResolved, ResolveFaultsAs};

use crate::fault::RulesFault;
use crate::file::{facts_of, rules_of, schemas_of, unknown_in_items};
use rh_grammar::ParseFault;
use rh_rule::{RuleFault, RuleFile};
use rh_rule_parse::source_of;
use rh_rule_source::{SourceFile, words_of};
use rh_text::{LexFault, TEXT_LIMIT, Token, tokens};
use std::alloc::Global;

pub(crate) fn tokens_of(alloc: Global, text: &[u8]) -> Result<Vec<Token>, RulesFault>
    requires { length text.now ≤ TEXT_LIMIT }
    ensures tokens { IfOk result (λ tokens. AreTokens text.now tokens.items) }
    ensures each { IfOk result (λ tokens. All (IsTokenOf text.now) tokens.items) }
    ensures fault { IfErr result (LexFaultsAs text.now) }
{
    match tokens(alloc, text) {
        Ok(tokens) => Ok(tokens),
        Err(LexFault::NoMemory) => Err(RulesFault::NoMemory),
        Err(fault) => Err(RulesFault::Lex(fault)),
    }
}

fn offset_at(text: &[u8], tokens: &[Token], place: usize) -> u32
    requires { length text.now ≤ TEXT_LIMIT }
    ensures { result ≡ offset_at text.now tokens.now place }
{
    match tokens.get(place) {
        Some(token) => token.start,
        None => text.len() as u32,
    }
}

/// The source that the tokens of a text spell, or the offset of the syntax fault.
fn source_in(alloc: Global, text: &[u8], tokens: &[Token]) -> Result<SourceFile, RulesFault>
    requires short { length text.now ≤ TEXT_LIMIT }
    requires tokens { All (IsTokenOf text.now) tokens.now }
    ensures source { IfOk result (AreOf (map (word_of text.now) tokens.now)) }
    ensures fault { IfErr result (ParseFaultsAs text.now tokens.now) }
{
    let words = words_of(alloc, text, tokens)?;
    match source_of(alloc, words.as_slice()) {
        Ok(source) => Ok(source),
        Err(ParseFault::Syntax(place)) => Err(RulesFault::Syntax(offset_at(text, tokens, place))),
        Err(ParseFault::NoMemory) => Err(RulesFault::NoMemory),
    }
}

/// The rule file of a source.
fn resolved(alloc: Global, source: &SourceFile) -> Result<RuleFile, RulesFault>
    requires { list_all is_proper_word (file_words source.now) ≡ true }
    ensures rules { IfOk result (IsResolved source.now) }
    ensures fault { IfErr result (ResolveFaultsAs source.now) }
{
    let items = source.items.as_slice();
    let facts = facts_of(alloc, items)?;
    if let Some(at) = unknown_in_items(alloc, &facts, items)? {
        return Err(RulesFault::Unknown(at));
    }
    let schemas = schemas_of(alloc, items)?;
    let rules = rules_of(alloc, &facts, items)?;
    match RuleFile::new(schemas, rules) {
        Ok(file) => Ok(file),
        Err(RuleFault::NoMemory) => Err(RulesFault::NoMemory),
        Err(fault) => Err(RulesFault::Rules(fault)),
    }
}

/// The rule file of a text, or a fault of the text.
fn rules_in(alloc: Global, src: &[u8]) -> Result<RuleFile, RulesFault>
    requires { length src.now ≤ 1048576 }
    ensures rules { IfOk result (λ rules. IsText src.now rules) }
    ensures fault { IfErr result (FaultsAs src.now) }
{
    let tokens = tokens_of(alloc, src)?;
    let source = source_in(alloc, src, tokens.as_slice())?;
    resolved(alloc, &source)
}

/// The rule file of a text, or the text's fault. A text has one fault: the first lexical one, or
/// else the syntax, or else the first unknown name, or else the first check that fails.
pub fn read_rules(alloc: Global, src: &[u8]) -> Result<RuleFile, RulesFault>
    requires { length src.now ≤ 1048576 }
    ensures rules { IfOk result (λ rules. IsText src.now rules) }
    ensures fault { IfErr result (FaultsAs src.now) }
    ensures whole { (rules : Rules) → IsText src.now rules → IsAnswer rules result }
    ensures refused { (fault : RulesFault) → FaultsAs src.now fault → fault ≢ NoMemory → IsRefusal fault result }
{
    rules_in(alloc, src)
}

/// A law: bytes are a text of one rule file or have one fault, and never both.
pub fn rule_texts_have_one_answer()
    ensures { (text : List ℕ) → HasOneAnswer text }
{}
