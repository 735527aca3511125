//! The source that words spell.

ghost use Rattle.std.specs.Prelude.{◌≡◌, ◌∷◌, [], map, IfOk, IfErr};
ghost use Rattle.rh_grammar.specs.declared.grammar.Symbol.TheVariants.{Rule};
ghost use Rattle.rh_grammar.specs.Derivation.{Derives, FaultsAs};
ghost use Rattle.rh_rule_source.specs.Grammar.{productions, file};
ghost use Rattle.rh_rule_source.specs.Source.{file_words};
ghost use Rattle.rh_rule_source.specs.Spelling.{AreOf};
ghost use Rattle.rh_rule_source.specs.Words.{class_of};

use crate::cursor::Cursor;
use rh_grammar::{ParseFault, parse};
use rh_rule_source::grammar::{RULE_FILES, rule};
use rh_rule_source::{SourceFile, Word, classes_of};
use std::alloc::{AllocError, Global};

/// The alternatives by which words are a rule file, or the place of the syntax fault.
fn productions_of(alloc: Global, words: &[Word]) -> Result<Vec<u8>, ParseFault>
    ensures derives { IfOk result (λ taken. Derives productions (Rule file ∷ []) taken.items (map class_of words.now)) }
    ensures fault { IfErr result (FaultsAs productions file (map class_of words.now)) }
{
    let classes = classes_of(alloc, words)?;
    parse(alloc, &RULE_FILES, rule::FILE, classes.as_slice())
}

/// The source whose words these are, by the alternatives that make a rule file of them.
fn source_by(alloc: Global, taken: &[u8], words: &[Word]) -> Result<SourceFile, AllocError>
    requires { Derives productions (Rule file ∷ []) taken.now (map class_of words.now) }
    ensures { IfOk result (λ source. words.now ≡ file_words source) }
{
    let mut cursor = Cursor {
        productions: taken,
        words,
    };
    cursor.file(alloc)
}

/// The source that words spell, or the place of the first word that cannot continue a rule file: the
/// number of words, where they end too early.
pub fn source_of(alloc: Global, words: &[Word]) -> Result<SourceFile, ParseFault>
    ensures source { IfOk result (AreOf words.now) }
    ensures fault { IfErr result (FaultsAs productions file (map class_of words.now)) }
{
    let taken = productions_of(alloc, words)?;
    Ok(source_by(alloc, taken.as_slice(), words)?)
}
