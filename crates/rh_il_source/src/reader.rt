//! Reads procedures by a cursor.

ghost use Rattle.std.specs.Prelude.{◌≡◌, ◌≤◌, ◌∷◌, [], length, IfOk};
ghost use Rattle.rh_grammar.specs.declared.grammar.Symbol.TheVariants.{Token, Rule};
ghost use Rattle.rh_grammar.specs.Derivation.{Derives};
ghost use Rattle.rh_il_source.specs.Grammar.{productions, program, procedure, more_locals, body, statement, semicolon, comma, name};
ghost use Rattle.rh_il_source.specs.Words.{classes_of};
ghost use Rattle.rh_il_source.specs.Source.{comma_words, closed_words, source_words, file_words};
ghost use Rattle.rh_il_source.specs.Reading.{Reads, ReadsLocals};

use crate::grammar::alternative;
use crate::leaf::{read_name, skip};
use crate::source::{Line, Source};
use crate::statement::read_statement;
use crate::word::Word;
use rh_grammar::{Cursor, Part, repeated};
use rh_il::Name;
use rh_list::Items;
use std::alloc::{AllocError, Global};

impl Part<Word> for Name {
    ghost rules = { productions };

    ghost others = { more_locals };

    ghost symbols = { Token comma ∷ Token name ∷ [] };

    ghost words = { comma_words };

    fn read(cursor: &mut Cursor<Word>, _alloc: Global) -> Result<Name, AllocError> {
        skip(cursor);
        Ok(read_name(cursor))
    }
}

impl Part<Word> for Line {
    ghost rules = { productions };

    ghost others = { body };

    ghost symbols = { Rule statement ∷ Token semicolon ∷ [] };

    ghost words = { closed_words };

    fn read(cursor: &mut Cursor<Word>, _alloc: Global) -> Result<Line, AllocError> {
        let line = read_statement(cursor);
        skip(cursor);
        Ok(line)
    }
}

impl Part<Word> for Source {
    ghost rules = { productions };

    ghost others = { program };

    ghost symbols = { Rule procedure ∷ [] };

    ghost words = { source_words };

    fn read(cursor: &mut Cursor<Word>, alloc: Global) -> Result<Source, AllocError> {
        read_procedure(cursor, alloc)
    }
}

/// The locals of a procedure, put behind its parameter.
fn read_locals(
    cursor: &mut Cursor<Word>,
    mut vars: Items<Name>,
    alloc: Global,
) -> Result<Items<Name>, AllocError>
    ensures reads { IfOk result (ReadsLocals vars cursor.old cursor.new) }
    ensures shrinks { length cursor.new.steps.now ≤ length cursor.old.steps.now }
{
    match cursor.choose() {
        alternative::locals::SOME => {
            skip(cursor);
            vars.push(read_name(cursor))?;
            repeated(cursor, vars, alloc)
        }
        _ => Ok(vars),
    }
}

fn read_procedure(cursor: &mut Cursor<Word>, alloc: Global) -> Result<Source, AllocError>
    ensures reads { IfOk result (Reads (Rule procedure ∷ []) source_words cursor.old cursor.new) }
    ensures shrinks { length cursor.new.steps.now ≤ length cursor.old.steps.now }
{
    cursor.choose();
    let called = read_name(cursor);
    skip(cursor);
    let mut param = Items::new(alloc);
    param.push(read_name(cursor))?;
    skip(cursor);
    let vars = read_locals(cursor, param, alloc)?;
    skip(cursor);
    let lines = repeated(cursor, Items::new(alloc), alloc)?;
    skip(cursor);
    Ok(Source {
        name: called,
        vars,
        body: lines,
    })
}

/// The procedures whose words these are, by the alternatives that make a program of them.
pub fn read_sources(
    alloc: Global,
    steps: &[u8],
    words: &[Word],
) -> Result<Items<Source>, AllocError>
    requires { Derives productions (Rule program ∷ []) steps.now (classes_of words.now) }
    ensures { IfOk result (λ sources. words.now ≡ file_words sources) }
{
    let mut cursor = Cursor { steps, words };
    repeated(&mut cursor, Items::new(alloc), alloc)
}
