//! Reads single words by a cursor.

ghost use Rattle.std.specs.Prelude.{◌≡◌, ◌≤◌, ◌∷◌, [], length};
ghost use Rattle.rh_grammar.specs.declared.grammar.Symbol.TheVariants.{Token};
ghost use Rattle.rh_il_source.specs.Grammar.{name, index};
ghost use Rattle.rh_il_source.specs.Reading.{Reads, Skips, ReadsNumber, IsNameIn, IsNumberIn};
ghost use Rattle.rh_il_source.specs.declared.word.Word.TheVariants.{Name as NameWord, Number as NumberWord};

use crate::word::Word;
use rh_grammar::Cursor;
use rh_il::Name;

/// Goes over a sign or a reserved word.
pub(crate) fn skip(cursor: &mut Cursor<Word>)
    ensures skips { Skips cursor.old cursor.new }
    ensures shrinks { length cursor.new.steps.now ≤ length cursor.old.steps.now }
{
    cursor.word();
}

/// What stands in the place of a name where there is none.
fn no_name() -> Name {
    Name::of(b"none").unwrap()
}

fn name_in(word: Option<Word>) -> Name
    ensures { IsNameIn word result }
{
    match word {
        Some(word) => name_of(word),
        None => no_name(),
    }
}

fn name_of(word: Word) -> Name
    ensures { IsNameIn (Some word) result }
{
    match word {
        Word::Name(name) => name,
        _ => no_name(),
    }
}

fn number_in(word: Option<Word>) -> u64
    ensures { IsNumberIn word result }
{
    match word {
        Some(Word::Number(number)) => number,
        _ => 0,
    }
}

pub(crate) fn read_name(cursor: &mut Cursor<Word>) -> Name
    ensures reads { Reads (Token name ∷ []) (λ bytes. NameWord bytes ∷ []) cursor.old cursor.new result }
    ensures shrinks { length cursor.new.steps.now ≤ length cursor.old.steps.now }
{
    name_in(cursor.word())
}

/// A number of any class.
pub(crate) fn read_number(cursor: &mut Cursor<Word>) -> u64
    ensures reads { ReadsNumber cursor.old cursor.new result }
    ensures shrinks { length cursor.new.steps.now ≤ length cursor.old.steps.now }
{
    number_in(cursor.word())
}

/// The number of a statement.
pub(crate) fn read_index(cursor: &mut Cursor<Word>) -> u32
    ensures reads { Reads (Token index ∷ []) (λ n. NumberWord n ∷ []) cursor.old cursor.new result }
    ensures shrinks { length cursor.new.steps.now ≤ length cursor.old.steps.now }
{
    let number = read_number(cursor);
    if number < 1 << 32 { number as u32 } else { 0 }
}
