//! What a word of an accepted list may be.

ghost use Rattle.std.specs.Prelude.{◌≡◌};
ghost use Rattle.std.specs.List.{starts_with};
ghost use Rattle.rh_args.specs.Numbers.{number_after, within, workers_of, steps_of, count_of, is_file_name, argument};
ghost use Rattle.rh_args.specs.Forms.{fits};

use crate::number::{argument, small_number};

/// A verb, an option, the name of a file or a number.
#[derive(Clone, Copy)]
pub(crate) enum WordForm {
    Opt,
    Check,
    Prove,
    Audit,
    Run,
    Gen,
    Workers,
    Steps,
    File,
    Argument,
    Count,
}

#[tactic(auto, unfolding(crate::specs::Numbers::number_after))]
fn number_after(front: &[u8], word: &[u8]) -> Option<u32>
    ensures { result ≡ number_after front.now word.now }
{
    if word.starts_with(front) {
        small_number(&word[front.len()..])
    } else {
        None
    }
}

fn within(low: u32, high: u32, number: Option<u32>) -> Option<u32>
    ensures { result ≡ within low high number }
{
    number.filter(|number| low <= *number && *number <= high)
}

/// The number of a `--workers=` word.
pub(crate) fn workers_of(word: &[u8]) -> Option<u32>
    ensures { result ≡ workers_of word.now }
{
    within(1, 16, number_after(b"--workers=", word))
}

/// The number of a `--steps=` word.
pub(crate) fn steps_of(word: &[u8]) -> Option<u32>
    ensures { result ≡ steps_of word.now }
{
    within(0, 1_000_000, number_after(b"--steps=", word))
}

/// The number of procedures that a word asks for.
pub(crate) fn count_of(word: &[u8]) -> Option<u32>
    ensures { result ≡ count_of word.now }
{
    within(0, 255, small_number(word))
}

fn is_file_name(word: &[u8]) -> bool
    ensures { result ≡ is_file_name word.now }
{
    !word.is_empty() && word[0] != b'-'
}

/// Whether a word has a form.
pub(crate) fn fits(form: WordForm, word: &str) -> bool
    ensures { result ≡ fits form word.now }
{
    let bytes = word.as_bytes();
    match form {
        WordForm::Opt => word == "opt",
        WordForm::Check => word == "check",
        WordForm::Prove => word == "prove",
        WordForm::Audit => word == "audit",
        WordForm::Run => word == "run",
        WordForm::Gen => word == "gen",
        WordForm::Workers => workers_of(bytes).is_some(),
        WordForm::Steps => steps_of(bytes).is_some(),
        WordForm::File => is_file_name(bytes),
        WordForm::Argument => argument(bytes).is_some(),
        WordForm::Count => count_of(bytes).is_some(),
    }
}
