//! The command that the words of the command line mean.

ghost use Rattle.std.specs.Prelude.{◌≡◌, true, false, IfOk, IfErr};
ghost use Rattle.std.specs.Cmp.Lexicographic.{pointwise};
ghost use Rattle.rh_args.specs.Forms.{fits, forms_of, is_accepted, IsUsagePlace, texts};
ghost use Rattle.rh_args.specs.Meaning.{Means};

use crate::form::{count_of, steps_of, workers_of};
use crate::number::argument;
use crate::shape::{SHAPES, Shape, shape_of};

/// The workers of a command that names none.
const WORKERS: u32 = 4;

/// The steps of a run that names none.
const STEPS: u32 = 1_000_000;

/// What to do. Names of files are as they were given.
#[derive(Clone, Copy, Debug, PartialEq, Eq)]
pub enum Command<'w> {
    Opt {
        workers: u32,
        rules: &'w str,
        program: &'w str,
    },
    Check {
        rules: &'w str,
    },
    Prove {
        rules: &'w str,
    },
    Audit {
        rules: &'w str,
        log: &'w str,
    },
    Run {
        steps: u32,
        program: &'w str,
        arg: i64,
    },
    Gen {
        workers: u32,
        n: u32,
    },
}

/// The length of the longest front of the words with which an accepted list begins.
#[derive(Clone, Copy, Debug, PartialEq, Eq)]
pub struct UsageAt(pub u32);

/// The command that a list of this shape means.
fn command_of(shape: Shape, words: &[String]) -> Command<'_>
    requires { pointwise fits (forms_of shape) (texts words.now) ≡ true }
    ensures { Means (texts words.now) result }
{
    match shape {
        Shape::Opt => Command::Opt {
            workers: WORKERS,
            rules: words[1].as_str(),
            program: words[2].as_str(),
        },
        Shape::OptWorkers => Command::Opt {
            workers: workers_of(words[1].as_bytes()).unwrap(),
            rules: words[2].as_str(),
            program: words[3].as_str(),
        },
        Shape::Check => Command::Check {
            rules: words[1].as_str(),
        },
        Shape::Prove => Command::Prove {
            rules: words[1].as_str(),
        },
        Shape::Audit => Command::Audit {
            rules: words[1].as_str(),
            log: words[2].as_str(),
        },
        Shape::Run => Command::Run {
            steps: STEPS,
            program: words[1].as_str(),
            arg: argument(words[2].as_bytes()).unwrap(),
        },
        Shape::RunSteps => Command::Run {
            steps: steps_of(words[1].as_bytes()).unwrap(),
            program: words[2].as_str(),
            arg: argument(words[3].as_bytes()).unwrap(),
        },
        Shape::Gen => Command::Gen {
            workers: WORKERS,
            n: count_of(words[1].as_bytes()).unwrap(),
        },
        Shape::GenWorkers => Command::Gen {
            workers: workers_of(words[1].as_bytes()).unwrap(),
            n: count_of(words[2].as_bytes()).unwrap(),
        },
    }
}

/// Reads the words after the program's name.
#[tactic(auto, unfolding(crate::specs::Forms::is_accepted))]
pub fn read_words(words: &[String]) -> Result<Command<'_>, UsageAt>
    ensures accepted { IfOk result (λ command. is_accepted (texts words.now) ≡ true) }
    ensures meaning { IfOk result (Means (texts words.now)) }
    ensures refused { IfErr result (λ usage. is_accepted (texts words.now) ≡ false) }
    ensures place { IfErr result (λ usage. IsUsagePlace (texts words.now) usage.0) }
{
    match shape_of(&SHAPES, words) {
        Ok(shape) => Ok(command_of(shape, words)),
        Err(place) => Err(UsageAt(place)),
    }
}
