//! The accepted lists of words.

ghost use Rattle.std.specs.Prelude.{◌≡◌, ◌≤◌, length, true, false, IfOk, IfErr};
ghost use Rattle.std.specs.List.{common_prefix_len};
ghost use Rattle.std.specs.Cmp.Lexicographic.{pointwise};
ghost use Rattle.rh_args.specs.Forms.{fits, forms_of, texts, is_shaped, farthest};

use crate::form::{WordForm, fits};

/// The shape of an accepted list: a verb, with its option or without.
#[derive(Clone, Copy)]
pub(crate) enum Shape {
    Opt,
    OptWorkers,
    Check,
    Prove,
    Audit,
    Run,
    RunSteps,
    Gen,
    GenWorkers,
}

pub(crate) const SHAPES: [Shape; 9] = [
    Shape::Opt,
    Shape::OptWorkers,
    Shape::Check,
    Shape::Prove,
    Shape::Audit,
    Shape::Run,
    Shape::RunSteps,
    Shape::Gen,
    Shape::GenWorkers,
];

/// The forms of the words of a list of this shape.
fn forms_of(shape: Shape) -> &'static [WordForm]
    ensures forms { result.now ≡ forms_of shape }
    ensures short { length result.now ≤ 4 }
{
    match shape {
        Shape::Opt => &[WordForm::Opt, WordForm::File, WordForm::File],
        Shape::OptWorkers => &[
            WordForm::Opt,
            WordForm::Workers,
            WordForm::File,
            WordForm::File,
        ],
        Shape::Check => &[WordForm::Check, WordForm::File],
        Shape::Prove => &[WordForm::Prove, WordForm::File],
        Shape::Audit => &[WordForm::Audit, WordForm::File, WordForm::File],
        Shape::Run => &[WordForm::Run, WordForm::File, WordForm::Argument],
        Shape::RunSteps => &[
            WordForm::Run,
            WordForm::Steps,
            WordForm::File,
            WordForm::Argument,
        ],
        Shape::Gen => &[WordForm::Gen, WordForm::Count],
        Shape::GenWorkers => &[WordForm::Gen, WordForm::Workers, WordForm::Count],
    }
}

/// How many words from the first on have the forms of a list.
fn front_len(forms: &[WordForm], words: &[String]) -> usize
    ensures value { result ≡ common_prefix_len fits forms.now (texts words.now) }
    ensures bound { result ≤ length forms.now }
{
    let mut len = 0;
    while len < forms.len() && len < words.len() && fits(forms[len], words[len].as_str()) {
        len += 1;
    }
    len
}

/// The first shape that the words have, or how far they go with one.
pub(crate) fn shape_of(shapes: &[Shape], words: &[String]) -> Result<Shape, u32>
    ensures fits { IfOk result (λ shape. pointwise fits (forms_of shape) (texts words.now) ≡ true) }
    ensures found { IfOk result (λ shape. is_shaped shapes.now (texts words.now) ≡ true) }
    ensures none { IfErr result (λ place. is_shaped shapes.now (texts words.now) ≡ false) }
    ensures farthest { IfErr result (λ place. place ≡ farthest shapes.now (texts words.now)) }
{
    let mut place: usize = 0;
    for shape in shapes {
        let forms = forms_of(*shape);
        let len = front_len(forms, words);
        if len == forms.len() && len == words.len() {
            return Ok(*shape);
        }
        place = place.max(len);
    }
    Err(place as u32)
}
