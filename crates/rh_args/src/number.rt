//! Numbers among the words.

ghost use Rattle.std.specs.Prelude.{◌≡◌, ◌^◌, ◌<◌, ◌≤◌, IfSome};
ghost use Rattle.std.specs.List.{list_all};
ghost use Rattle.std.specs.Char.{is_ascii_digit};
ghost use Rattle.rh_args.specs.Numbers.{is_number, digits_up_to, small_number, is_negative, without_sign, argument};

use rh_text::{decimal, signed};

/// The most digits of an option's number or of a count.
const SMALL: usize = 7;

/// The most digits of an argument.
const LARGE: usize = 19;

fn all_digits(text: &[u8]) -> bool
    ensures { result ≡ list_all is_ascii_digit text.now }
{
    text.iter().all(|byte| byte.is_ascii_digit())
}

fn is_number(most: usize, text: &[u8]) -> bool
    ensures { result ≡ is_number most text.now }
{
    1 <= text.len() && text.len() <= most && all_digits(text)
}

/// The number that one to `most` digits stand for, where it is at most 2 ^ 63.
#[tactic(auto, unfolding(crate::specs::Numbers::digits_up_to))]
fn digits_up_to(most: usize, text: &[u8]) -> Option<u64>
    ensures value { result ≡ digits_up_to most text.now }
    ensures bound { IfSome result (λ number. number < 10 ^ most) }
    ensures limit { IfSome result (λ number. number ≤ 2 ^ 63) }
{
    if is_number(most, text) {
        decimal(text)
    } else {
        None
    }
}

/// The number that one to seven digits stand for.
pub(crate) fn small_number(text: &[u8]) -> Option<u32>
    ensures { result ≡ small_number text.now }
{
    digits_up_to(SMALL, text).map(|number| number as u32)
}

fn is_negative(text: &[u8]) -> bool
    ensures { result ≡ is_negative text.now }
{
    !text.is_empty() && text[0] == b'-'
}

fn without_sign(text: &[u8]) -> &[u8]
    ensures { result.now ≡ without_sign text.now }
{
    if is_negative(text) { &text[1..] } else { text }
}

/// The number that an optional `-` and one to nineteen digits stand for.
#[tactic(auto, unfolding(crate::specs::Numbers::argument))]
pub(crate) fn argument(text: &[u8]) -> Option<i64>
    ensures { result ≡ argument text.now }
{
    let size = digits_up_to(LARGE, without_sign(text))?;
    signed(is_negative(text), size)
}
