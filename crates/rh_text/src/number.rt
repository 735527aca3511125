//! The number that digits stand for.

ghost use Rattle.std.specs.Prelude.{◌≡◌, ◌^◌, ◌<◌, ◌≤◌, true, length, IfSome};
ghost use Rattle.std.specs.List.{list_all};
ghost use Rattle.std.specs.Char.{is_ascii_digit};
ghost use Rattle.rh_text.specs.Pieces.{decimal_value};
ghost use Rattle.rh_text.specs.Decimal.{up_to_limit, signed};

/// The largest number that a text may name: the size of the least `i64`.
const LIMIT: u64 = 9_223_372_036_854_775_808;

/// The number that digits stand for, where it is at most 2 ^ 63.
pub fn decimal(digits: &[u8]) -> Option<u64>
    requires { list_all is_ascii_digit digits.now ≡ true }
    ensures value { result ≡ up_to_limit (decimal_value digits.now) }
    ensures bound { IfSome result (λ number. number < 10 ^ length digits.now) }
    ensures limit { IfSome result (λ number. number ≤ 2 ^ 63) }
{
    let mut value: u128 = 0;
    for digit in digits {
        value = value * 10 + u128::from(*digit - b'0');
        if value > LIMIT as u128 {
            return None;
        }
    }
    Some(value as u64)
}

/// The `i64` of a sign and a size, where there is one.
pub fn signed(negative: bool, size: u64) -> Option<i64>
    requires { size ≤ 2 ^ 63 }
    ensures { result ≡ signed negative size }
{
    if size == LIMIT {
        return if negative { Some(i64::MIN) } else { None };
    }
    let number = size as i64;
    Some(if negative { -number } else { number })
}
