ghost use Rattle.std.specs.Prelude.{◌≡◌, ◌≤◌, ◌<◌, ◌^◌};
ghost use Rattle.scala_lines.specs.Characters.{Are, is_digit};
ghost use Rattle.scala_lines.specs.Numbers.{value, within, billionths};

/// What digits say, where it isn't above the limit.
pub fn value_within(digits: &[u8], limit: u64) -> Option<u64>
    requires { limit < 2 ^ 63 }
    ensures { result ≡ within limit (value digits.now) }
{
    let mut number = 0u64;
    for digit in digits {
        if number > limit / 10 {
            return None;
        }
        number = number * 10 + digit.saturating_sub(b'0') as u64;
        if number > limit {
            return None;
        }
    }
    Some(number)
}

/// What the digits behind a period say in billionths: the first nine of them count.
pub fn billionths(digits: &[u8]) -> u64
    requires { Are is_digit digits.now }
    ensures value { result ≡ billionths digits.now }
    ensures bound { result < 10 ^ 9 }
{
    if digits.len() >= 9 {
        return value_within(&digits[..9], 999_999_999).unwrap_or(0);
    }
    value_within(digits, 999_999_999).unwrap_or(0) * 10u64.pow(9 - digits.len() as u32)
}
