ghost use Rattle.std.specs.Prelude.{◌≡◌, ◌+◌, ◌*◌, ◌^◌, ◌<◌, ◌≤◌, ℕ};
ghost use Rattle.log_bracket.specs.Digits.{IsQuotient, IsLogarithm};

// The first 32 binary digits of the logarithm to the base 2 of start / 2 ^ 63, which is at least 1
// and below 2, and of each quotient of which start is the integer part. Each squaring doubles the
// logarithm and gives a digit.
pub fn binary_digits(start: u64) -> u64
    requires { 2 ^ 63 ≤ start }
    ensures digits { (a b : ℕ) → IsQuotient start a b → IsLogarithm result a b }
    ensures below { result < 2 ^ 32 }
{
    let mut mantissa = start;
    let mut digits: u64 = 0;
    for _turn in 0..32u32 {
        let square = Square::of(mantissa);
        mantissa = square.mantissa;
        digits = 2 * digits + square.digit;
    }
    digits
}

// The square of a mantissa, cut down to a mantissa, and 1 where it was 2 or more.
#[derive(Clone, Copy, Debug)]
struct Square {
    mantissa: u64,
    digit: u64,
}

impl Square {
    fn of(mantissa: u64) -> Square
        requires { 2 ^ 63 ≤ mantissa }
        ensures low { result.mantissa * (2 ^ 63 * 2 ^ result.digit) ≤ mantissa * mantissa }
        ensures high { mantissa * mantissa < (result.mantissa + 1) * (2 ^ 63 * 2 ^ result.digit) }
        ensures top { 2 ^ 63 ≤ result.mantissa }
        ensures digit { result.digit ≤ 1 }
    {
        let square = mantissa as u128 * mantissa as u128;
        if square < 1 << 127 {
            Square {
                mantissa: (square >> 63) as u64,
                digit: 0,
            }
        } else {
            Square {
                mantissa: (square >> 64) as u64,
                digit: 1,
            }
        }
    }
}
