ghost use Rattle.std.specs.Prelude.{◌≡◌, ◌≤◌, ◌^◌, ℤ, pos, neg_ℤ, ◌≤ℤ◌, ◌+ℤ◌, ◌-ℤ◌};
ghost use Rattle.key_report.specs.Errors.{thousandth_of_a_cent, rounded_down, rounded_up, errors_of, joined};

use mt_base::Bracket;

/// By how much a target may be higher than the pitch that is meant, in thousandths of a cent: from the
/// least to the greatest.
#[derive(Clone, Copy, Debug, PartialEq, Eq)]
pub struct ErrorRange {
    pub least: i32,
    pub greatest: i32,
}

/// Grains in thousandths of a cent, rounded down.
fn down(grains: i128) -> i32
    requires low { neg_ℤ (pos (2 ^ 51)) ≤ℤ grains }
    requires high { grains ≤ℤ pos (2 ^ 51) }
    ensures { result ≡ rounded_down grains }
{
    grains.div_euclid(32_000_000) as i32
}

/// Grains in thousandths of a cent, rounded up.
fn up(grains: i128) -> i32
    requires low { neg_ℤ (pos (2 ^ 51)) ≤ℤ grains }
    requires high { grains ≤ℤ pos (2 ^ 51) }
    ensures { result ≡ rounded_up grains }
{
    -down(-grains)
}

impl ErrorRange {
    /// Of a target in grains, where a bracket holds the pitch that is meant; its ends are at most a
    /// thousandth of a cent apart, and less than 2^50 grains from the target.
    pub fn new(target: i128, bracket: Bracket) -> ErrorRange
        requires target_low { neg_ℤ (pos (2 ^ 60)) ≤ℤ target }
        requires target_high { target ≤ℤ pos (2 ^ 60) }
        requires near_low { (target -ℤ pos (2 ^ 50)) ≤ℤ bracket.lo.0 }
        requires near_high { bracket.lo.0 ≤ℤ (target +ℤ pos (2 ^ 50)) }
        requires order { bracket.lo.0 ≤ℤ bracket.hi.0 }
        requires narrow { (bracket.hi.0 -ℤ bracket.lo.0) ≤ℤ pos thousandth_of_a_cent }
        ensures { result ≡ errors_of target bracket.lo.0 bracket.hi.0 }
    {
        ErrorRange {
            least: down(target - bracket.hi.0),
            greatest: up(target - bracket.lo.0),
        }
    }

    /// From the least of both to the greatest of both.
    pub fn joined(self, other: ErrorRange) -> ErrorRange
        ensures { result ≡ joined self other }
    {
        ErrorRange {
            least: self.least.min(other.least),
            greatest: self.greatest.max(other.greatest),
        }
    }
}
