//! Logarithms to the base 2 as brackets of whole grains.
#![tactic(auto)]

mod chain;
mod scaled;
#[cfg(test)]
mod tests;

ghost use Rattle.std.specs.Prelude.{◌≡◌, ◌+◌, ◌*◌, ◌^◌, ◌<◌, ◌≤◌, ◌≤ℤ◌, ◌+ℤ◌, ◌-ℤ◌, pos, neg_ℤ, ℕ};
ghost use Rattle.mt_base.specs.Grains.{octave};
ghost use Rattle.mt_base.specs.Pitch.{AtLeast, AtMost, ratio};
ghost use Rattle.log_bracket.specs.Digits.{power};
ghost use Rattle.log_bracket.specs.Points.{IsPoint};

use crate::chain::binary_digits;
use crate::scaled::{Scaled, Start};
use mt_base::{Bracket, Grain, laws};

const OCTAVE: u64 = 38_400_000_000_000;

/// Two whole numbers of grains, at most 18,000 apart, between which the logarithm to the base 2 of
/// a / b lies, where 38,400,000,000,000 grains are 1. For a power of two both are the logarithm.
/// No error; neither is further than 2 ^ 52 from 0.
pub fn log2_grains(a: u64, b: u64) -> Bracket
    requires a_above { 0 < a }
    requires a_below { a < 2 ^ 63 }
    requires b_above { 0 < b }
    requires b_below { b < 2 ^ 63 }
    ensures least { AtLeast (ratio a b) result.lo.0 }
    ensures most { AtMost (ratio a b) result.hi.0 }
    ensures width { (result.hi.0 -ℤ result.lo.0) ≤ℤ pos 18000 }
    ensures order { result.lo.0 ≤ℤ result.hi.0 }
    ensures lowest { neg_ℤ (pos (2 ^ 52)) ≤ℤ result.lo.0 }
    ensures highest { result.hi.0 ≤ℤ pos (2 ^ 52) }
    ensures exact_up { (j : ℕ) → a ≡ 2 ^ j * b → IsPoint result (pos (j * octave)) }
    ensures exact_down { (j : ℕ) → b ≡ 2 ^ j * a → IsPoint result (neg_ℤ (pos (j * octave))) }
{
    laws::powers();
    laws::octaves();
    laws::ends();
    let above = Scaled::of(a);
    let below = Scaled::of(b);
    if above.mantissa == below.mantissa {
        let octaves = placed(0, below.shift, above.shift);
        return Bracket {
            lo: octaves,
            hi: octaves,
        };
    }
    let start = Start::of(above.mantissa, below.mantissa);
    let digits = binary_digits(start.mantissa);
    let down = above.shift + start.doublings;
    let lo = placed(grains_down(digits), below.shift, down);
    let hi = placed(grains_up(digits + 2), below.shift, down);
    Bracket { lo, hi }
}

// The grains of digits / 2 ^ 32 octaves, cut down to a whole number.
#[tactic(auto, unfolding(mt_base::specs::Grains::octave, crate::specs::Digits::power))]
fn grains_down(digits: u64) -> u64
    requires { digits < 2 ^ 33 }
    ensures low { result * power ≤ octave * digits }
    ensures high { octave * digits < (result + 1) * power }
{
    ((OCTAVE as u128 * digits as u128) >> 32) as u64
}

// The same, cut up.
#[tactic(auto, unfolding(mt_base::specs::Grains::octave, crate::specs::Digits::power))]
fn grains_up(digits: u64) -> u64
    requires { digits < 2 ^ 33 }
    ensures low { octave * digits ≤ result * power }
    ensures high { result * power < octave * digits + power }
{
    ((OCTAVE as u128 * digits as u128 + 0xffff_ffff) >> 32) as u64
}

// So many grains, so many octaves up and so many down.
#[tactic(auto, unfolding(mt_base::specs::Grains::octave))]
fn placed(grains: u64, up: u32, down: u32) -> Grain
    requires grains { grains < 2 ^ 46 }
    requires up { up < 128 }
    requires down { down < 128 }
    ensures { result.0 +ℤ pos (down * octave) ≡ pos (grains + up * octave) }
{
    let raised = grains + up as u64 * OCTAVE;
    let lowered = down as u64 * OCTAVE;
    Grain(raised as i128 - lowered as i128)
}
