ghost use Rattle.std.specs.Prelude.{◌≡◌, ◌≤◌, ◌*ℤ◌, ◌^◌};
ghost use Rattle.retune_model.specs.Scale.{size_of};

use log_bracket::log2_grains;
use mt_base::{Bracket, Grain, laws};

// Bounds of a pitch that is a sum of so many ratios and of whole grains.
#[derive(Clone, Copy, Debug)]
pub struct Sum {
    pub bracket: Bracket,
    pub terms: u32,
}

impl Sum {
    ghost use Rattle.std.specs.Prelude.{◌≤◌, ◌<◌, ◌≤ℤ◌, ◌^◌, pos, neg_ℤ, [], ◌∷◌};
    ghost use Rattle.mt_base.specs.Pitch.{ratio, exactly, added, subtracted};
    ghost use Rattle.retune_model.specs.Scale.{size_of};
    ghost use Rattle.key_pitch.specs.Sums.{Sums, IsSmall, JoinsSums, IsSmallAsBoth};
    ghost use Rattle.key_pitch.specs.Sums.{RepeatsSum, IsSmallAsTimes};

    // A whole number of grains.
    pub fn grains(grains: i128) -> Sum
        requires low { neg_ℤ (pos (2 ^ 57)) ≤ℤ grains }
        requires high { grains ≤ℤ pos (2 ^ 57) }
        ensures sum { Sums (exactly grains) 0 [] result }
        ensures small { IsSmall (2 ^ 57) 0 result }
    {
        let end = Grain(grains);
        Sum {
            bracket: Bracket { lo: end, hi: end },
            terms: 0,
        }
    }

    pub fn ratio(num: u64, den: u64) -> Sum
        requires num_some { 1 ≤ num }
        requires num_high { num < 2 ^ 63 }
        requires den_some { 1 ≤ den }
        requires den_high { den < 2 ^ 63 }
        ensures sum { Sums (ratio num den) 1 ((num, den) ∷ []) result }
        ensures small { IsSmall (2 ^ 57) 1 result }
    {
        Sum {
            bracket: log2_grains(num, den),
            terms: 1,
        }
    }

    pub fn plus(self, other: Sum) -> Sum
        requires small { IsSmall (2 ^ 100) (2 ^ 30) self }
        requires other_small { IsSmall (2 ^ 100) (2 ^ 30) other }
        ensures sum { JoinsSums added self other result }
        ensures small { IsSmallAsBoth self other result }
    {
        laws::sums();
        Sum {
            bracket: Bracket {
                lo: Grain(self.bracket.lo.0 + other.bracket.lo.0),
                hi: Grain(self.bracket.hi.0 + other.bracket.hi.0),
            },
            terms: self.terms + other.terms,
        }
    }

    pub fn minus(self, other: Sum) -> Sum
        requires small { IsSmall (2 ^ 100) (2 ^ 30) self }
        requires other_small { IsSmall (2 ^ 100) (2 ^ 30) other }
        ensures sum { JoinsSums subtracted self other result }
        ensures small { IsSmallAsBoth self other result }
    {
        laws::differences();
        Sum {
            bracket: Bracket {
                lo: Grain(self.bracket.lo.0 - other.bracket.hi.0),
                hi: Grain(self.bracket.hi.0 - other.bracket.lo.0),
            },
            terms: self.terms + other.terms,
        }
    }

    pub fn repeated(self, turns: i32) -> Sum
        requires small { IsSmall (2 ^ 80) (2 ^ 15) self }
        requires few { size_of turns ≤ 16384 }
        ensures sum { RepeatsSum turns self result }
        ensures small { IsSmallAsTimes turns self result }
    {
        // Turns below 0 are a difference: so many multiples, taken from an exact 0.
        laws::multiples();
        laws::differences();
        laws::exact();
        let terms = turns.unsigned_abs() * self.terms;
        let lo = grains_repeated(turns, self.bracket.lo);
        let hi = grains_repeated(turns, self.bracket.hi);
        if turns < 0 {
            return Sum {
                bracket: Bracket { lo: hi, hi: lo },
                terms,
            };
        }
        Sum {
            bracket: Bracket { lo, hi },
            terms,
        }
    }
}

fn grains_repeated(turns: i32, grains: Grain) -> Grain
    requires few { size_of turns ≤ 16384 }
    requires small { size_of grains.0 ≤ 2 ^ 80 }
    ensures { result.0 ≡ turns *ℤ grains.0 }
{
    Grain(turns as i128 * grains.0)
}
