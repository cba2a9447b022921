ghost use Rattle.std.specs.Prelude.{length, pos, List, [], ◌∷◌, IfSome, IfOk, IfErr, ℕ, Some};
ghost use Rattle.std.specs.Prelude.{◌≡◌, ◌≤◌, ◌<◌, ◌^◌, ◌*◌};
ghost use Rattle.retune_model.specs.Scale.{size_of, floor_div, floor_rem, term_count};
ghost use Rattle.key_pitch.specs.declared.fault.TuneFault.TheVariants.{TooManyPeriods};
ghost use Rattle.key_pitch.specs.Tables.{IsKeyBound};
ghost use Rattle.key_pitch.specs.Sums.{Sums, IsSmall};
ghost use Rattle.key_pitch.specs.Sums.{IsStepSum, IsDegreeSum, IsEntrySum, IsAboveMiddle, IsKeySum};

use crate::fault::TuneFault;
use crate::sum::Sum;
use kbm_text::Mapping;
use mt_base::{Bracket, Grain};
use scl_text::{Entry, Scale};

// A pitch that is a sum of more ratios may have bounds more than a thousandth of a cent apart.
const TERMS: u32 = 1_700;

const SEMITONE: i128 = 3_200_000_000_000;

// The quotient rounded down, and what is left.
fn divided(number: i32, size: usize) -> (i32, usize)
    requires some { 1 ≤ size }
    requires few { size ≤ 4096 }
    requires near { size_of number ≤ 16383 }
    ensures quotient { result.0 ≡ floor_div number size }
    ensures rest { result.1 ≡ floor_rem number size }
    ensures below { floor_rem number size < size }
    ensures near { size_of (floor_div number size) ≤ size_of number }
{
    let size = size as i32;
    (number.div_euclid(size), number.rem_euclid(size) as usize)
}

// A step of the scale, which is none of its ratios at 0.
fn step(scale: &Scale, place: usize) -> Sum
    requires { place ≤ length scale.now }
    ensures sum { IsStepSum scale.now place result }
    ensures small { IsSmall (2 ^ 57) 1 result }
{
    if place == 0 {
        return Sum::grains(0);
    }
    match scale.entries[place - 1] {
        Entry::Ratio { num, den } => Sum::ratio(num, den),
        Entry::Cents { nanocents } => Sum::grains(32 * nanocents as i128),
    }
}

// A step of the scale, repeated by its period in both directions.
fn degree(scale: &Scale, degree: i32) -> Sum
    requires near { size_of degree ≤ 16383 }
    ensures sum { IsDegreeSum scale.now degree result }
    ensures small { IsSmall (2 ^ 72) 16384 result }
{
    let size = scale.entries.len();
    let (periods, place) = divided(degree, size);
    step(scale, size).repeated(periods).plus(step(scale, place))
}

// An entry of the map, so many repetitions of the map away.
fn mapped(scale: &Scale, mapping: &Mapping, turns: i32, entry: Option<u16>) -> Option<Sum>
    requires near { size_of turns ≤ 127 }
    requires low { IfSome entry (λ d. d ≤ 16383) }
    ensures sum { IsEntrySum scale.now mapping.now turns entry result }
    ensures small { IfSome result (IsSmall (2 ^ 80) (2 ^ 22)) }
{
    let Some(place) = entry else {
        return None;
    };
    let octaves = degree(scale, mapping.octave as i32).repeated(turns);
    Some(octaves.plus(degree(scale, place as i32)))
}

// The pitch of a key above the middle note.
pub fn above_middle(scale: &Scale, mapping: &Mapping, key: u8) -> Option<Sum>
    requires { key ≤ 127 }
    ensures sum { IsAboveMiddle scale.now mapping.now key result }
    ensures small { IfSome result (IsSmall (2 ^ 80) (2 ^ 22)) }
{
    let distance = key as i32 - mapping.middle as i32;
    let size = mapping.entries.len();
    if size == 0 {
        return Some(degree(scale, distance));
    }
    let (turns, place) = divided(distance, size);
    mapped(scale, mapping, turns, mapping.entries[place])
}

// The pitch of a frequency, above key 0.
fn reference(nanohertz: u64) -> Sum
    requires some { 1 ≤ nanohertz }
    requires high { nanohertz < 2 ^ 63 }
    ensures sum { Sums (record { a = nanohertz; b = 440000000000; c = pos 220800000000000 }) 1
        ((nanohertz, 440000000000) ∷ []) result }
    ensures small { IsSmall (2 ^ 58) 1 result }
{
    let above = Sum::ratio(nanohertz, 440_000_000_000);
    Sum {
        bracket: Bracket {
            lo: Grain(above.bracket.lo.0 + 69 * SEMITONE),
            hi: Grain(above.bracket.hi.0 + 69 * SEMITONE),
        },
        terms: above.terms,
    }
}

// The pitch of a key, above key 0, where the reference key is so far above the middle note.
fn key_pitch(scale: &Scale, mapping: &Mapping, tuned: Sum, key: u8) -> Option<Sum>
    requires key { key ≤ 127 }
    requires tuned { IsAboveMiddle scale.now mapping.now mapping.now.reference (Some tuned) }
    requires small { IsSmall (2 ^ 80) (2 ^ 22) tuned }
    ensures sum { IsKeySum scale.now mapping.now key result }
    ensures small { IfSome result (IsSmall (2 ^ 90) (2 ^ 24)) }
{
    if key < mapping.first || mapping.last < key {
        return Some(Sum::grains(SEMITONE * key as i128));
    }
    let Some(above) = above_middle(scale, mapping, key) else {
        return None;
    };
    Some(reference(mapping.nanohertz).plus(above).minus(tuned))
}

// The bounds of the pitch of a key, refused where it is a sum of too many ratios.
pub fn bounds(
    scale: &Scale,
    mapping: &Mapping,
    tuned: Sum,
    key: u8,
) -> Result<Option<Bracket>, TuneFault>
    requires key { key ≤ 127 }
    requires tuned { IsAboveMiddle scale.now mapping.now mapping.now.reference (Some tuned) }
    requires small { IsSmall (2 ^ 80) (2 ^ 22) tuned }
    ensures found { IfOk result (IsKeyBound scale.now mapping.now key) }
    ensures many { IfErr result
        (λ fault. (fault ≡ TooManyPeriods key) × (1700 < term_count scale.now mapping.now key)) }
{
    let Some(sum) = key_pitch(scale, mapping, tuned, key) else {
        return Ok(None);
    };
    if sum.terms > TERMS {
        return Err(TuneFault::TooManyPeriods { key });
    }
    Ok(Some(sum.bracket))
}
