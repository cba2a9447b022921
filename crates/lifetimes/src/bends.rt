ghost use Rattle.std.specs.Prelude.{◌≡◌, ◌≤◌, ◌≤ℤ◌, ◌+ℤ◌, pos, neg_ℤ, not};
ghost use Rattle.midi_model.specs.Params.{value_of, rpn};
ghost use Rattle.midi_model.specs.Channel.{Channel};
ghost use Rattle.retune_model.specs.Faults.{is_within_bend};
ghost use Rattle.retune_model.specs.Source.{bend_in_steps};
ghost use Rattle.channel_model.specs.Choice.{bend_value};
ghost use Rattle.lifetimes.specs.Within.{PairsAreWithin, BendLaws};

use midi_model::{music_laws, receiver_laws};
use retune_model::{
    beyond_laws, elsewhere, held_laws, last_ends, port_laws, position_laws, rests_are_runs,
    rests_as_written, sound_sources, zone_entries_set_zones,
};

/// A bend in whole steps of a bend at the sensitivity of the route, rounded to the nearest: by the
/// bend and the sensitivity of a channel, in semitones and hundredths.
pub(crate) fn bend_in_steps(range: u8, bend: u16, sensitivity: (u8, u8)) -> i32
    requires some { 1 ≤ range }
    requires high { range ≤ 96 }
    requires bend { bend ≤ 16383 }
    requires semitones { sensitivity.0 ≤ 127 }
    requires hundredths { sensitivity.1 ≤ 127 }
    ensures value { (s : Channel) → s.bend ≡ bend → value_of s.params (rpn 0) ≡ sensitivity
        → result ≡ bend_in_steps range s }
    ensures low { neg_ℤ (pos 2102000) ≤ℤ result }
    ensures high { result ≤ℤ pos 2102000 }
{
    let cents = 100 * sensitivity.0 as u32 + sensitivity.1 as u32;
    let step = 100 * range as u32;
    // The bend less 8,192, twice and by the sensitivity, as a difference of two numbers.
    let above = 2 * (bend as u32 * cents) + step;
    let below = 16384 * cents;
    (above as i32 - below as i32).div_euclid(2 * step as i32)
}

/// Whether the steps of a pair and those of its part's bend are together outside a bend's.
pub(crate) fn is_beyond(steps: i32, moved: i32) -> bool
    ensures { result ≡ not (is_within_bend (steps +ℤ moved)) }
{
    let bend = steps as i64 + moved as i64;
    bend < -8192 || bend > 8191
}

/// A bend by so many steps, as far as a bend goes.
pub(crate) fn bend_value(steps: i32, moved: i32) -> u16
    ensures value { result ≡ bend_value ((pos 8192 +ℤ steps) +ℤ moved) }
    ensures high { result ≤ 16383 }
{
    let bend = 8192 + steps as i64 + moved as i64;
    if bend < 0 {
        0
    } else if bend > 16383 {
        16383
    } else {
        bend as u16
    }
}

/// On the bend route each pair of a part of a source without a fault is within a bend, together with
/// the part's bend, at each position. The function does nothing: its contract is what is stated.
pub(crate) fn pairs_are_within()
    ensures { PairsAreWithin }
{
    beyond_laws();
    zone_entries_set_zones();
    sound_sources();
    port_laws();
    position_laws();
    held_laws();
    elsewhere();
    rests_are_runs();
}

/// The laws of notes, ends and pairs that what a bend does to a part stands on.
pub(crate) fn bend_laws()
    ensures { BendLaws }
{
    music_laws();
    receiver_laws();
    position_laws();
    sound_sources();
    rests_as_written();
    rests_are_runs();
    last_ends();
    beyond_laws();
}
