use key_pitch::{Aim, KeyTable};
use lifetimes::{Options, Route};
use mt_base::Bracket;
use receiver::ChannelState;

/// A thousandth of a cent, in grains.
const THOUSANDTH: i128 = 32_000_000;

fn bends(options: &Options) -> bool {
    match options.route {
        Route::Dump | Route::Live => false,
        Route::Bend | Route::Mpe => true,
    }
}

/// The key on which the output plays a source key.
pub fn target_key(table: &KeyTable, options: &Options, key: u8) -> Option<u8> {
    if !bends(options) {
        return Some(key);
    }
    if key > 127 || options.range < 1 || options.range > 96 {
        return None;
    }
    match table.bend_aim(key, options.range) {
        Aim::Bend { key, .. } => Some(key),
        Aim::Unmapped | Aim::OutOfDevice | Aim::Mts { .. } => None,
    }
}

/// The steps of the bend with which the output plays a source key, on the routes of bends.
pub fn steps_of(table: &KeyTable, options: &Options, key: u8) -> Option<i32> {
    if !bends(options) || key > 127 || options.range < 1 || options.range > 96 {
        return None;
    }
    match table.bend_aim(key, options.range) {
        Aim::Bend { steps, .. } => Some(steps),
        Aim::Unmapped | Aim::OutOfDevice | Aim::Mts { .. } => None,
    }
}

/// By how many grains the part's own bend moves a note: on the bend route in whole steps of the output's range.
fn moved(options: &Options, state: &ChannelState) -> i128 {
    let bend = state.bend as i64 - 8192;
    let cents = 100 * state.fixed[0].0 as i64 + state.fixed[0].1 as i64;
    if options.route != Route::Bend {
        return 3_906_250 * (cents * bend) as i128;
    }
    let range = 100 * options.range as i64;
    if range == 0 {
        return 0;
    }
    let bent = (2 * bend).wrapping_mul(cents).wrapping_add(range);
    let steps = bent.div_euclid(2 * range);
    (390_625_000 * options.range as i128).saturating_mul(steps as i128)
}

/// Between what pitches a source note on a key lies, by its scale and its part's tuning and bend, in grains above
/// key 0.
pub fn source_pitch(
    table: &KeyTable,
    options: &Options,
    state: &ChannelState,
    key: u8,
) -> Option<(i128, i128)> {
    if key > 127 {
        return None;
    }
    let scale: Bracket = table.pitch(key)?;
    let fine = 128 * state.fixed[1].0 as i128 + state.fixed[1].1 as i128 - 8192;
    let coarse = state.fixed[2].0 as i128 - 64;
    let by = 390_625_000 * fine + 3_200_000_000_000 * coarse;
    let by = by.saturating_add(moved(options, state));
    Some((scale.lo.0.saturating_add(by), scale.hi.0.saturating_add(by)))
}

/// Whether a pitch is within half a step of the route and a thousandth of a cent of two others.
pub fn is_within(options: &Options, played: i128, wanted: (i128, i128)) -> bool {
    let half = if bends(options) {
        195_312_500 * options.range as i128
    } else {
        97_656_250
    };
    let bound = half + THOUSANDTH;
    wanted.0.saturating_sub(bound) <= played && played <= wanted.1.saturating_add(bound)
}
