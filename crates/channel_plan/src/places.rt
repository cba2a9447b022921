ghost use Rattle.std.specs.Prelude.{◌≡◌, ◌<◌, ℕ, List, true, false, Some, length, map, set, IfSome, IfNone, IsTrue, ◌↔◌};
ghost use Rattle.mt_base.specs.Midi.{MidiEvent};
ghost use Rattle.retune_model.specs.Options.{bends_notes};
ghost use Rattle.retune_model.specs.Faults.{is_part};
ghost use Rattle.receiver.specs.State.{state_of};
ghost use Rattle.lifetimes.specs.Views.{options_of, pair_of};
ghost use Rattle.lifetimes.specs.Stands.{Stands, asked, table_in};
ghost use Rattle.lifetimes.specs.Told.{is_held, is_sounding};
ghost use Rattle.plan_laws.specs.Placing.{seen_at, leave, clear, begun_on, begin_on};
ghost use Rattle.plan_laws.specs.FromLaws.{member_state};
ghost use Rattle.plan_laws.specs.Rows.{needed, leaves_by, keeps_before, keep};
ghost use Rattle.channel_plan.specs.Seeing.{seen, all_seen, runs_in, IsPartOn, ArePartsOn, IsKeptOn, AreKeptOn};

use crate::choice::Place;
use crate::counter::{ends_none, stays};
use key_pitch::Aims;
use lifetimes::{Options, Parts, Route};
use mt_base::Pair;
use receiver::{ChannelState, Ends};

/// The state of a member of a zone that has the bend of a pair.
fn member_of(pair: &Pair) -> ChannelState
    ensures { state_of result ≡ member_state (pair_of pair.now) }
{
    let mut state = ChannelState::new();
    state.set_bend((pair.steps as i64 + 8192).clamp(0, 16383) as u16);
    state
}

/// The state that a channel needs for a pair of a retuned part.
pub(crate) fn needed<T: Aims>(parts: &Parts<T>, pair: &Pair) -> ChannelState
    requires bends { bends_notes (asked parts.now).route ≡ true }
    ensures { (es : List MidiEvent) → Stands (T.table (table_in parts.now)) parts.now es
        → is_part (asked parts.now) (pair.now.part.channel) ≡ true
        → state_of result ≡ needed (asked parts.now) (T.table (table_in parts.now)) es
        (pair_of pair.now) }
{
    let options = parts.options();
    if options.route == Route::Bend && !(options.keep_drums && pair.part.channel.number() == 9) {
        parts.wanted(pair)
    } else {
        member_of(pair)
    }
}

/// Whether the state in which a pair leaves its channel is kept before the event at which it does:
/// on bend, where notes rest.
pub(crate) fn keeps_before(options: &Options) -> bool
    ensures { result ≡ keeps_before (options_of options.now) }
{
    options.route == Route::Bend && options.tail > 0
}

/// Frees a place whose pair is gone. Where notes don't rest, it can be gone only where a note of
/// its channel ended.
fn leave_one<T: Aims>(place: &mut Place, parts: &Parts<T>, ended: &Ends, rests: bool, position: u32)
    requires bends { bends_notes (asked parts.now).route ≡ true }
    ensures seen { (es : List MidiEvent) → Stands (T.table (table_in parts.now)) parts.now es
        → IsPartOn (asked parts.now) (seen place.old)
        → (rests ≡ false → IsKeptOn ended.now (is_held (asked parts.now)
        (T.table (table_in parts.now)) es) (seen place.old))
        → seen place.new ≡ leave (is_held (asked parts.now) (T.table (table_in parts.now)) es)
        (leaves_by (asked parts.now) (T.table (table_in parts.now)) es) position (seen place.old) }
    ensures run { place.new.run ≡ place.old.run }
{
    if let Some(pair) = place.pair {
        if !stays(parts, ended, rests, &pair) {
            if !keeps_before(&parts.options()) {
                place.left = needed(parts, &pair);
            }
            place.pair = None;
            place.since = position;
        }
    }
}

/// Keeps the state of a place whose pair only rests, since the rest may run out at the next event.
fn keep_one<T: Aims>(place: &mut Place, parts: &Parts<T>)
    requires bends { bends_notes (asked parts.now).route ≡ true }
    ensures seen { (es : List MidiEvent) → Stands (T.table (table_in parts.now)) parts.now es
        → IsPartOn (asked parts.now) (seen place.old)
        → seen place.new ≡ keep (is_sounding (asked parts.now) (T.table (table_in parts.now)) es)
        (needed (asked parts.now) (T.table (table_in parts.now)) es) (seen place.old) }
    ensures run { place.new.run ≡ place.old.run }
{
    if let Some(pair) = place.pair {
        if !parts.sounds(&pair) {
            place.left = needed(parts, &pair);
        }
    }
}

/// Frees a place at a reset of its port.
fn clear_one(place: &mut Place, position: u32)
    ensures seen { seen place.new ≡ clear position (seen place.old) }
    ensures run { place.new.run ≡ place.old.run }
{
    if place.pair.is_some() {
        place.pair = None;
        place.since = position;
    }
    place.left = ChannelState::new();
}

/// Frees the places whose pairs are gone.
pub(crate) fn leave_all<T: Aims>(
    places: &mut [Place],
    parts: &Parts<T>,
    ended: &Ends,
    rests: bool,
    position: u32,
)
    requires bends { bends_notes (asked parts.now).route ≡ true }
    ensures seen { (es : List MidiEvent) → Stands (T.table (table_in parts.now)) parts.now es
        → ArePartsOn (asked parts.now) (all_seen places.old)
        → (rests ≡ false → AreKeptOn ended.now (is_held (asked parts.now)
        (T.table (table_in parts.now)) es) (all_seen places.old))
        → all_seen places.new
        ≡ map (leave (is_held (asked parts.now) (T.table (table_in parts.now)) es)
        (leaves_by (asked parts.now) (T.table (table_in parts.now)) es) position)
        (all_seen places.old) }
    ensures runs { runs_in places.new ≡ runs_in places.old }
{
    // Most events end no note. All pairs stay then, and no place has to be looked at.
    if !rests && ends_none(ended) {
        return;
    }
    let mut place = 0;
    while place < places.len() {
        leave_one(&mut places[place], parts, ended, rests, position);
        place += 1;
    }
}

/// Keeps the states of the places whose pairs only rest.
pub(crate) fn keep_all<T: Aims>(places: &mut [Place], parts: &Parts<T>)
    requires bends { bends_notes (asked parts.now).route ≡ true }
    ensures seen { (es : List MidiEvent) → Stands (T.table (table_in parts.now)) parts.now es
        → ArePartsOn (asked parts.now) (all_seen places.old)
        → all_seen places.new
        ≡ map (keep (is_sounding (asked parts.now) (T.table (table_in parts.now)) es)
        (needed (asked parts.now) (T.table (table_in parts.now)) es)) (all_seen places.old) }
    ensures runs { runs_in places.new ≡ runs_in places.old }
{
    let mut place = 0;
    while place < places.len() {
        keep_one(&mut places[place], parts);
        place += 1;
    }
}

/// Frees all places at a reset of their port.
pub(crate) fn clear_all(places: &mut [Place], position: u32)
    ensures seen { all_seen places.new ≡ map (clear position) (all_seen places.old) }
    ensures runs { runs_in places.new ≡ runs_in places.old }
{
    let mut place = 0;
    while place < places.len() {
        clear_one(&mut places[place], position);
        place += 1;
    }
}

/// A run of a pair begins on a place.
fn begin_one(place: &mut Place, pair: &Pair, run: u32)
    ensures seen { seen place.new ≡ begun_on (pair_of pair.now) (seen place.old) }
    ensures run { place.new.run ≡ run }
{
    place.pair = Some(*pair);
    place.run = run;
}

/// A run of a pair begins on a place of a row.
pub(crate) fn begin(places: &mut [Place], place: usize, pair: &Pair, run: u32)
    requires { place < length places.old }
    ensures seen { all_seen places.new ≡ begin_on (all_seen places.old) place (pair_of pair.now) }
    ensures runs { runs_in places.new ≡ set (runs_in places.old) place run }
{
    begin_one(&mut places[place], pair, run);
}

/// Whether a place has a pair.
fn has(place: &Place, pair: &Pair) -> bool
    ensures { IsTrue result ↔ ((seen place.now).pair ≡ Some (pair_of pair.now)) }
{
    match place.pair {
        Some(there) => there == *pair,
        None => false,
    }
}

/// The place that has a pair. None where none has it.
pub(crate) fn place_of(places: &[Place], pair: &Pair) -> Option<usize>
    ensures within { IfSome result (λ c. c < length places.now) }
    ensures some { IfSome result (λ c. (seen_at (all_seen places.now) c).pair
        ≡ Some (pair_of pair.now)) }
    ensures none { IfNone result ((c : ℕ) → (seen_at (all_seen places.now) c).pair
        ≡ Some (pair_of pair.now) → ⊥) }
{
    let mut place = 0;
    while place < places.len() {
        if has(&places[place], pair) {
            return Some(place);
        }
        place += 1;
    }
    None
}
