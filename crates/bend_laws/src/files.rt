//! What the bend route writes for a file.

ghost use Rattle.bend_laws.specs.FileLaws.{PortsPlay, PortsAreTheirEvents, PortsAreTheirBlocks, BentPlaysTheSame, BentFilePlaysTheSame, BentIsPlayable, BentAddsFewBytes, BentIsOnTheRow, NotesAreOnTheirChannels, PortsAreLeft};

use channel_model::{best_is_free, outputs_apart};
use midi_model::{music_laws, parameter_laws, receiver_laws, size_laws};
use mt_base::laws::{exact, sums, wider};
use retune_model::{
    elsewhere, held_laws, pairs_in_order, position_laws, rests_are_runs, sound_sources,
    zone_entries_set_zones,
};
use state_laws::{
    a_receiver_follows, bring_reaches, messages_are_few, messages_only_set, states_stay_well_formed,
};

/// For a source without a fault and a plan of each of its ports, for any tail: at every position of the file each port plays the
/// notes that the source plays, one by one, on the channels of the plan; the channel of each pair that is there is at what the pair
/// needs; each other channel of the used row is silent, and one that no run holds is in the state from which the next is brought. So
/// the whole plays the same: on every port and at every tick the same notes, each within half a step of a bend and a thousandth of a
/// cent of its source pitch, and right from its beginning; all other events and kept drums are passed on. It can be written as a file
/// with the source's tracks, each event with at most 1,600 bytes beside its own, and speaks to no part but on the channels of the used
/// row.
pub fn bend_plays_the_same()
    ensures ports { PortsPlay }
    ensures source { PortsAreTheirEvents }
    ensures out { PortsAreTheirBlocks }
    ensures channels { NotesAreOnTheirChannels }
    ensures left { PortsAreLeft }
    ensures same { BentPlaysTheSame }
    ensures file { BentFilePlaysTheSame }
    ensures playable { BentIsPlayable }
    ensures few_bytes { BentAddsFewBytes }
    ensures on_row { BentIsOnTheRow }
{
    best_is_free();
    outputs_apart();
    elsewhere();
    held_laws();
    pairs_in_order();
    position_laws();
    rests_are_runs();
    sound_sources();
    zone_entries_set_zones();
    music_laws();
    parameter_laws();
    receiver_laws();
    size_laws();
    sums();
    exact();
    wider();
    states_stay_well_formed();
    bring_reaches();
    messages_are_few();
    messages_only_set();
    a_receiver_follows();
}
