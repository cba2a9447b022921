//! What the MPE route writes for a file.

ghost use Rattle.mpe_laws.specs.FileLaws.{PortsFollow, PortsAreTheirEvents, PortsAreTheirBlocks, PortsBegin, PortsAreOnTheirChannels, MembersAreLeft, ZonedPlaysTheSame, ZonedFilePlaysTheSame, ZonedIsPlayable, ZonedIsOnZones, ZonedAddsFewBytes, PlansServe};

use channel_model::{best_is_free, outputs_apart};
use midi_model::{music_laws, parameter_laws};
use mt_base::laws::{exact, sums, wider};
use retune_model::{
    elsewhere, held_laws, part_alone, position_laws, rests_are_runs, sound_sources,
    zone_entries_set_zones,
};

/// For a source without a fault, with allowed zones and a plan of their members for each of its ports, for any tail:
/// at every position of the file each port's output follows its source. Before the port's first message nothing was
/// played. From then on the zones are those that are planned, also behind each reset; the notes match one by one,
/// each retuned one on the member of its part's zone that its plan names; each master is at its part's state; and the
/// member of each pair that is there has the pair's bend, each other member that of the pair before. So the whole
/// plays the same: on every port and at every tick the same notes, each with its source's controllers, pressures and
/// parameters, within half a step of a bend and a thousandth of a cent of its source pitch, and right from its
/// beginning; all other events and kept drums are passed on. It can be written as a file with the source's tracks,
/// each event with at most 1,600 bytes beside its own, and speaks to no channel of a port but masters and members,
/// kept drums aside.
pub fn mpe_plays_the_same()
    ensures ports { PortsFollow }
    ensures source { PortsAreTheirEvents }
    ensures out { PortsAreTheirBlocks }
    ensures begun { PortsBegin }
    ensures channels { PortsAreOnTheirChannels }
    ensures left { MembersAreLeft }
    ensures same { ZonedPlaysTheSame }
    ensures file { ZonedFilePlaysTheSame }
    ensures playable { ZonedIsPlayable }
    ensures on_zones { ZonedIsOnZones }
    ensures few_bytes { ZonedAddsFewBytes }
{
    best_is_free();
    outputs_apart();
    elsewhere();
    held_laws();
    part_alone();
    position_laws();
    rests_are_runs();
    sound_sources();
    zone_entries_set_zones();
    music_laws();
    parameter_laws();
    sums();
    exact();
    wider();
}

/// A source without a fault that isn't refused on the MPE route, with a plan of each zone that its parts with notes
/// need, is such a source: its zones are allowed and set apart, and each part that has a pair has one.
pub fn plans_serve()
    ensures serve { PlansServe }
{
    held_laws();
    position_laws();
    rests_are_runs();
    sound_sources();
}
