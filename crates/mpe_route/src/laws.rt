//! Laws of what the MPE route writes. The functions do nothing: their contracts are what is stated.

ghost use Rattle.midi_model.specs.MusicLaws.{EventsSettle, NotesFade, NotesAge};
ghost use Rattle.midi_model.specs.ReceiverLaws.{OneNoteSoundsOnAKey};
ghost use Rattle.retune_model.specs.FaultLaws.{OnlyZoneEntriesAskForZones, SoundPortsAreAimed, FaultlessPorts};
ghost use Rattle.retune_model.specs.FrontLaws.{EventOfNext, FrontIsFaultless};
ghost use Rattle.retune_model.specs.PortLaws.{MusicAtAPosition, PortsAreTimed};
ghost use Rattle.retune_model.specs.RestLaws.{OneRunBegins, HeldWasThere, SoundingIsHeld, HeldOrBegun, BegunIsThere, ResetsEndAll, PartsWithin};
ghost use Rattle.channel_model.specs.Laws.{ShortestMemberIsFree};
ghost use Rattle.plan_laws.specs.Counting.{NextIsTaken, MusicIsTaken, BegunIsOfEvent, EventIsAimed};
ghost use Rattle.plan_laws.specs.EventLaws.{ResetIsOfEvent, EventsGoOn};
ghost use Rattle.mpe_laws.specs.FileLaws.{PortsFollow, PortsAreTheirEvents, MembersAreLeft, PlansServe};
ghost use Rattle.mpe_route.specs.Laws.{ZonedPlaysTheSame, ZonedFilePlaysTheSame, ZonedIsPlayable, ZonedIsOnZones, ZonedAddsFewBytes};

use channel_model::best_is_free;
use midi_model::{music_laws, receiver_laws};
use mpe_laws::{mpe_plays_the_same, plans_serve};
use plan_laws::{counting_laws, event_laws, taken_laws};
use retune_model::{
    elsewhere, front_faults, held_laws, next_laws, part_alone, position_laws, rests_are_runs,
    sound_sources, zone_entries_set_zones,
};

/// For a source without a fault that isn't refused, with the plan that is built of it: what the MPE route writes
/// plays the same on every port: the same notes, each within half a step of a bend and a thousandth of a cent of its
/// source pitch, right from its beginning; all other events and kept drums are passed on. It can be written as a
/// file like its source, each event with at most 1,600 bytes beside its own, and speaks to no channel of a port but
/// masters and members of its zones, kept drums aside.
pub fn zoned_plays_the_same()
    ensures same { ZonedPlaysTheSame }
    ensures file { ZonedFilePlaysTheSame }
    ensures playable { ZonedIsPlayable }
    ensures on_zones { ZonedIsOnZones }
    ensures few_bytes { ZonedAddsFewBytes }
{
    mpe_plays_the_same();
    plans_serve();
}

/// The laws of music, of notes, pairs and ports, and of the output, by which the route goes through a source.
pub(crate) fn passing_laws()
    ensures settled { EventsSettle }
    ensures fade { NotesFade }
    ensures age { NotesAge }
    ensures one_note { OneNoteSoundsOnAKey }
    ensures zones { OnlyZoneEntriesAskForZones }
    ensures within { HeldWasThere }
    ensures sounding { SoundingIsHeld }
    ensures next { HeldOrBegun }
    ensures begun { BegunIsThere }
    ensures one_begins { OneRunBegins }
    ensures reset { ResetsEndAll }
    ensures aimed { SoundPortsAreAimed }
    ensures fine { FaultlessPorts }
    ensures timed { PortsAreTimed }
    ensures music { MusicAtAPosition }
    ensures parts { PartsWithin }
    ensures free { ShortestMemberIsFree }
    ensures event { EventOfNext }
    ensures faultless { FrontIsFaultless }
    ensures taken { NextIsTaken }
    ensures music_taken { MusicIsTaken }
    ensures of_event { BegunIsOfEvent }
    ensures event_aimed { EventIsAimed }
    ensures resets { ResetIsOfEvent }
    ensures events { EventsGoOn }
    ensures follows { PortsFollow }
    ensures source { PortsAreTheirEvents }
    ensures left { MembersAreLeft }
    ensures serve { PlansServe }
{
    music_laws();
    receiver_laws();
    zone_entries_set_zones();
    held_laws();
    rests_are_runs();
    elsewhere();
    sound_sources();
    position_laws();
    part_alone();
    best_is_free();
    next_laws();
    front_faults();
    taken_laws();
    counting_laws();
    event_laws();
    mpe_plays_the_same();
    plans_serve();
}
