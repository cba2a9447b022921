//! Laws of faults. The functions do nothing: their contracts are what is stated.

ghost use Rattle.retune_model.specs.FaultLaws.{OnlyZoneEntriesAskForZones, NoFirstNoFault, NoFaultNoFirst, FirstIsOfAnEvent, FirstIsFound, FaultsArePlaced, LeastIsKept, NoneIsBeyond, SoundPortsAreAimed, FaultlessPorts, PortsAreFaultless, FaultlessBreakNoPorts, OnePortBreaksNone, OnePortIsFaultless};
ghost use Rattle.retune_model.specs.Drums.{DrumsStandApart, DrumsTuneNoOther};

use crate::ports::position_laws;
use midi_model::music_laws;

/// No message asks for a zone but data entry of a zone's size on a part.
pub fn zone_entries_set_zones()
    ensures { OnlyZoneEntriesAskForZones }
{}

/// There is no first fault exactly where no event has a fault; else it is the fault of the first event that has one, with that
/// event's position, tick and track.
pub fn fault_laws()
    ensures none { NoFirstNoFault }
    ensures faultless { NoFaultNoFirst }
    ensures some { FirstIsOfAnEvent }
    ensures first { FirstIsFound }
    ensures placed { FaultsArePlaced }
{}

/// The steps that a fault keeps are the least of a pair of the part that go too far with the part's bend; where none are found, all
/// pairs of the part are within a bend.
pub fn beyond_laws()
    ensures some { LeastIsKept }
    ensures none { NoneIsBeyond }
{}

/// What the laws of rests ask of the events of a port, a source without a fault has on every port. No event has a fault exactly where
/// none has one by the music of its port and none breaks the rules of ports. None breaks them where only the first port is named; there
/// the music of the port is that of all events so far.
pub fn sound_sources()
    ensures aimed { SoundPortsAreAimed }
    ensures fine { FaultlessPorts }
    ensures faultless { PortsAreFaultless }
    ensures ports { FaultlessBreakNoPorts }
    ensures one_port { OnePortBreaksNone }
    ensures in_turn { OnePortIsFaultless }
{
    position_laws();
}

/// Leaving out the messages of drums changes nothing on the other channels: not their states, zones, notes or tunings. So what a
/// source's kept drums say need not be looked at.
pub fn drums_stand_apart()
    ensures music { DrumsStandApart }
    ensures tuning { DrumsTuneNoOther }
{
    music_laws();
}
