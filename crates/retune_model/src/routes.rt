//! Laws of the dump and live routes, which pass the source's events on as they are.

ghost use Rattle.std.specs.Prelude.{ℕ, List};
ghost use Rattle.std.specs.List.{AllByRecursion};
ghost use Rattle.mt_base.specs.Midi.{MidiEvent};
ghost use Rattle.mt_base.specs.Valid.{IsValidEvent};
ghost use Rattle.midi_model.specs.Merged.{IsPlayable};
ghost use Rattle.midi_model.specs.Order.{AreInOrder};
ghost use Rattle.retune_model.specs.OutputLaws.{BlocksPlayTheirSources, BlocksPlayWithin, DumpedMusicIsKept, DumpTunes, ToldMusicIsKept, LiveTunes, PortsAreByTheirRules, DumpedPorts, ToldPorts, DumpedOnePort, ToldOnePort, DumpPlaysTheSame, DumpedFilePlaysTheSame, LivePlaysTheSame, ToldFilePlaysTheSame};

use midi_model::music_laws;
use mt_base::laws::{exact, sums, wider};

/// Blocks whose groups aren't heard play the source's music: after each block, and within a block right after its source event.
pub fn blocks_play_the_source()
    ensures each { BlocksPlayTheirSources }
    ensures within { BlocksPlayWithin }
{
    music_laws();
}

/// What the dump route writes plays the source's music, and once a channel message came, its tuning is the dumped one.
pub fn dump_plays_the_source()
    ensures music { DumpedMusicIsKept }
    ensures tuning { DumpTunes }
{
    music_laws();
}

/// What the live route writes plays the source's music, and each key that it told has its value.
pub fn live_plays_the_source()
    ensures music { ToldMusicIsKept }
    ensures tuning { LiveTunes }
{
    music_laws();
}

/// Where each block stands beside its event, each port of an output is what the port's rule makes of the port's events. So on dump and
/// live it is the output for the port's events alone.
pub fn ports_apart()
    ensures blocks { PortsAreByTheirRules }
    ensures dump { DumpedPorts }
    ensures live { ToldPorts }
{}

/// Where no event names another port than the first, the output is the first port's.
pub fn one_port_alone()
    ensures dump { DumpedOnePort }
    ensures live { ToldOnePort }
{}

/// For a source without a fault and the dump of its table's targets, what the dump route writes plays the same: on every port and at
/// every tick the same notes, each within half a step of 1/16384 semitone and a thousandth of a cent of its source pitch, and right
/// from its beginning; all other events and kept drums are passed on.
pub fn dump_plays_the_same()
    ensures events { DumpPlaysTheSame }
    ensures file { DumpedFilePlaysTheSame }
{
    music_laws();
    sums();
    exact();
    wider();
}

/// The same for what the live route writes, with the bytes of a change of each key to its target.
pub fn live_plays_the_same()
    ensures events { LivePlaysTheSame }
    ensures file { ToldFilePlaysTheSame }
{
    music_laws();
    sums();
    exact();
    wider();
}

/// The events of a list that can be played come in the order of their ticks.
pub fn playable_in_order()
    ensures valid { (tracks : ℕ) (es : List MidiEvent) → IsPlayable tracks es → AllByRecursion IsValidEvent es }
    ensures ticks { (tracks : ℕ) (es : List MidiEvent) → IsPlayable tracks es → AreInOrder 0 es }
{}
