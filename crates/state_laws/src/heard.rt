//! What a receiver plays where a channel is brought to a state.

ghost use Rattle.state_laws.specs.HeardLaws.{Plays, LeavesTheOthers, LeavesTheSilent, EndsNone, SoundsNoMore, HasRoomOnTheWay, KeepsTheTuning, StaysSettled, Arrives, ArrivesUnderThePedals, ArrivesInSilence};
ghost use Rattle.state_laws.specs.Strokes.{ControlsStroke, ResetStrokes, StrokesAgree};

use midi_model::{music_laws, parameter_laws};

/// Where no zone is set and nothing is left to settle, the messages that bring a channel to a state change that channel alone.
/// What they do to the notes is one stroke of its two pedals, and the key pressures that differ: a channel on which no note
/// sounds keeps its notes, and where the pedals are as before no note ends. Where each key that is wanted pressed sounds, the
/// channel is at the wanted state then, the selection aside.
pub fn a_receiver_follows()
    ensures plays { Plays }
    ensures others { LeavesTheOthers }
    ensures silent { LeavesTheSilent }
    ensures none_ends { EndsNone }
    ensures no_more { SoundsNoMore }
    ensures room { HasRoomOnTheWay }
    ensures tuning { KeepsTheTuning }
    ensures settled { StaysSettled }
    ensures arrives { Arrives }
    ensures under_pedals { ArrivesUnderThePedals }
    ensures in_silence { ArrivesInSilence }
{
    parameter_laws();
    music_laws();
}

/// A single controller that is stored, and reset all controllers, act on the notes of their channel by one such stroke too; and
/// the same stroke leaves notes of two channels alike that were alike.
pub fn single_controllers_stroke()
    ensures stored { ControlsStroke }
    ensures reset { ResetStrokes }
    ensures agree { StrokesAgree }
{}
