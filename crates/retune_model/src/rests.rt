//! Laws of notes that sound or rest. The functions do nothing: their contracts are what is stated.

ghost use Rattle.retune_model.specs.RestLaws.{NotesHoldAsWritten, PairsAreHeldAsWritten, PairsAreOfNotes, OneRunBegins, NotesHoldUnbroken, HeldWasThere, SoundingIsHeld, HeldOrBegun, HeldNear, BegunIsThere, RestsRunOutElsewhere, ResetsEndAll, OnlySoundingHold, HeldIsThere, LastEndsTell, ResetsForgetEnds, EndsAreKept, PartsApart, PartsWithin};

use midi_model::music_laws;

/// In the words of the rules: a note holds exactly where it sounds or rests, and a pair is held at an event exactly where one of its
/// notes sounds before it, or rests before it and does not run out at it.
pub fn rests_as_written()
    ensures holds { NotesHoldAsWritten }
    ensures held { PairsAreHeldAsWritten }
{
    music_laws();
}

/// The premises of the laws of need and of runs hold for the pairs that sound or rest: at each position they are those of the notes
/// that hold, none twice; at most one run begins at a position; and each note holds without a gap from its note on.
pub fn rests_are_runs()
    ensures pairs { PairsAreOfNotes }
    ensures one_begins { OneRunBegins }
    ensures unbroken { NotesHoldUnbroken }
{
    music_laws();
}

/// What is held at an event held before it; what sounds before an event is held at it; and after an event there are no other pairs
/// than those that were held at it and the one that it begins, which is there. What is there is held at the event that leads
/// there, or at the next.
pub fn held_laws()
    ensures within { HeldWasThere }
    ensures sounding { SoundingIsHeld }
    ensures next { HeldOrBegun }
    ensures near { HeldNear }
    ensures begun { BegunIsThere }
{
    music_laws();
}

/// At an event of another port a pair's rest may run out, and nothing else changes; after a reset of the port no pair is there.
pub fn elsewhere()
    ensures other { RestsRunOutElsewhere }
    ensures reset { ResetsEndAll }
{
    music_laws();
}

/// Where notes don't rest, the pairs are those of the notes that sound, and held at an event are those that sound before it.
pub fn without_rests()
    ensures pairs { OnlySoundingHold }
    ensures held { HeldIsThere }
{
    music_laws();
}

/// A pair holds exactly where a note of it sounds or its last end is less than a tail ago. A reset forgets all last ends; another
/// event sets those of the pairs of which it ends a note, and no other.
pub fn last_ends()
    ensures holds { LastEndsTell }
    ensures reset { ResetsForgetEnds }
    ensures next { EndsAreKept }
{
    music_laws();
}

/// The pairs of one part, or of some of the parts, are those of their notes alone.
pub fn part_alone()
    ensures alone { PartsApart }
    ensures within { PartsWithin }
{
    music_laws();
}
