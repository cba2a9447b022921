//! Laws of reading a file from left to right. The function does nothing: its contract is what is stated.

ghost use Rattle.midi_model.specs.ReadingLaws.{ContentByChunks, TrackByEvents, EventTakesTwoBytes, FirstTickByDelta, ContentIsATrack, TrackIsWhole, EventsAreFew};

/// A file's tracks are read chunk by chunk, and a track event by event, each of which takes at least two bytes; the first event's
/// tick is known by its delta; and what is read without a fault is a track that can be played.
pub fn reading_laws()
    ensures chunks { ContentByChunks }
    ensures events { TrackByEvents }
    ensures two_bytes { EventTakesTwoBytes }
    ensures first_tick { FirstTickByDelta }
    ensures track { ContentIsATrack }
    ensures whole { TrackIsWhole }
    ensures few { EventsAreFew }
{}
