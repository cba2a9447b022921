//! Laws of sizes. The function does nothing: its contract is what is stated.

ghost use Rattle.midi_model.specs.SizeLaws.{WrittenIsWithinMost, TrackIsWithinFile, EventsAreFew};

/// What is written of a track has no more bytes than its events take at most; the events of a track of a file take at most four
/// times as many bytes as the file has; and a file has at most half as many events as bytes.
pub fn size_laws()
    ensures written { WrittenIsWithinMost }
    ensures track { TrackIsWithinFile }
    ensures events { EventsAreFew }
{}
