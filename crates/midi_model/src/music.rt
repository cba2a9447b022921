//! Laws of the music that a receiver plays. The function does nothing: its contract is what is stated.

ghost use Rattle.midi_model.specs.MusicLaws.{EventsSettle, NotesAge, NotesFade};

/// Where nothing is left to settle and there are sixteen channels, that is so after any event; and the notes then are those from
/// before and the one that the event begins, each with its channel, key, onset, velocity and voice, and none that had ended sounds.
/// An end stays as it was; a note without an end may have ended at the event's tick; the begun note stands as it begins.
pub fn music_laws()
    ensures settled { EventsSettle }
    ensures fade { NotesFade }
    ensures age { NotesAge }
{}
