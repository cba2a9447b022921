/// What a controller does to the notes that it reaches.
#[derive(Clone, Copy, Debug, PartialEq, Eq)]
pub(crate) enum Turn {
    /// All notes end.
    SoundOff,
    /// All keys go up.
    NotesOff,
    /// The sostenuto pedal goes down.
    Capture,
    /// It goes up.
    Free,
}
