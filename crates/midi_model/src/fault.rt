/// What is wrong with the bytes of a Standard MIDI File, numbered 1 to 13 in this order.
#[derive(Clone, Copy, Debug, PartialEq, Eq)]
pub enum SmfKind {
    NotMidi,
    BadHeader,
    Format2,
    FormatNumber,
    Truncated,
    MissingTrack,
    BadDelta,
    NoStatus,
    BadStatus,
    BadData,
    MissingEnd,
    TrackTooLong,
    TooManyTracks,
}

/// The first fault from the left: its kind, and how many bytes are left where it stands.
#[derive(Clone, Copy, Debug, PartialEq, Eq)]
pub struct Stop {
    pub left: usize,
    pub kind: SmfKind,
}

impl SmfKind {
    ghost use Rattle.std.specs.Prelude.{◌≡◌, ◌≤◌};
    ghost use Rattle.midi_model.specs.Kinds.{kind_number};

    /// Its number, 1 to 13.
    pub fn number(self) -> u8
        ensures value { result ≡ kind_number self }
        ensures least { 1 ≤ result }
        ensures most { result ≤ 13 }
    {
        match self {
            SmfKind::NotMidi => 1,
            SmfKind::BadHeader => 2,
            SmfKind::Format2 => 3,
            SmfKind::FormatNumber => 4,
            SmfKind::Truncated => 5,
            SmfKind::MissingTrack => 6,
            SmfKind::BadDelta => 7,
            SmfKind::NoStatus => 8,
            SmfKind::BadStatus => 9,
            SmfKind::BadData => 10,
            SmfKind::MissingEnd => 11,
            SmfKind::TrackTooLong => 12,
            SmfKind::TooManyTracks => 13,
        }
    }
}
