use crate::state::Voice;

/// A note that sounds.
#[derive(Clone, Copy, Debug, PartialEq, Eq)]
pub struct Note {
    /// Its place in the order of all note ons, from 1.
    pub number: u32,
    /// The tick of its note on.
    pub onset: u32,
    pub velocity: u8,
    /// The voice of the channel that its own is governed by, when it began.
    pub voice: Voice,
    /// The tick at which its key went up, and the velocity; none while the key is down.
    pub released: Option<(u32, u8)>,
    /// Whether the sostenuto pedal holds it.
    pub captured: bool,
}

/// What is kept of a note on a key. The release counts once the key is up.
#[derive(Clone, Copy, Debug, Default)]
pub(crate) struct Struck {
    pub number: u32,
    pub onset: u32,
    pub velocity: u8,
    pub voice: Voice,
    pub release: (u32, u8),
}
