//! Octave tuning by the MIDI Tuning Standard 1.0: the values of the twelve classes of keys, and the
//! message of two bytes a value, not in real time, that sets them, written and read; and the octave
//! route, which passes the source's events on as they are and sets the tuning around them, port by port.
//! The bytes of a message are those after F0, with F7 at the end.
#![tactic(auto)]

mod fitting;
mod laws;
mod messages;
#[cfg(test)]
mod tests;
mod translating;

pub use fitting::{OctaveFault, classes};
pub use laws::{
    class_laws, octave_examples, octaved_is_playable, octaved_is_short, octaved_plays_the_same,
    written_is_read,
};
pub use messages::{message, read_octave};
pub use translating::translate;
