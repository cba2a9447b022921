//! Messages of the MIDI Tuning Standard 1.0 and the resets of a synthesizer: written and read. The
//! bytes of a message are those after F0, with F7 at the end. Nothing here takes memory.
#![tactic(auto)]

mod laws;
mod pattern;
mod reading;
#[cfg(test)]
mod tests;
mod writing;

pub use laws::written_is_read;
pub use pattern::{is_reset, is_tuning};
pub use reading::{Tuning, read_tuning};
pub use writing::{dump, note_change, select};
