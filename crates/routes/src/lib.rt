//! The dump and live routes: the source's events are passed on as they are, and the tuning of a
//! device is set around them (MIDI Tuning Standard), port by port.
#![tactic(auto)]

mod device;
mod kept;
mod laws;
mod putting;
mod translating;

pub use kept::{is_message, resets};
pub use laws::{
    puts_are_dealt, routed_bytes, routed_is_playable, routed_is_short, routed_plays_the_same,
};
pub use putting::{put_messages, put_sysex};
pub use translating::{is_again, is_first, translate};
