//! What a file of MIDI events is, and what a receiver does with it: definitions alone.
#![tactic(auto)]

mod bytes;
mod fault;
mod music;
mod numbers;
mod order;
mod params;
mod reading;
mod receiver;
mod text;
mod worked;
mod writing;

pub use bytes::size_laws;
pub use fault::{SmfKind, Stop};
pub use music::music_laws;
pub use numbers::{
    END_OF_TRACK, LAST_TICK, META, MOST_BYTES, MOST_EVENTS, MOST_TRACKS, MTHD, MTRK,
};
pub use order::{merged_example, merged_order};
pub use params::parameter_laws;
pub use reading::reading_laws;
pub use receiver::{
    bring_examples, controller_examples, music_hears_no_tuning, pedal_examples, receiver_laws,
    reset_examples, silent_at_first, tuning_examples, zone_examples,
};
pub use text::file_laws;
pub use worked::file_examples;
pub use writing::writing_laws;
