//! A receiver of MIDI events: what each channel's state is, what sounds and at what pitch, and what
//! ends. All sizes are fixed, and nothing here takes memory.
#![tactic(auto)]

mod acting;
mod asking;
mod ends;
mod entry;
mod keys;
mod narrow;
mod note;
mod notes;
mod others;
mod param;
mod pitch;
mod player;
mod playing;
mod receiver;
mod role;
mod state;
mod strokes;
mod taking;
#[cfg(test)]
mod tests;
mod tunings;
mod turn;
mod values;
mod zones;

pub use ends::Ends;
pub use narrow::is_wide;
pub use note::Note;
pub use param::Param;
pub use player::Player;
pub use receiver::Receiver;
pub use state::{ChannelState, Voice};
