//! The base types: channels, messages, events, pitches.
#![tactic(auto)]

mod channel;
mod event;
pub mod laws;
mod memory;
mod pair;
mod pitch;

pub use channel::Channel;
pub use event::{Event, Msg, What};
pub use memory::Memory;
pub use pair::{Pair, Part};
pub use pitch::{Bracket, Grain};
