//! Streams of events: lists, tracks, all tracks of a file merged, and the tracks that events are put into.
#![tactic(auto)]

mod cursor;
mod laws;
mod least;
mod list;
mod merge;
mod stream;
mod tracks;

pub use laws::{distribution, playable_is_put, put_is_dealt};
pub use list::ListStream;
pub use merge::Merge;
pub use stream::EventStream;
pub use tracks::TrackSet;

#[cfg(test)]
mod tests;
