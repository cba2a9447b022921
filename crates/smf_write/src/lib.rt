//! Writing a Standard MIDI File: tracks as text, and a file of them.
#![tactic(auto)]

mod event;
mod file;
mod laws;
mod text;

pub use file::finish;
pub use laws::written_is_read;
pub use text::TrackText;

#[cfg(test)]
mod tests;
