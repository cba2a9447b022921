//! The notes of a source that are retuned, from their begin to their end and for a while after it:
//! which of them sound, which pairs of a part and a bend they are, and what a source may not hold.
#![tactic(auto)]

mod asking;
mod bends;
mod change;
mod ending;
mod entry;
mod fault;
mod noted;
mod notes;
mod options;
mod parts;
mod port;
mod port_faults;
mod rests;
mod source;
mod step;
#[cfg(test)]
mod tests;
mod tracks;
mod wanted;

pub use change::{Begun, Change};
pub use fault::{SourceFault, SourceKind, StepFault};
pub use noted::Noted;
pub use options::{Options, Route};
pub use parts::Parts;
pub use tracks::Tracks;
