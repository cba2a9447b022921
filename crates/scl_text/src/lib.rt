//! Scale texts of the Scala file format, read exactly.
#![tactic(auto)]

mod entry;
mod fault;
mod laws;
mod pitch;
mod reading;
mod scale;

pub use entry::Entry;
pub use fault::{SclFault, SclKind};
pub use laws::{bad_pitch, cut_texts, one_answer, worked_texts};
pub use reading::read_scl;
pub use scale::Scale;

#[cfg(test)]
mod tests;
