//! What the program asks of the outside: the trait `Files`, and files in memory. And a large valid file from a number.
#![tactic(auto)]

mod chords;
mod counts;
mod files;
mod mem;
mod which;
mod worked;

pub use chords::{MOST_CHORDS, sample};
pub use counts::Counts;
pub use files::{Files, LoadFault, SayFailed, StoreFailed};
pub use mem::MemFiles;
pub use which::Which;
pub use worked::{sample_examples, sample_laws};

#[cfg(test)]
mod tests;
