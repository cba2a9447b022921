//! The words of the command.
#![tactic(auto)]

mod building;
mod channels;
mod fault;
mod item;
mod laws;
mod numbers;
mod words;

pub use fault::WordsFault;
pub use laws::words_by_example;
pub use words::{Command, MapChoice, read_words};

#[cfg(test)]
mod tests;
