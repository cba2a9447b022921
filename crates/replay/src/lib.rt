//! Bringing a channel from one state to another: the messages that do so, and how many they are. Nothing
//! here takes memory.
#![tactic(auto)]

mod params;
mod sink;
mod tables;
#[cfg(test)]
mod tests;
mod writing;

pub use writing::{bring, bring_length, bring_length_within};
