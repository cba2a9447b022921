//! The MPE route (MPE 1.0, in this project's profile): each of at most two parts of a port has a zone. The
//! part's messages go to the master, each note to the member of its pair, which has the pair's bend; each
//! port's zones are set right before its first channel message and right behind each later reset.
#![tactic(auto)]

mod caused;
mod kept;
mod laws;
mod setup;
#[cfg(test)]
mod tests;
mod translating;
mod zones;

pub use laws::zoned_plays_the_same;
pub use translating::translate;
