//! The bend route: each run of a pair of a part and a bend has a channel of its own on its port, which is
//! brought to what the pair needs before its first note.
#![tactic(auto)]

mod bending;
mod channels;
mod laws;
mod port;
mod sending;
#[cfg(test)]
mod tests;
mod translating;

pub use laws::bent_plays_the_same;
pub use translating::translate;
