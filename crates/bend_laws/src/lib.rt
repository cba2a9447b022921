//! What the bend route writes plays the same: laws alone. The functions do nothing: their contracts are what is stated.
#![tactic(auto)]

mod files;
mod follows;

pub use files::bend_plays_the_same;
pub use follows::bend_follows;
