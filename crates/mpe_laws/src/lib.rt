//! What the MPE route writes plays the same: laws alone. The functions do nothing: their contracts are what is
//! stated.
#![tactic(auto)]

mod files;
mod follows;

pub use files::{mpe_plays_the_same, plans_serve};
pub use follows::{mpe_follows, zones_are_set_up};
