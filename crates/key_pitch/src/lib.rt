//! The pitch that a scale gives to each key, and the nearest pitch that a device can be told of.
#![tactic(auto)]

mod aim;
mod aims;
mod by_tick;
mod fault;
mod keys;
mod laws;
mod nearest;
mod sum;
mod table;

pub use aim::Aim;
pub use aims::Aims;
pub use by_tick::TablesByTick;
pub use fault::TuneFault;
pub use laws::{in_force_examples, in_force_laws};
pub use table::KeyTable;

#[cfg(test)]
mod tests;
