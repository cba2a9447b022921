//! That the outputs of the bend and MPE routes use the fewest channels: laws alone.
#![tactic(auto)]

mod laws;

pub use laws::{bent_uses_fewest, runs_use_fewest, zoned_uses_fewest};
