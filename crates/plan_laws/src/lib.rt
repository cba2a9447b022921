//! Laws of the places of a row of channels, which is what a plan is made by: position by position, over any
//! sequence of sets of pairs in which at most one pair's run begins at each position.
#![tactic(auto)]

mod counting;
mod events;
mod places;
mod runs;

pub use counting::{counting_laws, taken_laws};
pub use events::event_laws;
pub use places::{leaving_laws, placing_laws, row_laws};
pub use runs::run_counts;
