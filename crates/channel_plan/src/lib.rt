//! Which channel each note of a source is given: as few channels on a port as there are ever pairs of a part
//! and a bend at once, or why a source needs more than there may be.
#![tactic(auto)]

mod build;
mod choice;
mod counter;
mod fault;
mod giving;
mod layout;
mod needs;
mod places;
mod plan;
mod planning;
mod refusing;
mod rowed;
mod rowing;
mod rows;
mod serving;
mod staying;
mod survey;
mod tallies;
mod tally;
#[cfg(test)]
mod tests;

pub use fault::{Instant, PlanFault, TooMany};
pub use layout::Layout;
pub use plan::{Plan, Zone};
