//! Which channel each run of a pair gets, and what is written on it: definitions alone, with their laws.
#![tactic(auto)]

mod choice;
mod examples;
mod output;
mod refusals;

pub use choice::{best_is_free, free_laws, last_held, tested_choice};
pub use examples::{
    bent_examples, choice_examples, mpe_examples, port_examples, refusal_examples, zone_examples,
};
pub use output::outputs_apart;
pub use refusals::refusal_laws;
