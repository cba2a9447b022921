//! The command: what its words ask for, done over any `Files`.
#![tactic(auto)]

mod accepted;
mod audited;
mod call;
mod counting;
mod laws;
mod lines;
mod loading;
mod made;
mod outcome;
mod plain;
mod planned;
mod preparing;
mod reading;
mod reporting;
mod retuning;
mod survey;
mod table;

pub use call::run;
pub use outcome::{Fault, Outcome};

#[cfg(test)]
mod tests;
