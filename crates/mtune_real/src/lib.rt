//! The program over the system: its files, its standard output, its words and its exit status.
#![tactic(auto)]

mod process;
mod reading;
mod real;
mod storing;
mod writing;

pub use process::answer;
pub use real::RealFiles;

#[cfg(test)]
mod tests;
