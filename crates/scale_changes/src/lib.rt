//! Lists of scale changes: which scale a note has from which tick on.
#![tactic(auto)]

mod changes;
mod fault;
mod laws;
mod line;
mod list;

pub use changes::Changes;
pub use fault::{ListFault, ListKind};
pub use laws::one_answer;
pub use list::read_list;

#[cfg(test)]
mod tests;
