//! Each retuned note of a source, from its onset to its end, and the line that a report has for it: where
//! it is played, and by how much its target is higher than the pitch that is meant.
#![tactic(auto)]

mod audit;
mod laws;
mod lines;
mod played;
#[cfg(test)]
mod tests;
mod text;

pub use audit::Audit;
pub use laws::{audit_examples, audit_laws, each_note_is_told};
pub use lines::push_audit;
pub use played::Played;
