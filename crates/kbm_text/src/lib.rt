//! Keyboard mapping texts of the Scala file format, read exactly.
#![tactic(auto)]

mod fault;
mod field;
mod laws;
mod mapping;
mod reading;

pub use fault::{KbmFault, KbmKind};
pub use laws::{cut_texts, one_answer, worked_texts};
pub use mapping::Mapping;
pub use reading::read_kbm;

#[cfg(test)]
mod tests;
