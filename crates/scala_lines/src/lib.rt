//! What the texts of the Scala file formats share: lines, comments, blanks, digits and numbers.
#![tactic(auto)]

mod characters;
pub mod laws;
mod lines;
mod numbers;
mod pieces;

pub use characters::{after_blanks, split_digits};
pub use lines::{Line, Lines, TEXT_LIMIT};
pub use numbers::{billionths, value_within};
