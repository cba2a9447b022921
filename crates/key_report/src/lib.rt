//! What a report says of keys: what a device is told of each key in use, and by how much that is higher
//! than the pitch that is meant, in thousandths of a cent.
#![tactic(auto)]

mod keys;
mod laws;
mod range;
mod target;
#[cfg(test)]
mod tests;
mod text;

pub use keys::{KeyError, key_error, push_keys, with_error};
pub use laws::{error_examples, error_laws, key_laws, rounding_laws};
pub use range::ErrorRange;
pub use target::Target;
pub use text::{push_error, push_thousandths, push_whole};
