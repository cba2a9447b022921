//! Reading a Standard MIDI File. What is read keeps the file's bytes; events are decoded one by one.
#![tactic(auto)]

mod chunk;
mod cursor;
mod fault;
mod file;
mod reading;
mod short;
mod smf;
mod stop;

pub use cursor::Cursor;
pub use fault::SmfFault;
pub use file::read_smf;
pub use midi_model::SmfKind;
pub use smf::Smf;

#[cfg(test)]
mod tests;
