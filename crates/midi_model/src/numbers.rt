//! The numbers of the Standard MIDI File 1.0, and the limits of the files that are taken (this project's own).

/// `MThd`, the type of the header chunk, as a big-endian number.
pub const MTHD: u32 = 0x4d54_6864;

/// `MTrk`, the type of a track chunk, as a big-endian number.
pub const MTRK: u32 = 0x4d54_726b;

/// The status byte of a meta event.
pub const META: u8 = 0xff;

/// The type of the meta event that ends a track.
pub const END_OF_TRACK: u8 = 0x2f;

/// The last tick that an event may have.
pub const LAST_TICK: u32 = 268_435_455;

/// The most tracks that a file may have.
pub const MOST_TRACKS: u16 = 1024;

/// The most bytes that a file may have.
pub const MOST_BYTES: usize = 4_194_304;

/// The most events that a file of so many bytes may have: each takes two bytes at least.
pub const MOST_EVENTS: usize = 2_097_152;
