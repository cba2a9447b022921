use mt_base::Part;

/// A retuned note of a source.
#[derive(Clone, Copy, Debug, PartialEq, Eq)]
pub struct Played {
    /// The part that plays it.
    pub part: Part,
    /// The source key, 0 to 127.
    pub key: u8,
    /// The tick at which it begins, and the velocity of its note on.
    pub onset: u32,
    pub velocity: u8,
    /// The tick at which it ends. None where it never does.
    pub ended: Option<u32>,
}
