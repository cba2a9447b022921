/// Which channels the notes of a source may be given.
#[derive(Clone, Copy, Debug, PartialEq, Eq)]
pub enum Layout {
    /// Each note keeps its own channel: the dump and live routes.
    Own,
    /// The channels of a mask, on each port: the bend route. Bit 0 is the first channel.
    Bend { allowed: u16 },
    /// The members of at most two zones on each port (MPE 1.0).
    Mpe,
}
