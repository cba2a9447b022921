use arrayvec::ArrayVec;
use lifetimes::SourceFault;
use mt_base::Pair;

/// A position of a source, with its tick: that of the event before it, 0 at the start.
#[derive(Clone, Copy, Debug, PartialEq, Eq)]
pub struct Instant {
    /// How many events came before.
    pub position: u32,
    pub tick: u32,
}

/// More channels are needed than there may be.
#[derive(Debug, Drop)]
pub struct TooMany {
    pub port: u8,
    /// What the port needs, or on MPE one of its zones.
    pub need: u32,
    /// How many channels, or members of the zone, there may be, at most 16.
    pub allowed: u32,
    /// The first position at which so many pairs sound or rest.
    pub instant: Instant,
    /// One pair more than is allowed, the first at the instant by part and then by steps.
    pub pairs: ArrayVec<Pair, 17>,
}

/// Why a source gets no plan.
#[derive(Debug, Drop)]
pub enum PlanFault {
    /// The first event with a source fault.
    Source(SourceFault),
    /// More than two parts of a port have a note on, which is more than MPE has zones.
    TooManyParts { port: u8, parts: u8 },
    TooManyChannels(TooMany),
    Memory,
}
