use key_pitch::Aim;
use mt_base::Pair;
use receiver::Ends;

/// A retuned note that begins.
#[derive(Clone, Copy, Debug, PartialEq, Eq)]
pub struct Begun {
    /// Its place among the retuned notes of all ports, in the order of their note ons, from 1.
    pub note: u32,
    /// Its part, and the steps of its target; on dump and live 0.
    pub pair: Pair,
    /// The source key, 0 to 127.
    pub key: u8,
    /// What a device is to be told of the key.
    pub target: Aim,
}

/// What an event did to the retuned notes of its port.
#[derive(Clone, Copy, Debug)]
pub struct Change {
    /// The note that it began.
    pub begun: Option<Begun>,
    /// The notes that ended by it, by source channel and source key.
    pub ended: Ends,
    /// The port of the event.
    pub port: u8,
}
