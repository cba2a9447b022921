ghost use Rattle.std.specs.Prelude.{◌≡◌, pos};

use crate::channel::Channel;

/// A part: a channel of the source on one of its ports.
#[derive(Clone, Copy, Debug, PartialEq, Eq, PartialOrd, Ord)]
pub struct Part {
    pub port: u8,
    pub channel: Channel,
}

impl Default for Part {
    /// The first channel of the first port.
    fn default() -> Part
        ensures port { result.port ≡ 0 }
        ensures channel { result.channel ≡ 0 }
    {
        Part {
            port: 0,
            channel: Channel::default(),
        }
    }
}

/// A part with a whole number of bend steps.
#[derive(Clone, Copy, Debug, PartialEq, Eq, PartialOrd, Ord)]
pub struct Pair {
    pub part: Part,
    pub steps: i32,
}

impl Default for Pair {
    /// The first part without a bend.
    fn default() -> Pair
        ensures part { result.part ≡ record { port = 0; channel = 0 } }
        ensures steps { result.steps ≡ pos 0 }
    {
        Pair {
            part: Part::default(),
            steps: 0,
        }
    }
}
