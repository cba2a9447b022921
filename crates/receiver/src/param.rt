ghost use Rattle.std.specs.Prelude.{◌≡◌, ◌<◌, ◌≤◌, ◌^◌};
ghost use Rattle.midi_model.specs.Params.{rank, default_value, pair_eq, rpn};
ghost use Rattle.receiver.specs.Kept.{is_apart};
ghost use Rattle.receiver.specs.Params.{numbered, parameter_of};

/// A registered (RPN) or non-registered (NRPN) parameter by its number's MSB and LSB, and its
/// value: the MSB and the LSB of data entry.
#[derive(Clone, Copy, Debug, Default)]
pub struct Param {
    pub registered: bool,
    pub high: u8,
    pub low: u8,
    pub value: (u8, u8),
}

/// Where a parameter stands in the order of all: registered ones first, then by MSB and LSB.
pub(crate) fn rank_of(registered: bool, high: u8, low: u8) -> u16
    ensures { result ≡ rank (numbered registered high low) }
{
    let number = 128 * u16::from(high) + u16::from(low);
    if registered { number } else { 16384 + number }
}

/// The value that a parameter has at the start, by its kind and the MSB and LSB of its number.
pub(crate) fn default_of(registered: bool, high: u8, low: u8) -> (u8, u8)
    ensures { result ≡ default_value (numbered registered high low) }
{
    match rank_of(registered, high, low) {
        0 => (2, 0),
        5 => (0, 64),
        _ => (64, 0),
    }
}

/// Whether a parameter is one of those that are kept apart: RPN 0, 1, 2 and 5.
pub(crate) fn is_kept_apart(rank: u16) -> bool
    ensures { result ≡ is_apart rank }
{
    rank == 0 || rank == 1 || rank == 2 || rank == 5
}

impl Param {
    /// The registered parameter of this LSB, its MSB being 0, with a value.
    pub(crate) fn registered(low: u8, value: (u8, u8)) -> Param
        ensures parameter { parameter_of result ≡ rpn low }
        ensures value { result.value ≡ value }
    {
        Param {
            registered: true,
            high: 0,
            low,
            value,
        }
    }

    /// Its place in the order of all parameters.
    pub(crate) fn rank(&self) -> u16
        ensures { result ≡ rank (parameter_of self.now) }
    {
        rank_of(self.registered, self.high, self.low)
    }

    /// The value that the parameter has at the start, whatever its value is here.
    pub fn default_value(&self) -> (u8, u8)
        ensures { result ≡ default_value (parameter_of self.now) }
    {
        default_of(self.registered, self.high, self.low)
    }

    /// Whether its value is the one that it has at the start.
    pub(crate) fn is_default(&self) -> bool
        ensures { result ≡ pair_eq self.now.value (default_value (parameter_of self.now)) }
    {
        let start = self.default_value();
        self.value.0 == start.0 && self.value.1 == start.1
    }
}
