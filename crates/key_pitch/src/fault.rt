/// Why a scale and a mapping give no pitches: the reference key is left out of the map, or a key is so
/// far from it that its pitch is a sum of more than 1,700 ratios.
#[derive(Clone, Copy, Debug, PartialEq, Eq)]
pub enum TuneFault {
    ReferenceUnmapped { key: u8 },
    TooManyPeriods { key: u8 },
}
