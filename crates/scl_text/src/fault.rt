ghost use Rattle.std.specs.Prelude.{◌≡◌};
ghost use Rattle.scl_text.specs.Kinds.{kind_number};
ghost use Rattle.scl_text.specs.declared.fault.SclFault.TheVariants as faults;

use std::alloc::AllocFailed;
use thiserror::Error;

/// What is wrong with a line of a scale text.
#[derive(Clone, Copy, Debug, PartialEq, Eq)]
pub enum SclKind {
    /// There is no first line.
    NoDescription,
    /// There is no second line.
    NoCount,
    /// The second line has no digit behind its blanks.
    BadCount,
    /// The count isn't 1 to 4,096.
    CountRange,
    /// A pitch line has none of the three forms.
    BadPitch,
    /// A ratio has a minus sign.
    NegativeRatio,
    /// A number of a ratio is 0.
    ZeroRatio,
    /// A number of a ratio is above 2^63 - 1, or the whole part of cents is above 1,000,000.
    BigNumber,
    /// There are fewer pitch lines than the count says.
    MissingPitch,
}

impl SclKind {
    /// The number of the kind, 1 to 9 in the order above.
    pub fn number(self) -> u8
        ensures { result ≡ kind_number self }
    {
        match self {
            SclKind::NoDescription => 1,
            SclKind::NoCount => 2,
            SclKind::BadCount => 3,
            SclKind::CountRange => 4,
            SclKind::BadPitch => 5,
            SclKind::NegativeRatio => 6,
            SclKind::ZeroRatio => 7,
            SclKind::BigNumber => 8,
            SclKind::MissingPitch => 9,
        }
    }
}

/// Why a scale text could not be read: its first fault, with its line, counted from 1, or want of
/// memory.
#[derive(Debug, Drop, Error)]
pub enum SclFault {
    #[error("the scale text has a fault")]
    At { line: u32, kind: SclKind },
    #[error("out of memory")]
    Memory,
}

impl<T: Drop> From<AllocFailed<T>> for SclFault {
    ghost from_gives = { λ _ e. e ≡ faults.Memory };

    fn from(_failed: AllocFailed<T>) -> SclFault {
        SclFault::Memory
    }
}
