ghost use Rattle.std.specs.Prelude.{◌≡◌};
ghost use Rattle.kbm_text.specs.Kinds.{kind_number};
ghost use Rattle.kbm_text.specs.declared.fault.KbmFault.TheVariants as faults;

use std::alloc::AllocFailed;
use thiserror::Error;

/// What is wrong with a line of a mapping text.
#[derive(Clone, Copy, Debug, PartialEq, Eq)]
pub enum KbmKind {
    /// There are fewer than seven lines that aren't comments.
    MissingField,
    /// A field that is a number has no digit behind its blanks.
    BadNumber,
    /// The size is above 4,096.
    SizeRange,
    /// A key is above 127, or the last key is below the first.
    KeyRange,
    /// The frequency isn't a number with at most one period, or isn't above 0 and at most
    /// 1,000,000 Hz.
    BadFrequency,
    /// An entry is neither a number nor x.
    BadEntry,
    /// The octave's degree or an entry is above 16,383.
    DegreeRange,
}

impl KbmKind {
    /// The number of the kind, 1 to 7 in the order above.
    pub fn number(self) -> u8
        ensures { result ≡ kind_number self }
    {
        match self {
            KbmKind::MissingField => 1,
            KbmKind::BadNumber => 2,
            KbmKind::SizeRange => 3,
            KbmKind::KeyRange => 4,
            KbmKind::BadFrequency => 5,
            KbmKind::BadEntry => 6,
            KbmKind::DegreeRange => 7,
        }
    }
}

/// Why a mapping text could not be read: its first fault, with its line, counted from 1, or want of
/// memory.
#[derive(Debug, Drop, Error)]
pub enum KbmFault {
    #[error("the mapping text has a fault")]
    At { line: u32, kind: KbmKind },
    #[error("out of memory")]
    Memory,
}

impl<T: Drop> From<AllocFailed<T>> for KbmFault {
    ghost from_gives = { λ _ e. e ≡ faults.Memory };

    fn from(_failed: AllocFailed<T>) -> KbmFault {
        KbmFault::Memory
    }
}
