ghost use Rattle.std.specs.Prelude.{◌≡◌};
ghost use Rattle.smf_read.specs.declared.fault.Halt.TheVariants.{Memory};
ghost use Rattle.smf_read.specs.declared.fault.Halt.TheVariants as halts;

use midi_model::{SmfKind, Stop};
use std::alloc::{AllocError, AllocFailed};
use thiserror::Error;

/// Why reading inside stopped.
#[derive(Debug, Drop)]
pub enum Halt {
    Memory,
    At(Stop),
}

impl From<AllocError> for Halt {
    ghost from_gives = { λ _ e. e ≡ Memory };

    fn from(_error: AllocError) -> Halt {
        Halt::Memory
    }
}

impl<T: Drop> From<AllocFailed<T>> for Halt {
    ghost from_gives = { λ _ e. e ≡ Memory };

    fn from(_error: AllocFailed<T>) -> Halt {
        Halt::Memory
    }
}

impl From<Stop> for Halt {
    ghost from_gives = { λ s e. e ≡ halts.At s };

    fn from(stop: Stop) -> Halt {
        Halt::At(stop)
    }
}

/// Why a file was not read: its first fault, at an offset in bytes from the start of the file, or
/// want of memory.
#[derive(Debug, Drop, Error)]
pub enum SmfFault {
    #[error("the bytes are no Standard MIDI File that is taken")]
    At { offset: u32, kind: SmfKind },
    #[error("no memory")]
    Memory,
}
