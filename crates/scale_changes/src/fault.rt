ghost use Rattle.std.specs.Prelude.{◌≡◌};
ghost use Rattle.scale_changes.specs.Kinds.{kind_number};
ghost use Rattle.scale_changes.specs.declared.fault.ListFault.TheVariants as faults;

use std::alloc::AllocFailed;
use thiserror::Error;

/// What is wrong with a line of a list of scale changes.
#[derive(Clone, Copy, Debug, PartialEq, Eq)]
pub enum ListKind {
    /// No digit stands behind the blanks, or the tick isn't 1 to 268,435,455.
    BadTick,
    /// The tick isn't above that of the line before.
    TickOrder,
    /// What stands behind the digits isn't blanks, a name and blanks alone.
    BadName,
    /// Sixteen lines were taken before.
    TooMany,
}

impl ListKind {
    /// The number of the kind, 1 to 4 in the order above.
    pub fn number(self) -> u8
        ensures { result ≡ kind_number self }
    {
        match self {
            ListKind::BadTick => 1,
            ListKind::TickOrder => 2,
            ListKind::BadName => 3,
            ListKind::TooMany => 4,
        }
    }
}

/// Why a list could not be read: its first line that can't be taken, counted from 1, with the first
/// kind that holds there, or want of memory.
#[derive(Debug, Drop, Error)]
pub enum ListFault {
    #[error("the list of scale changes has a fault")]
    At { line: u32, kind: ListKind },
    #[error("out of memory")]
    Memory,
}

impl<T: Drop> From<AllocFailed<T>> for ListFault {
    ghost from_gives = { λ _ e. e ≡ faults.Memory };

    fn from(_failed: AllocFailed<T>) -> ListFault {
        ListFault::Memory
    }
}
