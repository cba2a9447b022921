ghost use Rattle.std.specs.Prelude.{◌≡◌};
ghost use Rattle.mtune_core.specs.Status.{status_of};
ghost use Rattle.mtune_core.specs.Causes.{of_memory, of_words, of_scale, of_mapping, of_tuning, of_file, of_step, of_plan};

use channel_plan::{PlanFault, TooMany};
use command_line::WordsFault;
use kbm_text::{KbmFault, KbmKind};
use key_pitch::TuneFault;
use lifetimes::{SourceFault, StepFault};
use midi_model::SmfKind;
use mt_base::Memory;
use mtune_files::Which;
use scl_text::{SclFault, SclKind};
use smf_read::SmfFault;

/// How a call of `run` ended: status 0 without a fault, or the status of its fault.
#[derive(Debug, Drop)]
pub struct Outcome {
    pub status: u8,
    pub fault: Option<Fault>,
}

/// Why a call ended before all of its report was said. Nothing was stored before `Store`; at `Store` it isn't
/// known what the name of the output holds; at `Say` the output is stored.
#[derive(Debug, Drop)]
pub enum Fault {
    /// The words aren't those of the command: 1 where they aren't taken, 2 where a text isn't one of those
    /// listed, 3 where an option doesn't go with the rest.
    Usage { kind: u8 },
    /// A content could not be loaded.
    Load { which: Which },
    /// A content has more bytes than its limit.
    TooLong { which: Which },
    /// The first fault of the scale's text, at a line, counted from 1.
    Scl { line: u32, kind: SclKind },
    /// The first fault of the mapping's text, at a line, counted from 1.
    Kbm { line: u32, kind: KbmKind },
    /// The mapping gives no note of the scale to its reference key.
    ReferenceUnmapped { key: u8 },
    /// The pitch of a key, the least such one, is the product of more than 1,700 ratios.
    TooManyPeriods { key: u8 },
    /// The first fault of the input's bytes, at an offset, counted from 0.
    Smf { offset: u32, kind: SmfKind },
    /// What the input may not hold.
    Source(SourceFault),
    /// More parts of a port have notes than MPE has zones.
    TooManyParts { port: u8, parts: u8 },
    /// A port, or a zone of it, needs more channels than it may have.
    TooManyChannels(TooMany),
    /// The output could not be stored.
    Store,
    /// The report could not be said.
    Say,
    /// There was no memory for the work.
    Memory,
}

/// The exit status of a fault.
pub fn status(fault: &Fault) -> u8
    ensures { result ≡ status_of fault.now }
{
    match fault {
        Fault::Usage { .. } => 1,
        Fault::TooLong { .. }
        | Fault::Scl { .. }
        | Fault::Kbm { .. }
        | Fault::ReferenceUnmapped { .. }
        | Fault::TooManyPeriods { .. }
        | Fault::Smf { .. }
        | Fault::Source(_)
        | Fault::TooManyParts { .. }
        | Fault::TooManyChannels(_) => 2,
        Fault::Load { .. } | Fault::Store | Fault::Say => 3,
        Fault::Memory => 4,
    }
}

impl From<Memory> for Fault {
    ghost from_gives = { λ memory fault. fault ≡ of_memory };

    fn from(_memory: Memory) -> Fault {
        Fault::Memory
    }
}

impl From<WordsFault> for Fault {
    ghost from_gives = { λ fault given. given ≡ of_words fault };

    fn from(fault: WordsFault) -> Fault {
        match fault {
            WordsFault::Usage { kind } => Fault::Usage { kind },
            WordsFault::Memory => Fault::Memory,
        }
    }
}

impl From<SclFault> for Fault {
    ghost from_gives = { λ fault given. given ≡ of_scale fault };

    fn from(fault: SclFault) -> Fault {
        match fault {
            SclFault::At { line, kind } => Fault::Scl { line, kind },
            SclFault::Memory => Fault::Memory,
        }
    }
}

impl From<KbmFault> for Fault {
    ghost from_gives = { λ fault given. given ≡ of_mapping fault };

    fn from(fault: KbmFault) -> Fault {
        match fault {
            KbmFault::At { line, kind } => Fault::Kbm { line, kind },
            KbmFault::Memory => Fault::Memory,
        }
    }
}

impl From<TuneFault> for Fault {
    ghost from_gives = { λ fault given. given ≡ of_tuning fault };

    fn from(fault: TuneFault) -> Fault {
        match fault {
            TuneFault::ReferenceUnmapped { key } => Fault::ReferenceUnmapped { key },
            TuneFault::TooManyPeriods { key } => Fault::TooManyPeriods { key },
        }
    }
}

impl From<SmfFault> for Fault {
    ghost from_gives = { λ fault given. given ≡ of_file fault };

    fn from(fault: SmfFault) -> Fault {
        match fault {
            SmfFault::At { offset, kind } => Fault::Smf { offset, kind },
            SmfFault::Memory => Fault::Memory,
        }
    }
}

impl From<StepFault> for Fault {
    ghost from_gives = { λ fault given. given ≡ of_step fault };

    fn from(fault: StepFault) -> Fault {
        match fault {
            StepFault::Source(fault) => Fault::Source(fault),
            StepFault::Memory => Fault::Memory,
        }
    }
}

impl From<PlanFault> for Fault {
    ghost from_gives = { λ fault given. given ≡ of_plan fault };

    fn from(fault: PlanFault) -> Fault {
        match fault {
            PlanFault::Source(fault) => Fault::Source(fault),
            PlanFault::TooManyParts { port, parts } => Fault::TooManyParts { port, parts },
            PlanFault::TooManyChannels(fault) => Fault::TooManyChannels(fault),
            PlanFault::Memory => Fault::Memory,
        }
    }
}
