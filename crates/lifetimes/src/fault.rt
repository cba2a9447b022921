ghost use Rattle.std.specs.Prelude.{◌≡◌};
ghost use Rattle.lifetimes.specs.Causes.{wanting};

use mt_base::Memory;

/// What a source may not hold, numbered 1 to 12 in this order. A note on with velocity 0 isn't a
/// note on here. Kinds 1 to 6, 8 and 10 to 12 speak of retuned parts alone.
#[derive(Clone, Copy, Debug, PartialEq, Eq)]
pub enum SourceKind {
    /// A note on whose key has no pitch.
    UnmappedKey,
    /// A note on whose target is out of the device.
    KeyOutOfDevice,
    /// Bend and MPE: a note on whose part has a sounding note with the same target and another key.
    Unison,
    /// Bend: a pair of the part that sounds or rests has steps that together with those of the
    /// part's bend, `moved`, are outside -8,192 to 8,191. The least such steps are told.
    BendTooFar { steps: i32, moved: i32 },
    /// Controller 125 or 126: omni on, or mono.
    ModeMessage,
    /// Controller 96 or 97: data increment or decrement.
    DataStep,
    /// A message of the MIDI Tuning Standard, or data entry of its parameters, RPN 3 and 4.
    TuningInSource,
    /// Data entry of the size of a zone, RPN 6 (MPE 1.0).
    MpeSource,
    /// A track goes on to another port, or a fifth port has a channel message.
    Port,
    /// More than 16 parameters of a part aren't at their defaults.
    TooManyParameters,
    /// MPE: key pressure.
    PolyInMpe,
    /// Bend and MPE: a note on of a key that sounds with another target.
    Restrike,
}

/// The least kind whose condition holds at an event, with the event's position, counted from 1,
/// its tick and its track.
#[derive(Clone, Copy, Debug, PartialEq, Eq)]
pub struct SourceFault {
    pub position: u32,
    pub tick: u32,
    pub track: u16,
    pub kind: SourceKind,
}

/// Why an event isn't taken.
#[derive(Clone, Copy, Debug, PartialEq, Eq)]
pub enum StepFault {
    Source(SourceFault),
    Memory,
}

impl From<Memory> for StepFault {
    ghost from_gives = { λ memory fault. fault ≡ wanting };

    fn from(_memory: Memory) -> StepFault {
        StepFault::Memory
    }
}
