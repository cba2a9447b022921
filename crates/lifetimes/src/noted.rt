ghost use Rattle.std.specs.Prelude.{ℕ, List, [], ◌∷◌, ◌++◌};
ghost use Rattle.mt_base.specs.Midi.{MidiEvent};
ghost use Rattle.retune_model.specs.Options.{Options};
ghost use Rattle.retune_model.specs.Faults.{Targets};
ghost use Rattle.retune_model.specs.Ports.{events_on};
ghost use Rattle.lifetimes.specs.Noted.{AreNoted, IsNoted};
ghost use Rattle.lifetimes.specs.Told.{TellsChange};

use crate::change::Change;

/// Which retuned parts have a note on, by port.
#[derive(Clone, Copy, Debug)]
pub struct Noted {
    /// Bit c of port z stands for channel c of the port.
    parts: [u16; 256],
}

impl Noted {
    /// Of no events.
    pub fn new() -> Noted
        ensures { (o : Options) → IsNoted o [] result }
    {
        Noted { parts: [0; 256] }
    }

    /// With one event more, of which the parts tell what it changes.
    pub fn take(&mut self, change: &Change)
        ensures { (o : Options) (table : Targets) (es : List MidiEvent) (e : MidiEvent)
            → TellsChange o table es e change.now → IsNoted o es self.old
            → IsNoted o (es ++ e ∷ []) self.new }
    {
        if let Some(begun) = &change.begun {
            self.parts[change.port as usize] |= 1 << begun.pair.part.channel.number();
        }
    }

    /// Those of one port: bit c stands for channel c.
    pub fn parts(&self, port: u8) -> u16
        ensures { (o : Options) (es : List MidiEvent) → IsNoted o es self.now
            → AreNoted o (events_on port es) result }
    {
        self.parts[port as usize]
    }
}
