ghost use Rattle.std.specs.Prelude.{◌≡◌, ◌≤◌, ◌<◌, ◌++◌, [], ◌∷◌, List, length, IfOk, IfErr, IfSome};
ghost use Rattle.std.specs.List.{AllByRecursion};
ghost use Rattle.mt_base.specs.Midi.{MidiEvent, view};
ghost use Rattle.mt_base.specs.Valid.{IsValidEvent};
ghost use Rattle.midi_model.specs.Order.{AreInOrder};
ghost use Rattle.retune_model.specs.Options.{Options};
ghost use Rattle.retune_model.specs.Faults.{Targets};
ghost use Rattle.retune_model.specs.SourceFaults.{first_fault};
ghost use Rattle.lifetimes.specs.Stands.{Stands, asked, table_in};
ghost use Rattle.lifetimes.specs.Told.{TellsChange, told_fault, IsCaused};
ghost use Rattle.mtune_core.specs.Survey.{IsFound};

use crate::counting::Used;
use event_stream::EventStream;
use key_pitch::Aims;
use lifetimes::{Change, Noted, Parts, StepFault};
use retune_model::{fault_laws, front_faults};

/// What the retuned parts of a whole source have.
#[derive(Drop)]
pub struct Found {
    /// Which of them have a note on.
    pub noted: Noted,
    /// What their notes are.
    pub used: Used,
}

impl Found {
    /// Of no events.
    fn new() -> Found
        ensures { (o : Options) → IsFound o [] result }
    {
        Found {
            noted: Noted::new(),
            used: Used { notes: 0, keys: 0 },
        }
    }

    /// With one event more, by what it did.
    fn take(&mut self, change: &Change)
        requires key { IfSome change.now.begun (λ b. b.key < 128) }
        ensures { (o : Options) (table : Targets) (es : List MidiEvent) (e : MidiEvent)
            → TellsChange o table es e change.now → IsFound o es self.old
            → IsFound o (es ++ e ∷ []) self.new }
    {
        self.noted.take(change);
        if let Some(begun) = change.begun {
            self.used.notes = begun.note;
            self.used.keys |= 1 << begun.key;
        }
    }
}

/// Goes through all events of a stream, and finds the first fault of them or what they have. The
/// parts are new.
pub fn survey<'a, S: EventStream<'a>, T: Aims>(
    stream: &mut S,
    parts: &mut Parts<T>,
) -> Result<Found, StepFault>
    requires restless { (asked parts.old).tail ≡ 0 }
    requires start { Stands (T.table (table_in parts.old)) parts.old [] }
    requires valid { AllByRecursion IsValidEvent (S.all stream.old) }
    requires order { AreInOrder 0 (S.all stream.old) }
    requires tracks { AllByRecursion (λ e. e.track < 1024) (S.all stream.old) }
    requires few { length (S.all stream.old) ≤ 2097152 }
    ensures all { S.all stream.new ≡ S.all stream.old }
    ensures table { table_in parts.new ≡ table_in parts.old }
    ensures options { asked parts.new ≡ asked parts.old }
    ensures found { IfOk result (λ f. IsFound (asked parts.old) (S.all stream.old) f) }
    ensures fault { told_fault result
        ≡ first_fault (asked parts.old) (T.table (table_in parts.old)) (S.all stream.old) }
    ensures memory { IfErr result (λ f. IsCaused (asked parts.old).tail f) }
{
    fault_laws();
    front_faults();
    stream.rewind();
    let mut found = Found::new();
    let mut position = 0;
    'events: while let Some(event) = stream.next() {
        position += 1;
        let change = parts.step(position, &event)?;
        found.take(&change);
    }
    Ok(found)
}
