ghost use Rattle.std.specs.Prelude.{◌≡◌, ◌≤◌, ◌<◌, ◌++◌, [], ◌∷◌, List, length, IfSome};
ghost use Rattle.std.specs.List.{AllByRecursion};
ghost use Rattle.mt_base.specs.Midi.{MidiEvent, view};
ghost use Rattle.mt_base.specs.Valid.{IsValidEvent};
ghost use Rattle.retune_model.specs.Options.{Options as Asked};
ghost use Rattle.lifetimes.specs.Views.{options_of};
ghost use Rattle.mtune_core.specs.Survey.{IsUsed, key_begun};

use event_stream::EventStream;
use lifetimes::Options;
use mt_base::{Event, Msg, What};

/// What the retuned notes of a source are.
#[derive(Clone, Copy, Debug, PartialEq, Eq)]
pub struct Used {
    /// How many there are.
    pub notes: u32,
    /// On which keys: a bit for each.
    pub keys: u128,
}

impl Used {
    /// Of no events.
    fn new() -> Used
        ensures { (o : Asked) → IsUsed o [] result }
    {
        Used { notes: 0, keys: 0 }
    }

    /// With one event more.
    fn take(&mut self, options: Options, event: &Event<'_>)
        requires valid { IsValidEvent (view event.now) }
        requires few { self.old.notes < 2097152 }
        ensures { (es : List MidiEvent) → IsUsed (options_of options) es self.old
            → IsUsed (options_of options) (es ++ view event.now ∷ []) self.new }
    {
        if let Some(key) = begun(options, event) {
            self.notes += 1;
            self.keys |= 1 << key;
        }
    }
}

/// The key of the retuned note that an event begins.
fn begun(options: Options, event: &Event<'_>) -> Option<u8>
    requires { IsValidEvent (view event.now) }
    ensures key { result ≡ key_begun (options_of options) (view event.now).what }
    ensures low { IfSome result (λ key. key < 128) }
{
    match event.what {
        What::Message(
            Msg::NoteOn {
                channel,
                key,
                velocity,
            },
        ) if velocity > 0 && options.retunes(channel) => Some(key),
        _ => None,
    }
}

/// Goes through all events of a stream.
pub fn count<'a, S: EventStream<'a>>(stream: &mut S, options: Options) -> Used
    requires valid { AllByRecursion IsValidEvent (S.all stream.old) }
    requires few { length (S.all stream.old) ≤ 2097152 }
    ensures all { S.all stream.new ≡ S.all stream.old }
    ensures used { IsUsed (options_of options) (S.all stream.old) result }
{
    stream.rewind();
    let mut used = Used::new();
    'events: while let Some(event) = stream.next() {
        used.take(options, &event);
    }
    used
}
