ghost use Rattle.std.specs.Prelude.{◌≡◌, ◌≤◌, length, map, drop};
ghost use Rattle.mt_base.specs.Midi.{view};

use crate::stream::EventStream;
use mt_base::{Event, What};

/// The events of a list, as a stream.
#[derive(Clone, Copy, Debug)]
pub struct ListStream<'a> {
    events: &'a [Event<'a>],
    next: usize,
    ghost in_range: { next ≤ length events.now },
}

impl<'a> ListStream<'a> {
    ghost use Rattle.event_stream.specs.Streams.{all_of_list, rest_of_list};

    /// At the first event of a list.
    pub fn new(events: &'a [Event<'a>]) -> ListStream<'a>
        ensures all { all_of_list result ≡ map view events.entry.now }
        ensures rest { rest_of_list result ≡ map view events.entry.now }
    {
        ListStream { events, next: 0 }
    }
}

impl<'a> EventStream<'a> for ListStream<'a> {
    ghost use Rattle.event_stream.specs.Streams.{all_of_list, rest_of_list};

    ghost all = { all_of_list };

    ghost rest = { rest_of_list };

    fn next(&mut self) -> Option<Event<'a>> {
        let event = self.events.get(self.next)?;
        self.next += 1;
        Some(copy_of(event))
    }

    fn rewind(&mut self) {
        self.next = 0;
    }
}

/// The same event.
fn copy_of<'a>(event: &Event<'a>) -> Event<'a>
    ensures { view result ≡ view event.now }
{
    let what = match &event.what {
        What::Message(msg) => What::Message(*msg),
        What::Sysex { lead, bytes } => What::Sysex { lead: *lead, bytes },
        What::Meta { kind, bytes } => What::Meta { kind: *kind, bytes },
    };
    Event {
        tick: event.tick,
        track: event.track,
        what,
    }
}
