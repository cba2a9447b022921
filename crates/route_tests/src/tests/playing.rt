use super::comparing::{Asked, Unlike, compare};
use super::ear::Ear;
use super::source::port_of;
use event_stream::{EventStream, Merge};
use key_pitch::KeyTable;
use lifetimes::{Options, Route};
use mt_base::{Event, Memory, Msg, What};
use mts_msg::is_tuning;
use smf_read::Smf;
use std::alloc::Global;
use std::test::Fail;

/// The events of a file.
pub fn events_of<'a>(alloc: Global, smf: &Smf<'a>) -> Result<Vec<Event<'a>>, Memory> {
    let mut events = Vec::new(alloc);
    let mut merge = Merge::new(smf);
    'events: while let Some(event) = merge.next() {
        match events.push(event) {
            Ok(()) => {}
            Err(_) => return Err(Memory),
        }
    }
    Ok(events)
}

/// Whether an event is one of a port, but for those at the start, which name the ports, and the ends of tracks.
fn is_of(event: &Event<'_>, port: u8) -> bool {
    if let What::Meta { kind: 0x2f, .. } = event.what {
        return false;
    }
    event.tick > 0 && port_of(event.track) == port
}

/// Whether channel 10 of a port is passed on as it is.
fn keeps_drums(options: &Options, source: &[Event<'_>], port: u8) -> bool {
    for event in source {
        if let What::Message(message) = event.what {
            if port_of(event.track) == port && message.channel().number() == 9 {
                return options.keep_drums;
            }
        }
    }
    false
}

/// Whether an event of the output is one that the source has too.
fn is_passed(asked: &Asked<'_>, what: &What<'_>) -> bool {
    match *what {
        What::Message(ref message) => !asked.is_retuned(message.channel()),
        What::Sysex { lead: 0xf0, bytes } if is_tuning(bytes) => match asked.options.route {
            Route::Dump | Route::Live => false,
            Route::Bend | Route::Mpe => true,
        },
        What::Sysex { .. } | What::Meta { .. } => true,
    }
}

fn are_same(a: &What<'_>, b: &What<'_>) -> bool {
    match (a, b) {
        (What::Message(x), What::Message(y)) => *x == *y,
        (
            What::Sysex { lead, bytes },
            What::Sysex {
                lead: other,
                bytes: more,
            },
        ) => { *lead == *other && *bytes == *more }
        (
            What::Meta { kind, bytes },
            What::Meta {
                kind: other,
                bytes: more,
            },
        ) => { *kind == *other && *bytes == *more }
        _ => false,
    }
}

/// One port of an output, as far as it was heard.
#[derive(Drop)]
struct Played {
    ear: Ear,
    /// The pitch of the note that began last, right then.
    struck: Option<i128>,
    /// How many events of the output came, of all ports.
    place: usize,
}

impl Played {
    /// Hears an event that a source event caused, and tells whether it is the source event itself, passed on.
    fn hear(
        &mut self,
        asked: &Asked<'_>,
        cause: &Event<'_>,
        event: &Event<'_>,
    ) -> Result<bool, Unlike> {
        if event.track != cause.track {
            return Err(Unlike::Track);
        }
        if !self.ear.hear(event.tick, &event.what) {
            return Err(Unlike::Refused);
        }
        if let What::Message(
            Msg::NoteOn {
                channel,
                key,
                velocity,
            },
        ) = event.what
        {
            if velocity > 0 && asked.is_retuned(channel) {
                self.struck = self.ear.pitch(channel, key);
            }
        }
        if !is_passed(asked, &event.what) {
            return Ok(false);
        }
        if are_same(&cause.what, &event.what) {
            Ok(true)
        } else {
            Err(Unlike::Passed)
        }
    }

    /// Hears what the output has of the port up to the tick of a source event.
    fn follow(
        &mut self,
        asked: &Asked<'_>,
        cause: &Event<'_>,
        out: &[Event<'_>],
        port: u8,
    ) -> Result<(), Unlike> {
        let mut passed = 0u32;
        for place in self.place..out.len() {
            let event = &out[place];
            if event.tick > cause.tick {
                break;
            }
            self.place = place + 1;
            if is_of(event, port) && self.hear(asked, cause, event)? {
                passed = passed.saturating_add(1);
            }
        }
        let wanted = is_passed(asked, &cause.what) as u32;
        if passed == wanted {
            Ok(())
        } else {
            Err(Unlike::Passed)
        }
    }
}

/// Plays a port of a source beside its output; the tick and what differs there first. All events of the port but those
/// at tick 0 have ticks of their own.
pub fn first_unlike(
    alloc: Global,
    table: &KeyTable,
    options: Options,
    source: &[Event<'_>],
    out: &[Event<'_>],
    port: u8,
) -> Result<Option<(u32, Unlike)>, Fail> {
    let drums = keeps_drums(&options, source, port);
    let asked = Asked {
        table,
        options,
        drums,
    };
    let mut ear = Ear::new();
    let mut played = Played {
        ear: Ear::new(),
        struck: None,
        place: 0,
    };
    for event in source {
        if !is_of(event, port) {
            continue;
        }
        if !ear.hear(event.tick, &event.what) {
            return Ok(Some((event.tick, Unlike::Refused)));
        }
        if let Err(unlike) = played.follow(&asked, event, out, port) {
            return Ok(Some((event.tick, unlike)));
        }
        let found = compare(alloc, &asked, &ear, &played.ear, event.tick, played.struck)?;
        if let Some(unlike) = found {
            return Ok(Some((event.tick, unlike)));
        }
    }
    Ok(None)
}
