ghost use Rattle.std.specs.Prelude.{◌≡◌, ◌≤◌, ◌<◌, map, IsTrue};
ghost use Rattle.std.specs.List.{AllByRecursion};
ghost use Rattle.mt_base.specs.Midi.{view, view_what};
ghost use Rattle.mt_base.specs.Valid.{IsValidEvent, IsValidWhat};
ghost use Rattle.midi_model.specs.Order.{AreInOrder};
ghost use Rattle.lifetimes.specs.Views.{route_of};
ghost use Rattle.channel_plan.specs.Layouts.{IsLayoutOf};

mod cases;
mod layouts;
mod runs;
mod sources;

use crate::{Layout, Plan, PlanFault};
use event_stream::ListStream;
use kbm_text::Mapping;
use key_pitch::KeyTable;
use lifetimes::{Options, Parts, Route};
use mt_base::{Channel, Event, Msg, Pair, What};
use scl_text::read_scl;
use std::alloc::Global;
use std::test::Fail;

/// What an event says.
#[derive(Clone, Copy, Debug)]
pub enum Said {
    On(u8, u8),
    Off(u8, u8),
    Turn(u8, u8, u8),
    Wheel(u8, u16),
    Press(u8, u8, u8),
    Program(u8, u8),
    Meta(u8, &'static [u8]),
    Sysex(&'static [u8]),
}

fn message(said: Said) -> Option<Msg> {
    match said {
        Said::On(channel, key) => Some(Msg::NoteOn {
            channel: Channel::new(channel)?,
            key,
            velocity: 64,
        }),
        Said::Off(channel, key) => Some(Msg::NoteOff {
            channel: Channel::new(channel)?,
            key,
            velocity: 64,
        }),
        Said::Turn(channel, number, value) => Some(Msg::Control {
            channel: Channel::new(channel)?,
            number,
            value,
        }),
        Said::Wheel(channel, value) => Some(Msg::Bend {
            channel: Channel::new(channel)?,
            value,
        }),
        Said::Press(channel, key, value) => Some(Msg::KeyPressure {
            channel: Channel::new(channel)?,
            key,
            value,
        }),
        Said::Program(channel, program) => Some(Msg::Program {
            channel: Channel::new(channel)?,
            program,
        }),
        Said::Meta(..) | Said::Sysex(_) => None,
    }
}

fn what_of<'a>(said: &'a Said) -> What<'a> {
    match said {
        Said::Meta(kind, bytes) => What::Meta { kind: *kind, bytes },
        Said::Sysex(bytes) => What::Sysex { lead: 0xf0, bytes },
        _ => match message(*said) {
            Some(message) => What::Message(message),
            None => What::Meta {
                kind: 1,
                bytes: b"",
            },
        },
    }
}

/// Whether the data of an event are in range. The end of a track isn't taken here.
fn is_valid(what: &What<'_>) -> bool
    ensures { IsTrue result → IsValidWhat (view_what what.now) }
{
    match *what {
        What::Message(message) => match message {
            Msg::NoteOn { key, velocity, .. } | Msg::NoteOff { key, velocity, .. } => {
                key < 128 && velocity < 128
            }
            Msg::KeyPressure { key, value, .. } => key < 128 && value < 128,
            Msg::Control { number, value, .. } => number < 128 && value < 128,
            Msg::Program { program, .. } => program < 128,
            Msg::Pressure { value, .. } => value < 128,
            Msg::Bend { value, .. } => value < 16384,
        },
        What::Sysex { lead, bytes } => {
            (lead == 0xf0 || lead == 0xf7) && bytes.len() < 0x1000_0000
        }
        What::Meta { kind, bytes } => kind != 0x2f && bytes.len() < 0x1000_0000,
    }
}

/// Whether an event may come at a tick or later.
fn may_come(event: &Event<'_>, tick: u32) -> bool
    ensures valid { IsTrue result → IsValidEvent (view event.now) }
    ensures order { IsTrue result → tick ≤ event.now.tick }
    ensures track { IsTrue result → event.now.track < 1024 }
{
    is_valid(&event.what) && event.track < 1024 && event.tick < 0x1000_0000 && tick <= event.tick
}

/// Whether events may come one after the other, from a tick on.
fn may_follow(events: &[Event<'_>], tick: u32) -> bool
    ensures valid { IsTrue result → AllByRecursion IsValidEvent (map view events.now) }
    ensures order { IsTrue result → AreInOrder tick (map view events.now) }
    ensures tracks { IsTrue result → AllByRecursion (λ e. e.track < 1024) (map view events.now) }
{
    match events {
        [first, rest @ ..] => may_come(first, tick) && may_follow(rest, first.tick),
        [] => true,
    }
}

/// Whether parts may be asked for so, with a layout of their route.
fn may_ask(options: Options, layout: Layout) -> bool
    ensures some { IsTrue result → 1 ≤ options.range }
    ensures high { IsTrue result → options.range ≤ 96 }
    ensures program { IsTrue result → options.program ≤ 127 }
    ensures layout { IsTrue result → IsLayoutOf (route_of options.route) layout }
{
    1 <= options.range
        && options.range <= 96
        && options.program <= 127
        && match (options.route, layout) {
            (Route::Dump | Route::Live, Layout::Own) => true,
            (Route::Bend, Layout::Bend { .. }) => true,
            (Route::Mpe, Layout::Mpe) => true,
            _ => false,
        }
}

/// An event: its tick, its track and what it says.
pub type Turn = (u32, u16, Said);

/// The bend route, with drums kept.
pub const BEND: Options = Options {
    route: Route::Bend,
    range: 12,
    keep_drums: true,
    program: 0,
    tail: 0,
};

pub const MPE: Options = Options {
    route: Route::Mpe,
    range: 48,
    ..BEND
};

pub const LIVE: Options = Options {
    route: Route::Live,
    ..BEND
};

/// All channels but the tenth.
pub const ALL: Layout = Layout::Bend { allowed: 0xfdff };

/// The table of a scale, by the standard mapping or by the one of A 440.
pub fn table(alloc: Global, scale: &[u8], a440: bool) -> Option<KeyTable> {
    if scale.len() > 262_144 {
        return None;
    }
    let scale = read_scl(alloc, scale).ok()?;
    let mapping = if a440 {
        Mapping::a440(alloc)
    } else {
        Mapping::standard(alloc)
    };
    KeyTable::new(&scale, &mapping).ok()
}

/// The events of some turns.
fn events_of<'a>(alloc: Global, turns: &'a [Turn]) -> Result<Vec<Event<'a>>, PlanFault> {
    let mut events = Vec::new(alloc);
    for turn in turns {
        let event = Event {
            tick: turn.0,
            track: turn.1,
            what: what_of(&turn.2),
        };
        match events.push(event) {
            Ok(()) => {}
            Err(_) => return Err(PlanFault::Memory),
        }
    }
    Ok(events)
}

/// The plan of some events, where they may come so.
pub fn planned(
    alloc: Global,
    table: KeyTable,
    options: Options,
    layout: Layout,
    turns: &[Turn],
) -> Result<Plan, PlanFault> {
    let events = events_of(alloc, turns)?;
    if events.len() > 2_097_152 || !may_follow(events.as_slice(), 0) || !may_ask(options, layout) {
        return Err(PlanFault::Memory);
    }
    let mut stream = ListStream::new(events.as_slice());
    let parts = Parts::new(alloc, table, options);
    Plan::build(alloc, &mut stream, parts, layout)
}

/// Whether pairs of a port are these, by channel from 1.
pub fn are_pairs(pairs: &[Pair], port: u8, wanted: &[(u8, i32)]) -> bool {
    pairs.len() == wanted.len()
        && pairs.iter().zip(wanted.iter()).all(|(pair, &(channel, steps))| {
            pair.part.port == port
                && pair.part.channel.number() + 1 == channel
                && pair.steps == steps
        })
}

/// Whether the notes are given these channels, from 1, and no other note is given one.
pub fn are_given(plan: &Plan, wanted: &[u8]) -> bool {
    let mut note = 0u32;
    for channel in wanted {
        note = note.saturating_add(1);
        match plan.channel(note) {
            Some(given) if given.number() + 1 == *channel => {}
            _ => return false,
        }
    }
    plan.channel(0).is_none() && plan.channel(note.saturating_add(1)).is_none()
}
