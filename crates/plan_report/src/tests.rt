ghost use Rattle.std.specs.Prelude.{◌≡◌, ◌≤◌, ◌<◌, map, IsTrue};
ghost use Rattle.std.specs.List.{AllByRecursion};
ghost use Rattle.mt_base.specs.Midi.{view, view_what};
ghost use Rattle.mt_base.specs.Valid.{IsValidEvent, IsValidWhat};
ghost use Rattle.midi_model.specs.Order.{AreInOrder};
ghost use Rattle.lifetimes.specs.Views.{route_of};
ghost use Rattle.channel_plan.specs.Layouts.{IsLayoutOf};

use crate::{push_channels, push_need, push_zones, too_many_line, too_many_parts_line};
use channel_plan::{Layout, Plan, PlanFault};
use event_stream::ListStream;
use kbm_text::Mapping;
use key_pitch::KeyTable;
use lifetimes::{Options, Parts, Route};
use mt_base::{Channel, Event, Msg, What};
use scl_text::read_scl;
use std::alloc::Global;
use std::test::Fail;

/// What an event says: a note begins or ends, on a channel from 0 and a key, or the port of the track.
#[derive(Clone, Copy, Debug)]
enum Said {
    On(u8, u8),
    Off(u8, u8),
    Port(&'static [u8]),
}

use Said::{Off, On, Port};

/// An event: its tick, its track and what it says.
type Turn = (u32, u16, Said);

fn message(said: Said) -> Option<Msg> {
    match said {
        On(channel, key) => Some(Msg::NoteOn {
            channel: Channel::new(channel)?,
            key,
            velocity: 64,
        }),
        Off(channel, key) => Some(Msg::NoteOff {
            channel: Channel::new(channel)?,
            key,
            velocity: 64,
        }),
        Port(_) => None,
    }
}

fn what_of<'a>(said: &'a Said) -> What<'a> {
    match said {
        Port(bytes) => What::Meta { kind: 0x21, bytes },
        _ => match message(*said) {
            Some(message) => What::Message(message),
            None => What::Meta {
                kind: 1,
                bytes: b"",
            },
        },
    }
}

/// Whether the data of an event are in range. The end of a track isn't taken here.
fn is_valid(what: &What<'_>) -> bool
    ensures { IsTrue result → IsValidWhat (view_what what.now) }
{
    match *what {
        What::Message(message) => match message {
            Msg::NoteOn { key, velocity, .. } | Msg::NoteOff { key, velocity, .. } => {
                key < 128 && velocity < 128
            }
            _ => false,
        },
        What::Meta { kind, bytes } => kind != 0x2f && bytes.len() < 0x1000_0000,
        What::Sysex { .. } => false,
    }
}

/// Whether an event may come at a tick or later.
fn may_come(event: &Event<'_>, tick: u32) -> bool
    ensures valid { IsTrue result → IsValidEvent (view event.now) }
    ensures order { IsTrue result → tick ≤ event.now.tick }
    ensures track { IsTrue result → event.now.track < 1024 }
{
    is_valid(&event.what) && event.track < 1024 && event.tick < 0x1000_0000 && tick <= event.tick
}

/// Whether events may come one after the other, from a tick on.
fn may_follow(events: &[Event<'_>], tick: u32) -> bool
    ensures valid { IsTrue result → AllByRecursion IsValidEvent (map view events.now) }
    ensures order { IsTrue result → AreInOrder tick (map view events.now) }
    ensures tracks { IsTrue result → AllByRecursion (λ e. e.track < 1024) (map view events.now) }
{
    match events {
        [first, rest @ ..] => may_come(first, tick) && may_follow(rest, first.tick),
        [] => true,
    }
}

/// Whether parts may be asked for so, with a layout of their route.
fn may_ask(options: Options, layout: Layout) -> bool
    ensures some { IsTrue result → 1 ≤ options.range }
    ensures high { IsTrue result → options.range ≤ 96 }
    ensures program { IsTrue result → options.program ≤ 127 }
    ensures layout { IsTrue result → IsLayoutOf (route_of options.route) layout }
{
    1 <= options.range
        && options.range <= 96
        && options.program <= 127
        && match (options.route, layout) {
            (Route::Bend, Layout::Bend { .. }) => true,
            (Route::Mpe, Layout::Mpe) => true,
            _ => false,
        }
}

const JUST: &[u8] = b"just\n12\n16/15\n9/8\n6/5\n5/4\n4/3\n45/32\n3/2\n8/5\n5/3\n9/5\n15/8\n2/1\n";

/// The table of the just scale, from the standard mapping.
fn table(alloc: Global) -> Option<KeyTable> {
    if JUST.len() > 262_144 {
        return None;
    }
    let scale = read_scl(alloc, JUST).ok()?;
    KeyTable::new(&scale, &Mapping::standard(alloc)).ok()
}

/// The events of some turns.
fn events_of<'a>(alloc: Global, turns: &'a [Turn]) -> Result<Vec<Event<'a>>, PlanFault> {
    let mut events = Vec::new(alloc);
    for turn in turns {
        let event = Event {
            tick: turn.0,
            track: turn.1,
            what: what_of(&turn.2),
        };
        match events.push(event) {
            Ok(()) => {}
            Err(_) => return Err(PlanFault::Memory),
        }
    }
    Ok(events)
}

/// The plan of some events in the just scale, where they may come so; drums are kept.
fn planned(alloc: Global, layout: Layout, turns: &[Turn]) -> Result<Plan, PlanFault> {
    let (route, range) = match layout {
        Layout::Mpe => (Route::Mpe, 48),
        _ => (Route::Bend, 12),
    };
    let options = Options {
        route,
        range,
        keep_drums: true,
        program: 0,
        tail: 0,
    };
    let events = events_of(alloc, turns)?;
    let Some(table) = table(alloc) else {
        return Err(PlanFault::Memory);
    };
    if events.len() > 2_097_152 || !may_follow(events.as_slice(), 0) || !may_ask(options, layout) {
        return Err(PlanFault::Memory);
    }
    let mut stream = ListStream::new(events.as_slice());
    let parts = Parts::new(alloc, table, options);
    Plan::build(alloc, &mut stream, parts, layout)
}

/// The lines of a plan, or of the fault for which there is none. None where memory is wanting.
fn lines_of(alloc: Global, layout: Layout, turns: &[Turn]) -> Option<Vec<u8>> {
    let mut text = Vec::new(alloc);
    match planned(alloc, layout, turns) {
        Ok(plan) => {
            push_channels(&plan, &mut text).ok()?;
            match layout {
                Layout::Mpe => push_zones(&plan, &mut text).ok()?,
                _ => push_need(&plan, &mut text).ok()?,
            }
        }
        Err(PlanFault::TooManyChannels(fault)) => text
            .extend_from_slice(too_many_line(&fault).as_str().as_bytes())
            .ok()?,
        Err(PlanFault::TooManyParts { port, parts }) => text
            .extend_from_slice(too_many_parts_line(port, parts).as_str().as_bytes())
            .ok()?,
        Err(_) => return None,
    }
    Some(text)
}

/// Whether these are the lines.
fn is_said(alloc: Global, layout: Layout, turns: &[Turn], wanted: &[u8]) -> bool {
    match lines_of(alloc, layout, turns) {
        Some(text) => text.as_slice() == wanted,
        None => false,
    }
}

/// All channels but the tenth.
const ALL: Layout = Layout::Bend { allowed: 0xfdff };

const CHORD: &[Turn] = &[
    (0, 0, On(0, 60)),
    (0, 0, On(0, 64)),
    (0, 0, On(0, 67)),
    (480, 0, Off(0, 60)),
    (480, 0, Off(0, 64)),
    (480, 0, Off(0, 67)),
];

#[test]
fn a_chord_needs_three_channels(rt: HostRuntime) -> Result<(), Fail> {
    let lines = b"channels 3\nneed 3 tick 0 position 3\npair 1 -93\npair 1 0\npair 1 13\n";
    assert!(rt; is_said(rt.alloc(), ALL, CHORD, lines));
    let two = Layout::Bend { allowed: 0x0003 };
    let refused = b"mtune: needs 3 channels of 2 at tick 0 position 3\n";
    assert!(rt; is_said(rt.alloc(), two, CHORD, refused));
    let none = Layout::Bend { allowed: 0 };
    let refused = b"mtune: needs 3 channels of 0 at tick 0 position 3\n";
    assert!(rt; is_said(rt.alloc(), none, CHORD, refused));
    Ok(())
}

#[test]
fn a_source_without_notes_needs_none(rt: HostRuntime) -> Result<(), Fail> {
    let lines = b"channels 0\nneed 0 tick 0 position 0\n";
    assert!(rt; is_said(rt.alloc(), ALL, &[], lines));
    assert!(rt; is_said(rt.alloc(), ALL, &[(0, 0, On(9, 36))], lines));
    assert!(rt; is_said(rt.alloc(), Layout::Mpe, &[], b"channels 0\n"));
    Ok(())
}

const TWO_PORTS: &[Turn] = &[
    (0, 0, Port(b"\x00")),
    (0, 0, On(0, 60)),
    (0, 1, Port(b"\x01")),
    (0, 1, On(0, 60)),
    (480, 0, Off(0, 60)),
    (480, 1, Off(0, 60)),
];

const OTHER_PORT: &[Turn] = &[
    (0, 0, Port(b"\x01")),
    (0, 0, On(0, 60)),
    (0, 0, On(2, 64)),
    (0, 0, On(4, 60)),
];

#[test]
fn ports_are_named_where_one_is_another_than_port_0(rt: HostRuntime) -> Result<(), Fail> {
    let lines =
        b"channels 2\nport 0\nneed 1 tick 0 position 2\npair 1 0\nport 1\nneed 1 tick 0 position 4\npair 1 0\n";
    assert!(rt; is_said(rt.alloc(), ALL, TWO_PORTS, lines));
    let lines = b"channels 3\nport 1\nneed 3 tick 0 position 4\npair 1 0\npair 3 -93\npair 5 0\n";
    assert!(rt; is_said(rt.alloc(), ALL, OTHER_PORT, lines));
    let one = Layout::Bend { allowed: 0x0001 };
    let refused = b"mtune: needs 3 channels of 1 on port 1 at tick 0 position 4\n";
    assert!(rt; is_said(rt.alloc(), one, OTHER_PORT, refused));
    let refused = b"mtune: 3 parts on mpe on port 1\n";
    assert!(rt; is_said(rt.alloc(), Layout::Mpe, OTHER_PORT, refused));
    Ok(())
}

/// Keys from 60 on of two parts at once, with or without a note on channel 10.
fn two_parts(alloc: Global, first: u8, second: u8, drums: bool) -> Option<Vec<Turn>> {
    let mut turns: Vec<Turn> = Vec::new(alloc);
    for (part, count) in [(0u8, first), (1u8, second)] {
        for key in 0..count {
            turns.push((0, 0, On(part, 60u8.saturating_add(key)))).ok()?;
        }
    }
    if drums {
        turns.push((0, 0, On(9, 36))).ok()?;
    }
    Some(turns)
}

/// Whether these are the lines of two parts on MPE.
fn are_zones(alloc: Global, first: u8, second: u8, drums: bool, wanted: &[u8]) -> bool {
    match two_parts(alloc, first, second, drums) {
        Some(turns) => is_said(alloc, Layout::Mpe, turns.as_slice(), wanted),
        None => false,
    }
}

#[test]
fn the_lower_zone_comes_first(rt: HostRuntime) -> Result<(), Fail> {
    let lines =
        b"channels 14\nzone lower part 1 need 9 tick 0 position 9\npair 1 -23\npair 1 -17\npair 1 -3\npair 1 0\npair 1 3\npair 1 7\npair 1 20\npair 1 23\npair 1 27\nzone upper part 2 need 5 tick 0 position 14\npair 2 -23\npair 2 0\npair 2 7\npair 2 20\npair 2 27\n";
    assert!(rt; are_zones(rt.alloc(), 9, 5, false, lines));
    let lines =
        b"channels 3\nzone lower part 2 need 2 tick 0 position 3\npair 2 0\npair 2 20\nzone upper part 1 need 1 tick 0 position 1\npair 1 0\n";
    assert!(rt; are_zones(rt.alloc(), 1, 2, false, lines));
    let refused = b"mtune: needs 9 channels of 8 at tick 0 position 9\n";
    assert!(rt; are_zones(rt.alloc(), 9, 5, true, refused));
    let alone = b"channels 1\nzone lower part 3 need 1 tick 0 position 1\npair 3 0\n";
    assert!(rt; is_said(rt.alloc(), Layout::Mpe, &[(0, 0, On(2, 60))], alone));
    let three = [(0, 0, On(0, 60)), (0, 0, On(1, 60)), (0, 0, On(2, 60))];
    assert!(rt; is_said(rt.alloc(), Layout::Mpe, &three, b"mtune: 3 parts on mpe\n"));
    Ok(())
}
