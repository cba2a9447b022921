ghost use Rattle.std.specs.Prelude.{◌≡◌, ◌≤◌, ◌<◌, map, IsTrue};
ghost use Rattle.std.specs.List.{AllByRecursion};
ghost use Rattle.mt_base.specs.Midi.{view, view_what};
ghost use Rattle.mt_base.specs.Valid.{IsValidEvent, IsValidWhat};
ghost use Rattle.midi_model.specs.Order.{AreInOrder};

use crate::{Costs, confirm, least_cover, measure, plans_serve};
use channel_plan::{Layout, Plan};
use event_stream::ListStream;
use kbm_text::Mapping;
use key_pitch::KeyTable;
use lifetimes::{Options, Parts, Route};
use mt_base::{Channel, Event, Msg, What};
use scl_text::read_scl;
use std::alloc::Global;
use std::test::Fail;

/// What an event says, on channels from 1.
#[derive(Clone, Copy, Debug)]
enum Said {
    On(u8, u8),
    Off(u8, u8),
    Program(u8, u8),
    Port(u8),
    Reset,
}

use Said::{Off, On, Port, Program, Reset};

/// An event: its tick, its track and what it says.
type Turn = (u32, u16, Said);

const EQUAL: &[u8] =
    b"equal\n12\n100.0\n200.0\n300.0\n400.0\n500.0\n600.0\n700.0\n800.0\n900.0\n1000.0\n1100.0\n1200.0\n";

/// General MIDI on.
const RESET: &[u8] = b"\x7e\x7f\x09\x01\xf7";

/// The meta events that name the ports 0 and 1.
const PORTS: [&[u8]; 2] = [b"\x00", b"\x01"];

fn on_channel(number: u8) -> Channel {
    match number.checked_sub(1) {
        Some(number) => Channel::new(number).unwrap_or_default(),
        None => Channel::default(),
    }
}

fn what_of<'a>(said: Said) -> What<'a> {
    match said {
        On(channel, key) => What::Message(Msg::NoteOn {
            channel: on_channel(channel),
            key,
            velocity: 64,
        }),
        Off(channel, key) => What::Message(Msg::NoteOff {
            channel: on_channel(channel),
            key,
            velocity: 64,
        }),
        Program(channel, program) => What::Message(Msg::Program {
            channel: on_channel(channel),
            program,
        }),
        Port(port) => What::Meta {
            kind: 0x21,
            bytes: if port == 0 { PORTS[0] } else { PORTS[1] },
        },
        Reset => What::Sysex {
            lead: 0xf0,
            bytes: RESET,
        },
    }
}

/// Whether the data of an event are in range.
fn is_valid(what: &What<'_>) -> bool
    ensures { IsTrue result → IsValidWhat (view_what what.now) }
{
    match *what {
        What::Message(message) => match message {
            Msg::NoteOn { key, velocity, .. } | Msg::NoteOff { key, velocity, .. } => {
                key < 128 && velocity < 128
            }
            Msg::Program { program, .. } => program < 128,
            _ => false,
        },
        What::Sysex { lead, bytes } => lead == 0xf0 && bytes.len() < 0x1000_0000,
        What::Meta { kind, bytes } => kind != 0x2f && bytes.len() < 0x1000_0000,
    }
}

/// Whether an event may come at a tick or later.
fn may_come(event: &Event<'_>, tick: u32) -> bool
    ensures valid { IsTrue result → IsValidEvent (view event.now) }
    ensures order { IsTrue result → tick ≤ event.now.tick }
    ensures track { IsTrue result → event.now.track < 1024 }
{
    is_valid(&event.what) && event.track < 1024 && event.tick < 0x1000_0000 && tick <= event.tick
}

/// Whether events may come one after the other, from a tick on.
fn may_follow(events: &[Event<'_>], tick: u32) -> bool
    ensures valid { IsTrue result → AllByRecursion IsValidEvent (map view events.now) }
    ensures order { IsTrue result → AreInOrder tick (map view events.now) }
    ensures tracks { IsTrue result → AllByRecursion (λ e. e.track < 1024) (map view events.now) }
{
    match events {
        [first, rest @ ..] => may_come(first, tick) && may_follow(rest, first.tick),
        [] => true,
    }
}

/// The bend route at range 12, with drums kept and a tail.
fn resting(tail: u32) -> Options
    ensures route { result.route ≡ Route.Bend }
    ensures range { result.range ≡ 12 }
    ensures program { result.program ≡ 0 }
{
    Options {
        route: Route::Bend,
        range: 12,
        keep_drums: true,
        program: 0,
        tail,
    }
}

fn table(alloc: Global) -> Option<KeyTable> {
    let scale = read_scl(alloc, EQUAL).ok()?;
    KeyTable::new(&scale, &Mapping::a440(alloc)).ok()
}

fn events_of<'a>(alloc: Global, turns: &[Turn]) -> Option<Vec<Event<'a>>> {
    let mut events = Vec::new(alloc);
    for turn in turns {
        let event = Event {
            tick: turn.0,
            track: turn.1,
            what: what_of(turn.2),
        };
        match events.push(event) {
            Ok(()) => {}
            Err(_) => return None,
        }
    }
    Some(events)
}

/// The costs of the runs of a port of some events, where they may come so.
fn measured(alloc: Global, tail: u32, turns: &[Turn], port: u8) -> Option<Costs> {
    plans_serve();
    let keys = table(alloc)?;
    let options = resting(tail);
    let events = events_of(alloc, turns)?;
    if events.len() > 2_097_152 || !may_follow(events.as_slice(), 0) {
        return None;
    }
    let layout = Layout::Bend { allowed: 0xfdff };
    let mut stream = ListStream::new(events.as_slice());
    let parts = Parts::new(alloc, keys, options);
    let plan = match Plan::build(alloc, &mut stream, parts, layout) {
        Ok(plan) => plan,
        Err(_) => return None,
    };
    if plan.run_count(port) > 2000 {
        return None;
    }
    let mut parts = Parts::new(alloc, keys, options);
    match measure(alloc, &mut stream, &mut parts, &plan, port) {
        Ok(costs) => Some(costs),
        Err(_) => None,
    }
}

/// Whether runs cost so much at a start, and so much behind each other, a row for each run.
fn are_costs(costs: &Costs, starts: u16, start: &[u16], after: &[Option<u16>]) -> bool {
    if costs.runs() as usize != start.len() || costs.starts() != starts {
        return false;
    }
    if after.len() != start.len() * start.len() {
        return false;
    }
    for b in 0..costs.runs() {
        if costs.start(b) != start[b as usize] {
            return false;
        }
        for a in 0..costs.runs() {
            if costs.after(a, b) != after[b as usize * start.len() + a as usize] {
                return false;
            }
        }
    }
    true
}

/// Whether the cover that costs least has a price and stands so, and is confirmed.
fn is_covered(alloc: Global, costs: &Costs, price: u64, before: &[Option<u16>]) -> bool {
    match least_cover(alloc, costs) {
        Ok(cover) => {
            cover.price == price && cover.before.as_slice() == before && confirm(costs, &cover)
        }
        Err(_) => false,
    }
}

/// Parts 1 and 3 have programs, and part 2 none; the third part begins while one channel is free.
const THREE: &[Turn] = &[
    (0, 0, Program(1, 5)),
    (0, 0, Program(3, 9)),
    (0, 0, On(1, 69)),
    (0, 0, On(2, 69)),
    (480, 0, Off(1, 69)),
    (490, 0, Off(2, 69)),
    (600, 0, On(3, 69)),
    (610, 0, On(1, 69)),
    (960, 0, Off(3, 69)),
    (960, 0, Off(1, 69)),
];

const NO: Option<u16> = None;

const THREE_BEHIND: [Option<u16>; 16] = [
    NO,
    NO,
    NO,
    NO,
    NO,
    NO,
    NO,
    NO,
    Some(1),
    Some(1),
    NO,
    NO,
    Some(0),
    Some(1),
    NO,
    NO,
];

#[test]
fn an_earlier_run_gives_way(rt: HostRuntime) -> Result<(), Fail> {
    match measured(rt.alloc(), 0, THREE, 0) {
        Some(costs) => {
            assert!(rt; are_costs(&costs, 2, &[6, 5, 6, 6], &THREE_BEHIND));
            assert!(rt; is_covered(rt.alloc(), &costs, 12, &[None, None, Some(1), Some(0)]));
        }
        None => assert!(rt; false),
    }
    Ok(())
}

/// With a tail the runs of the first parts go on until a tick at which nothing is left of them.
#[test]
fn rests_are_part_of_runs(rt: HostRuntime) -> Result<(), Fail> {
    match measured(rt.alloc(), 111, THREE, 0) {
        Some(costs) => {
            let behind = [
                NO,
                NO,
                NO,
                NO,
                NO,
                NO,
                NO,
                NO,
                Some(1),
                NO,
                NO,
                NO,
                Some(0),
                Some(1),
                NO,
                NO,
            ];
            assert!(rt; are_costs(&costs, 2, &[6, 5, 6, 6], &behind));
        }
        None => assert!(rt; false),
    }
    Ok(())
}

/// A part changes its program while its note sounds, and after it.
const CHANGED: &[Turn] = &[
    (0, 0, On(1, 69)),
    (240, 0, Program(1, 7)),
    (480, 0, Off(1, 69)),
    (500, 0, Program(1, 8)),
    (600, 0, On(1, 69)),
    (700, 0, Off(1, 69)),
    (700, 0, Reset),
    (800, 0, Program(2, 7)),
    (800, 0, On(2, 69)),
    (900, 0, Off(2, 69)),
    (900, 0, On(1, 69)),
];

/// A run leaves its channel as it is right after its end, and behind a reset the next one finds it
/// at its default.
#[test]
fn states_are_those_at_ends_and_begins(rt: HostRuntime) -> Result<(), Fail> {
    match measured(rt.alloc(), 0, CHANGED, 0) {
        Some(costs) => {
            let behind = [
                NO,
                NO,
                NO,
                NO,
                Some(1),
                NO,
                NO,
                NO,
                Some(6),
                Some(6),
                NO,
                NO,
                Some(5),
                Some(5),
                Some(1),
                NO,
            ];
            assert!(rt; are_costs(&costs, 1, &[5, 6, 6, 5], &behind));
        }
        None => assert!(rt; false),
    }
    Ok(())
}

/// Two tracks, each with its port.
const PORTED: &[Turn] = &[
    (0, 0, Port(0)),
    (0, 1, Port(1)),
    (0, 0, On(1, 69)),
    (0, 1, On(1, 69)),
    (10, 0, Reset),
    (20, 1, Off(1, 69)),
    (30, 0, On(1, 69)),
    (40, 1, On(1, 69)),
];

/// Each port has runs, resets and positions of its own.
#[test]
fn ports_are_measured_apart(rt: HostRuntime) -> Result<(), Fail> {
    match measured(rt.alloc(), 0, PORTED, 0) {
        Some(costs) => assert!(rt; are_costs(&costs, 1, &[5, 5], &[NO, NO, Some(5), NO])),
        None => assert!(rt; false),
    }
    match measured(rt.alloc(), 0, PORTED, 1) {
        Some(costs) => assert!(rt; are_costs(&costs, 1, &[5, 5], &[NO, NO, Some(0), NO])),
        None => assert!(rt; false),
    }
    match measured(rt.alloc(), 0, PORTED, 2) {
        Some(costs) => {
            assert!(rt; are_costs(&costs, 0, &[], &[]));
            assert!(rt; is_covered(rt.alloc(), &costs, 0, &[]));
        }
        None => assert!(rt; false),
    }
    Ok(())
}
