ghost use Rattle.std.specs.Prelude.{◌≡◌, ◌<◌, ◌+ℤ◌, pos, List, length, Some};
ghost use Rattle.std.specs.Option.{option_map};
ghost use Rattle.mt_base.specs.Midi.{MidiEvent, view, view_what};
ghost use Rattle.mt_base.specs.Valid.{IsValidEvent};
ghost use Rattle.channel_model.specs.Choice.{bend_value};
ghost use Rattle.channel_model.specs.MpeOutput.{on_channel};
ghost use Rattle.lifetimes.specs.Views.{options_of};
ghost use Rattle.lifetimes.specs.Stands.{Stands, asked, table_in};
ghost use Rattle.lifetimes.specs.Told.{port_on};
ghost use Rattle.mpe_route.specs.Zones.{zone_from, zones_in};
ghost use Rattle.mpe_route.specs.Kept.{bend_in};
ghost use Rattle.mpe_route.specs.Caused.{played_as, played_if, released_key, released_by, begun_as, with_zone, caused_by};

use crate::kept::Kept;
use crate::zones::{find_zone, master};
use arrayvec::ArrayVec;
use channel_plan::{Plan, Zone};
use key_pitch::{Aim, Aims};
use lifetimes::{Begun, Options, Parts};
use mt_base::{Channel, Event, Msg, Part, What};

/// A note as the output plays it: its member, its key, and the bend of its pair.
#[derive(Clone, Copy, Debug)]
pub(crate) struct Played {
    pub channel: Channel,
    pub key: u8,
    pub bend: u16,
}

/// A bend by so many steps, as far as a bend goes.
fn bend_value(steps: i32) -> u16
    ensures { result ≡ bend_value (pos 8192 +ℤ steps) }
{
    let bend = 8192 + steps as i64;
    if bend < 0 {
        0
    } else if bend > 16383 {
        16383
    } else {
        bend as u16
    }
}

/// A note of the source as the output plays it.
fn note_of(plan: &Plan, begun: &Begun) -> Option<Played>
    ensures { result ≡ played_as plan.now begun.now }
{
    match begun.target {
        Aim::Bend { key, steps } => match plan.channel(begun.note) {
            Some(channel) => Some(Played {
                channel,
                key,
                bend: bend_value(steps),
            }),
            None => None,
        },
        Aim::Unmapped | Aim::OutOfDevice | Aim::Mts { .. } => None,
    }
}

/// The same, where there is one.
pub(crate) fn played_if(plan: &Plan, begun: &Option<Begun>) -> Option<Played>
    ensures { result ≡ played_if plan.now begun.now }
{
    match begun {
        Some(begun) => note_of(plan, begun),
        None => None,
    }
}

/// The channel and the key that an event releases.
fn released_key(what: &What<'_>) -> Option<(Channel, u8)>
    ensures { result ≡ released_key (view_what what.now) }
{
    match *what {
        What::Message(
            Msg::NoteOff { channel, key, .. }
            | Msg::NoteOn {
                channel,
                key,
                velocity: 0,
            },
        ) => Some((channel, key)),
        What::Message(_) | What::Sysex { .. } | What::Meta { .. } => None,
    }
}

/// The note of a retuned part that an event which comes next releases: the one whose key is down.
pub(crate) fn released<T: Aims>(parts: &Parts<T>, plan: &Plan, event: &Event<'_>) -> Option<Played>
    requires valid { IsValidEvent (view event.now) }
    requires track { event.now.track < 1024 }
    ensures { (es : List MidiEvent) → Stands (T.table (table_in parts.now)) parts.now es
        → result ≡ released_by (asked parts.now) (T.table (table_in parts.now)) es plan.now
        (port_on es (view event.now)) (view event.now).what }
{
    let port = parts.port(event.track);
    match released_key(&event.what) {
        Some((channel, key)) => match parts.sounding(Part { port, channel }, key) {
            Some((begun, true)) => note_of(plan, &begun),
            Some((_, false)) | None => None,
        },
        None => None,
    }
}

/// The same message on another channel.
fn on_channel(channel: Channel, message: &Msg) -> Msg
    ensures { result ≡ on_channel channel message.now }
{
    match *message {
        Msg::NoteOn { key, velocity, .. } => Msg::NoteOn {
            channel,
            key,
            velocity,
        },
        Msg::NoteOff { key, velocity, .. } => Msg::NoteOff {
            channel,
            key,
            velocity,
        },
        Msg::KeyPressure { key, value, .. } => Msg::KeyPressure {
            channel,
            key,
            value,
        },
        Msg::Control { number, value, .. } => Msg::Control {
            channel,
            number,
            value,
        },
        Msg::Program { program, .. } => Msg::Program { channel, program },
        Msg::Pressure { value, .. } => Msg::Pressure { channel, value },
        Msg::Bend { value, .. } => Msg::Bend { channel, value },
    }
}

/// A note on or off of a note on its member; behind the member's bend where that is another one.
fn push_note(out: &mut ArrayVec<Msg, 2>, note: &Played, bend: u16, velocity: u8)
    requires { length out.old.items ≡ 0 }
    ensures { out.new.items ≡ begun_as (λ d. bend) velocity (Some note.now) }
{
    let Played {
        channel,
        key,
        bend: value,
    } = *note;
    if bend != value {
        out.push(Msg::Bend { channel, value });
    }
    out.push(Msg::NoteOn {
        channel,
        key,
        velocity,
    });
}

/// What a message of a part with a zone causes, where it begins or releases this note: the note on its
/// member, behind the member's bend where it begins and the bend differs; else the message on the master.
fn with_zone(
    kept: &Kept,
    port: u8,
    zone: &Zone,
    note: &Option<Played>,
    message: &Msg,
) -> ArrayVec<Msg, 2>
    ensures { result.items
        ≡ with_zone (bend_in kept.now port) (zone_from zone.now) note.now message.now }
{
    let mut out = ArrayVec::new();
    match message {
        Msg::NoteOn { velocity, .. } => {
            if let Some(note) = note {
                let bend = if *velocity > 0 {
                    kept.bend(port, note.channel)
                } else {
                    note.bend
                };
                push_note(&mut out, note, bend, *velocity);
            }
        }
        Msg::NoteOff { velocity, .. } => {
            if let Some(note) = note {
                out.push(Msg::NoteOff {
                    channel: note.channel,
                    key: note.key,
                    velocity: *velocity,
                });
            }
        }
        Msg::KeyPressure { .. }
        | Msg::Control { .. }
        | Msg::Program { .. }
        | Msg::Pressure { .. }
        | Msg::Bend { .. } => out.push(on_channel(master(zone), message)),
    }
    out
}

/// What a message of a retuned part of a port causes in its place, where it begins or releases this note: a
/// part without a note on has no zone, and causes nothing. None for an event that is passed on as it is.
pub(crate) fn caused_by(
    options: &Options,
    plan: &Plan,
    kept: &Kept,
    port: u8,
    note: &Option<Played>,
    what: &What<'_>,
) -> Option<ArrayVec<Msg, 2>>
    ensures { option_map (λ a. a.items) result ≡ caused_by (options_of options.now)
        (zones_in plan.now port) (bend_in kept.now port) note.now (view_what what.now) }
{
    match what {
        What::Message(message) if options.retunes(message.channel()) => {
            let channel = message.channel();
            match find_zone(plan, Part { port, channel }) {
                Some(zone) => Some(with_zone(kept, port, &zone, note, message)),
                None => Some(ArrayVec::new()),
            }
        }
        What::Message(_) | What::Sysex { .. } | What::Meta { .. } => None,
    }
}
