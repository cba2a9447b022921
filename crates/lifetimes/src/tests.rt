ghost use Rattle.std.specs.Prelude.{◌≡◌, ◌≤◌, IsTrue};
ghost use Rattle.mt_base.specs.Midi.{view_what};
ghost use Rattle.mt_base.specs.Valid.{IsValidWhat};

mod cases;
mod random;
mod slow;

use crate::{Begun, Change, Options, Parts, Route, SourceFault, SourceKind, StepFault};
use key_pitch::{Aim, Aims, KeyTable};
use mt_base::{Channel, Event, Msg, Pair, Part, What};
use std::alloc::Global;
use std::test::Fail;

/// What an event says.
#[derive(Clone, Copy, Debug)]
pub enum Said {
    On(u8, u8),
    Off(u8, u8),
    Turn(u8, u8, u8),
    Wheel(u8, u16),
    Press(u8, u8, u8),
    Program(u8, u8),
    Meta(u8, &'static [u8]),
    Sysex(&'static [u8]),
}

fn message(said: Said) -> Option<Msg> {
    match said {
        Said::On(channel, key) => Some(Msg::NoteOn {
            channel: Channel::new(channel)?,
            key,
            velocity: 64,
        }),
        Said::Off(channel, key) => Some(Msg::NoteOff {
            channel: Channel::new(channel)?,
            key,
            velocity: 64,
        }),
        Said::Turn(channel, number, value) => Some(Msg::Control {
            channel: Channel::new(channel)?,
            number,
            value,
        }),
        Said::Wheel(channel, value) => Some(Msg::Bend {
            channel: Channel::new(channel)?,
            value,
        }),
        Said::Press(channel, key, value) => Some(Msg::KeyPressure {
            channel: Channel::new(channel)?,
            key,
            value,
        }),
        Said::Program(channel, program) => Some(Msg::Program {
            channel: Channel::new(channel)?,
            program,
        }),
        Said::Meta(..) | Said::Sysex(_) => None,
    }
}

fn what_of(said: Said) -> Option<What<'static>> {
    match said {
        Said::Meta(kind, bytes) => Some(What::Meta { kind, bytes }),
        Said::Sysex(bytes) => Some(What::Sysex { lead: 0xf0, bytes }),
        _ => Some(What::Message(message(said)?)),
    }
}

/// Whether the data of an event are in range. The end of a track isn't taken here.
fn is_valid(what: &What<'_>) -> bool
    ensures { IsTrue result → IsValidWhat (view_what what.now) }
{
    match *what {
        What::Message(message) => match message {
            Msg::NoteOn { key, velocity, .. } | Msg::NoteOff { key, velocity, .. } => {
                key < 128 && velocity < 128
            }
            Msg::KeyPressure { key, value, .. } => key < 128 && value < 128,
            Msg::Control { number, value, .. } => number < 128 && value < 128,
            Msg::Program { program, .. } => program < 128,
            Msg::Pressure { value, .. } => value < 128,
            Msg::Bend { value, .. } => value < 16384,
        },
        What::Sysex { lead, bytes } => {
            (lead == 0xf0 || lead == 0xf7) && bytes.len() < 0x1000_0000
        }
        What::Meta { kind, bytes } => kind != 0x2f && bytes.len() < 0x1000_0000,
    }
}

/// Whether parts may be asked for so.
fn may_ask(options: Options) -> bool
    ensures { IsTrue result → (1 ≤ options.range) × ((options.range ≤ 96) × (options.program ≤ 127)) }
{
    1 <= options.range && options.range <= 96 && options.program <= 127
}

/// Takes an event, where it may come next and memory isn't wanting.
fn take<T: Aims>(
    parts: &mut Parts<T>,
    tick: u32,
    track: u16,
    said: &Said,
) -> Option<Result<Change, SourceFault>> {
    let Some(what) = what_of(*said) else {
        return None;
    };
    let position = parts.source.position.checked_add(1)?;
    if !is_valid(&what) || track >= 1024 || tick >= 0x1000_0000 || tick < parts.source.tick {
        return None;
    }
    match parts.step(position, &Event { tick, track, what }) {
        Ok(change) => Some(Ok(change)),
        Err(StepFault::Source(fault)) => Some(Err(fault)),
        Err(StepFault::Memory) => None,
    }
}

/// What a step answers.
#[derive(Clone, Copy, Debug)]
pub enum Answer {
    /// A retuned note begins, by its place, with the steps of its target, and these end.
    Begins(u32, i32, &'static [(u8, u8)]),
    /// These notes end, by channel and key.
    Ends(&'static [(u8, u8)]),
    Fails(SourceKind),
}

/// An event: its tick, its track and what it says.
pub type Turn = (u32, u16, Said, Answer);

fn are_ends(change: &Change, wanted: &[(u8, u8)]) -> bool {
    let mut keys = [0u128; 16];
    for &(channel, key) in wanted {
        if let Some(mask) = keys.get_mut(channel as usize) {
            *mask |= 1u128.wrapping_shl(key as u32);
        }
    }
    change.ended.keys == keys
}

fn is_begun(begun: &Option<Begun>, note: u32, steps: i32, said: Said) -> bool {
    match (*begun, said) {
        (Some(begun), Said::On(channel, key)) => {
            begun.note == note
                && begun.key == key
                && begun.pair.steps == steps
                && begun.pair.part.channel.number() == channel
        }
        _ => false,
    }
}

/// Whether a step from a position answers as wanted.
fn agrees(res: &Result<Change, SourceFault>, position: u32, turn: &Turn) -> bool {
    let &(tick, track, said, wanted) = turn;
    match (res, wanted) {
        (Ok(change), Answer::Begins(note, steps, ends)) => {
            is_begun(&change.begun, note, steps, said) && are_ends(change, ends)
        }
        (Ok(change), Answer::Ends(ends)) => change.begun.is_none() && are_ends(change, ends),
        (Err(fault), Answer::Fails(kind)) => {
            fault.position.checked_sub(1) == Some(position)
                && fault.tick == tick
                && fault.track == track
                && fault.kind == kind
        }
        _ => false,
    }
}

/// Takes all events; the number of the first one that is answered otherwise, or 0.
fn first_other<T: Aims>(parts: &mut Parts<T>, turns: &[Turn]) -> usize {
    for (place, turn) in turns.iter().enumerate() {
        let position = parts.source.position;
        let is_wanted = match take(parts, turn.0, turn.1, &turn.2) {
            Some(res) => agrees(&res, position, turn),
            None => false,
        };
        if !is_wanted {
            return place.saturating_add(1);
        }
    }
    0
}
