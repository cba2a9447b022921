ghost use Rattle.std.specs.Prelude.{◌≤◌, IsTrue};
ghost use Rattle.mt_base.specs.Midi.{view_what};
ghost use Rattle.mt_base.specs.Valid.{IsValidWhat};
ghost use Rattle.receiver.specs.Stands.{begun_in, player_of};

use crate::{Ends, Receiver};
use mt_base::{Channel, Msg, What};

/// What an event says, in plain numbers. Channels are counted from 0.
#[derive(Clone, Copy, Debug)]
pub enum Said {
    /// Channel, key and velocity.
    On(u8, u8, u8),
    Off(u8, u8, u8),
    /// Key pressure: channel, key and value.
    Touch(u8, u8, u8),
    /// Channel, number and value.
    Control(u8, u8, u8),
    Program(u8, u8),
    Pressure(u8, u8),
    Bend(u8, u16),
    /// A system exclusive event: its lead and its bytes.
    System(u8, &'static [u8]),
}

/// A message in plain numbers, where they are in range.
fn message_of(said: Said) -> Option<Msg> {
    Some(match said {
        Said::On(channel, key, velocity) => Msg::NoteOn {
            channel: Channel::new(channel)?,
            key,
            velocity,
        },
        Said::Off(channel, key, velocity) => Msg::NoteOff {
            channel: Channel::new(channel)?,
            key,
            velocity,
        },
        Said::Touch(channel, key, value) => Msg::KeyPressure {
            channel: Channel::new(channel)?,
            key,
            value,
        },
        Said::Control(channel, number, value) => Msg::Control {
            channel: Channel::new(channel)?,
            number,
            value,
        },
        Said::Program(channel, program) => Msg::Program {
            channel: Channel::new(channel)?,
            program,
        },
        Said::Pressure(channel, value) => Msg::Pressure {
            channel: Channel::new(channel)?,
            value,
        },
        Said::Bend(channel, value) => Msg::Bend {
            channel: Channel::new(channel)?,
            value,
        },
        Said::System(_, _) => return None,
    })
}

/// The event.
pub fn what_of(said: Said) -> Option<What<'static>> {
    match said {
        Said::System(lead, bytes) => Some(What::Sysex { lead, bytes }),
        _ => Some(What::Message(message_of(said)?)),
    }
}

/// Whether the data of an event are in range. Meta events aren't played here.
fn is_valid(what: &What<'_>) -> bool
    ensures { IsTrue result → IsValidWhat (view_what what.now) }
{
    match *what {
        What::Message(message) => match message {
            Msg::NoteOn { key, velocity, .. } | Msg::NoteOff { key, velocity, .. } => {
                key < 128 && velocity < 128
            }
            Msg::KeyPressure { key, value, .. } => key < 128 && value < 128,
            Msg::Control { number, value, .. } => number < 128 && value < 128,
            Msg::Program { program, .. } => program < 128,
            Msg::Pressure { value, .. } => value < 128,
            Msg::Bend { value, .. } => value < 16384,
        },
        What::Sysex { lead, bytes } => {
            (lead == 0xf0 || lead == 0xf7) && bytes.len() < 0x1000_0000
        }
        What::Meta { .. } => false,
    }
}

/// A receiver and how many events it took: no fewer than notes began.
#[derive(Drop)]
pub struct Listener {
    pub receiver: Receiver,
    taken: u32,
    pub ghost few: { begun_in (player_of receiver) ≤ taken },
}

impl Listener {
    pub fn new() -> Listener {
        Listener {
            receiver: Receiver::new(),
            taken: 0,
        }
    }

    /// Whether the event may be taken.
    pub fn may_take(&self, what: &What<'_>) -> bool {
        is_valid(what) && self.receiver.room(what)
    }

    /// Takes an event at its tick, where it may be taken, and tells which notes ended.
    pub fn take(&mut self, tick: u32, what: &What<'_>) -> Option<Ends> {
        if self.taken == u32::MAX || !is_valid(what) || !self.receiver.room(what) {
            return None;
        }
        self.taken += 1;
        Some(self.receiver.step(tick, what))
    }
}
