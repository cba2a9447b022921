ghost use Rattle.std.specs.Prelude.{◌≡◌};
ghost use Rattle.mt_base.specs.declared.event.Msg.TheVariants.{Program};

use crate::channel::Channel;

/// A channel message of MIDI 1.0. Data bytes are at most 127, a bend is at most 16,383.
#[derive(Clone, Copy, Debug, PartialEq, Eq)]
pub enum Msg {
    NoteOn {
        channel: Channel,
        key: u8,
        velocity: u8,
    },
    NoteOff {
        channel: Channel,
        key: u8,
        velocity: u8,
    },
    KeyPressure {
        channel: Channel,
        key: u8,
        value: u8,
    },
    Control {
        channel: Channel,
        number: u8,
        value: u8,
    },
    Program {
        channel: Channel,
        program: u8,
    },
    Pressure {
        channel: Channel,
        value: u8,
    },
    Bend {
        channel: Channel,
        value: u16,
    },
}

impl Msg {
    ghost use Rattle.mt_base.specs.Midi.{channel_of};

    /// The channel that it is about.
    pub fn channel(&self) -> Channel
        ensures { result ≡ channel_of self.now }
    {
        match *self {
            Msg::NoteOn { channel, .. }
            | Msg::NoteOff { channel, .. }
            | Msg::KeyPressure { channel, .. }
            | Msg::Control { channel, .. }
            | Msg::Program { channel, .. }
            | Msg::Pressure { channel, .. }
            | Msg::Bend { channel, .. } => channel,
        }
    }
}

impl Default for Msg {
    /// Program 0 on the first channel.
    fn default() -> Msg
        ensures { result ≡ Program 0 0 }
    {
        Msg::Program {
            channel: Channel::default(),
            program: 0,
        }
    }
}

/// What an event of a Standard MIDI File says. The lead of a system exclusive event is F0 or F7; a
/// meta event of kind 2F, the end of its track, has no bytes.
#[derive(Clone, Copy, Debug)]
pub enum What<'a> {
    Message(Msg),
    Sysex { lead: u8, bytes: &'a [u8] },
    Meta { kind: u8, bytes: &'a [u8] },
}

/// An event at its tick, counted from the start of the file, in its track, counted from 0.
#[derive(Clone, Copy, Debug)]
pub struct Event<'a> {
    pub tick: u32,
    pub track: u16,
    pub what: What<'a>,
}
