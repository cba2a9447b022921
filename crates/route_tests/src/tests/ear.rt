ghost use Rattle.std.specs.Prelude.{◌≡◌, ◌≤◌, IsTrue};
ghost use Rattle.mt_base.specs.Midi.{view_what};
ghost use Rattle.mt_base.specs.Valid.{IsValidWhat};
ghost use Rattle.receiver.specs.Stands.{begun_in, player_of};

use mt_base::{Channel, Msg, What};
use receiver::{ChannelState, Note, Receiver};
use std::test::Fail;

/// Whether the data of an event are in range. The end of a track isn't taken here.
pub fn is_valid(what: &What<'_>) -> bool
    ensures { IsTrue result → IsValidWhat (view_what what.now) }
{
    match *what {
        What::Message(message) => match message {
            Msg::NoteOn { key, velocity, .. } | Msg::NoteOff { key, velocity, .. } => {
                key < 128 && velocity < 128
            }
            Msg::KeyPressure { key, value, .. } => key < 128 && value < 128,
            Msg::Control { number, value, .. } => number < 128 && value < 128,
            Msg::Program { program, .. } => program < 128,
            Msg::Pressure { value, .. } => value < 128,
            Msg::Bend { value, .. } => value < 16384,
        },
        What::Sysex { lead, bytes } => {
            (lead == 0xf0 || lead == 0xf7) && bytes.len() < 0x1000_0000
        }
        What::Meta { kind, bytes } => kind != 0x2f && bytes.len() < 0x1000_0000,
    }
}

/// A note that sounds, and where.
#[derive(Clone, Copy, Debug)]
pub struct Heard {
    pub channel: Channel,
    pub key: u8,
    pub note: Note,
}

/// The program's receiver, with how many events it took, and the keys of each channel that were struck: no other
/// sounds, and these are fewer to ask for.
#[derive(Drop)]
pub struct Ear {
    receiver: Receiver,
    taken: u32,
    struck: [u128; 16],
    ghost few: { begun_in (player_of receiver) ≤ taken },
}

impl Ear {
    pub fn new() -> Ear {
        Ear {
            receiver: Receiver::new(),
            taken: 0,
            struck: [0; 16],
        }
    }

    /// Takes an event; whether it could. The end of a track changes nothing.
    pub fn hear(&mut self, tick: u32, what: &What<'_>) -> bool {
        if let What::Meta { kind: 0x2f, .. } = what {
            return true;
        }
        if is_valid(what) && self.taken < u32::MAX && self.receiver.room(what) {
            self.receiver.step(tick, what);
            self.taken += 1;
            self.strike(what);
            true
        } else {
            false
        }
    }

    fn strike(&mut self, what: &What<'_>) {
        if let What::Message(Msg::NoteOn { channel, key, .. }) = what {
            self.struck[channel.number() as usize] |= 1u128.wrapping_shl(*key as u32);
        }
    }

    /// The notes that sound on a channel are put to others.
    pub fn push_notes(&self, channel: Channel, notes: &mut Vec<Heard>) -> Result<(), Fail> {
        let mut struck = self.struck[channel.number() as usize];
        for key in 0..128u8 {
            if struck == 0 {
                break;
            }
            if struck & 1 == 1 {
                if let Some(note) = self.receiver.sounding(channel, key) {
                    notes.push(Heard { channel, key, note })?;
                }
            }
            struck >>= 1;
        }
        Ok(())
    }

    /// The pitch of the note on a key in grains above key 0.
    pub fn pitch(&self, channel: Channel, key: u8) -> Option<i128> {
        if key > 127 {
            return None;
        }
        Some(self.receiver.played(channel, key)?.0)
    }

    pub fn state(&self, channel: Channel) -> &ChannelState {
        self.receiver.state(channel)
    }

    /// The state that a channel's notes have: that of the master, where it is a member of a zone.
    pub fn settings(&self, channel: Channel) -> &ChannelState {
        match self.receiver.master(channel) {
            Some(master) => self.receiver.state(master),
            None => self.receiver.state(channel),
        }
    }
}
