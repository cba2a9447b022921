ghost use Rattle.std.specs.Prelude.{◌<◌};

use super::listener::{Listener, Said, what_of};
use super::slow::{Part, Slow, SlowNote};
use crate::{Note, Receiver};
use mt_base::Channel;
use std::test::Fail;

/// The keys that are struck: few, so that strikes repeat.
const KEYS: [u8; 6] = [0, 60, 61, 62, 63, 127];

/// Numbers that look as by chance.
#[derive(Drop)]
struct Dice {
    state: u64,
}

impl Dice {
    fn roll(&mut self, sides: u8) -> u8
        requires { 0 < sides }
        ensures { result < sides }
    {
        self.state = self
            .state
            .wrapping_mul(6_364_136_223_846_793_005)
            .wrapping_add(1_442_695_040_888_963_407);
        ((self.state >> 33) % sides as u64) as u8
    }

    fn pick(&mut self, values: &[u8]) -> u8 {
        let place = self.roll(16) as usize;
        values.get(place).copied().unwrap_or(0)
    }

    /// A pedal, half of the time down.
    fn pedal(&mut self) -> u8 {
        self.pick(&[
            0, 1, 62, 63, 63, 63, 20, 0, 64, 64, 64, 65, 90, 126, 127, 127,
        ])
    }

    /// One of the keys, some more often than others.
    fn key(&mut self) -> u8 {
        self.pick(&[
            60, 60, 60, 60, 60, 61, 61, 61, 61, 62, 62, 62, 0, 127, 63, 63,
        ])
    }

    /// The controllers that select and set the size of a zone, or a bend range.
    fn entry(&mut self) -> Said {
        let channel = self.pick(&[0, 0, 0, 0, 0, 0, 15, 15, 15, 15, 15, 15, 1, 7, 12, 14]);
        match self.roll(16) {
            0..=3 => Said::Control(
                channel,
                101,
                self.pick(&[0, 0, 0, 0, 0, 0, 0, 0, 0, 0, 0, 0, 0, 0, 0, 127]),
            ),
            4..=7 => Said::Control(
                channel,
                100,
                self.pick(&[6, 6, 6, 6, 6, 6, 6, 6, 6, 6, 6, 6, 0, 0, 0, 127]),
            ),
            8..=13 => Said::Control(
                channel,
                6,
                self.pick(&[0, 0, 0, 0, 1, 2, 3, 4, 5, 7, 8, 11, 12, 14, 15, 99]),
            ),
            14 => Said::Control(channel, 38, self.roll(128)),
            _ => Said::Control(
                channel,
                self.pick(&[
                    98, 98, 98, 98, 98, 98, 98, 98, 99, 99, 99, 99, 99, 99, 99, 99,
                ]),
                self.roll(2),
            ),
        }
    }

    /// A message to all notes of a channel.
    fn mode(&mut self, channel: u8) -> Said {
        let number = self.pick(&[
            120, 121, 121, 121, 122, 122, 123, 123, 124, 124, 125, 125, 126, 126, 127, 121,
        ]);
        Said::Control(channel, number, self.roll(128))
    }

    fn event(&mut self) -> Said {
        let channel = self.roll(16);
        match self.roll(200) {
            0..=69 => Said::On(channel, self.key(), self.roll(128)),
            70..=74 => Said::On(channel, self.key(), 0),
            75..=109 => Said::Off(channel, self.key(), self.roll(128)),
            110..=129 => Said::Control(channel, 64, self.pedal()),
            130..=144 => Said::Control(channel, 66, self.pedal()),
            145..=149 => self.mode(channel),
            150..=154 => Said::Control(
                channel,
                self.pick(&[0, 0, 0, 0, 0, 0, 32, 32, 32, 32, 32, 1, 7, 65, 96, 97]),
                self.roll(128),
            ),
            155..=159 => Said::Program(channel, self.roll(128)),
            160..=164 => Said::Bend(channel, 64 * self.roll(200) as u16),
            165..=174 => Said::Touch(channel, self.key(), self.roll(128)),
            175..=177 => Said::Pressure(channel, self.roll(128)),
            178..=198 => self.entry(),
            _ => match self.roll(3) {
                0 => Said::System(0xf0, &[0x7e, 0x7f, 0x09, 0x01, 0xf7]),
                1 => Said::System(0xf0, &[0x7e, 0x7f, 0x09, 0x07, 0xf7]),
                _ => Said::System(0xf7, &[0x7e, 0x7f, 0x09, 0x01, 0xf7]),
            },
        }
    }
}

/// Whether a note of the slow receiver is this one.
fn is_same(slow: &SlowNote, number: usize, found: Note) -> bool {
    let voice = (
        found.voice.bank_high,
        found.voice.bank_low,
        found.voice.program,
    );
    found.number as usize == number
        && found.onset == slow.onset
        && found.velocity == slow.velocity
        && voice == slow.voice
        && found.released == slow.release
        && found.captured == slow.captured
}

/// Whether each note of the slow receiver sounds, and no other.
fn sound_the_same(receiver: &Receiver, slow: &Slow) -> bool {
    let mut number = 0usize;
    let mut sounding = [0u128; 16];
    for note in slow.notes.iter() {
        number = number.wrapping_add(1);
        if note.ended.is_none() {
            let Some(channel) = Channel::new(note.channel) else {
                return false;
            };
            if note.key > 127 {
                return false;
            }
            match receiver.sounding(channel, note.key) {
                Some(found) if is_same(note, number, found) => {}
                _ => return false,
            }
            if receiver.state(channel).keys.get(note.key as usize) != note.pressure {
                return false;
            }
            if let Some(mask) = sounding.get_mut(note.channel as usize) {
                *mask |= 1u128.wrapping_shl(note.key as u32);
            }
        }
    }
    is_quiet_beside(receiver, &sounding)
}

/// Whether no note sounds, and no key is pressed, but on these keys, of all that are ever struck.
fn is_quiet_beside(receiver: &Receiver, sounding: &[u128; 16]) -> bool {
    for number in 0..16u8 {
        if let (Some(channel), Some(mask)) = (Channel::new(number), sounding.get(number as usize)) {
            for key in KEYS {
                let is_wanted = mask.wrapping_shr(key as u32) & 1 == 1;
                let is_pressed = receiver.state(channel).keys.get(key as usize) != 0;
                if !is_wanted && (is_pressed || receiver.sounding(channel, key).is_some()) {
                    return false;
                }
            }
        }
    }
    true
}

/// Whether a channel is set as that of the slow receiver.
fn is_set(receiver: &Receiver, channel: Channel, part: Part) -> bool {
    let state = receiver.state(channel);
    let voice = (
        state.voice.bank_high,
        state.voice.bank_low,
        state.voice.program,
    );
    voice == part.voice
        && state.controls.get(64) == part.hold
        && state.controls.get(66) == part.sostenuto
        && state.bend == part.bend
        && state.pressure == part.pressure
        && state.rpn == part.rpn
        && state.registered == part.registered
        && state.fixed.first() == Some(&part.bend_range)
}

fn are_set_the_same(receiver: &Receiver, slow: &Slow) -> bool {
    for number in 0..16 {
        if let Some(channel) = Channel::new(number) {
            let master = receiver.master(channel).map(|c| c.number());
            if master != slow.set_up.master(number)
                || !is_set(receiver, channel, slow.set_up.part(number))
            {
                return false;
            }
        }
    }
    true
}

/// Plays one event on both, and tells whether they agree in what ends, what sounds and what is set.
fn play_alike(
    listener: &mut Listener,
    slow: &mut Slow,
    tick: u32,
    said: Said,
) -> Result<bool, Fail> {
    let Some(what) = what_of(said) else {
        return Ok(false);
    };
    let Some(ends) = listener.take(tick, &what) else {
        return Ok(false);
    };
    slow.step(tick, &what)?;
    Ok(
        ends.keys == slow.ends()
            && sound_the_same(&listener.receiver, slow)
            && are_set_the_same(&listener.receiver, slow),
    )
}

#[test]
fn lists_are_played_as_by_a_receiver_that_looks_at_every_note(rt: HostRuntime) -> Result<(), Fail> {
    for list in 0..10u64 {
        let mut dice = Dice { state: list };
        let mut listener = Listener::new();
        let mut slow = Slow::new(rt.alloc());
        let mut tick = 0u32;
        for event in 0..2_000u32 {
            tick = tick.wrapping_add(dice.roll(3) as u32);
            let said = dice.event();
            let is_alike = play_alike(&mut listener, &mut slow, tick, said)?;
            assert!(rt; is_alike, "list {list}, event {event}: {said:?}");
        }
    }
    Ok(())
}
