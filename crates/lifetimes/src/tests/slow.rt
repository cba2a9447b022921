//! The parts once more, written from the definitions: all notes in a list, and each question walks
//! over them.

use super::Said;
use crate::{Options, Route, SourceKind};
use key_pitch::{Aim, Aims, KeyTable};
use std::alloc::{AllocError, Global};

/// A note of a retuned part, from its note on to its end and after it.
#[derive(Clone, Copy, Debug)]
pub struct SlowNote {
    pub port: u8,
    pub channel: u8,
    pub key: u8,
    pub number: u32,
    pub aim: Aim,
    pub released: bool,
    pub captured: bool,
    pub pressure: u8,
    pub ended: Option<u32>,
    /// Whether a reset has come since it began.
    pub past: bool,
}

#[derive(Clone, Copy, Debug)]
pub struct SlowChannel {
    pub hold: u8,
    pub sostenuto: u8,
    pub bend: u16,
    pub range: (u8, u8),
    pub rpn: (u8, u8),
}

pub const FRESH: SlowChannel = SlowChannel {
    hold: 0,
    sostenuto: 0,
    bend: 8192,
    range: (2, 0),
    rpn: (127, 127),
};

#[derive(Drop)]
pub struct Slow {
    pub table: KeyTable,
    pub options: Options,
    pub notes: Vec<SlowNote>,
    /// By 16 * port + channel.
    pub channels: [SlowChannel; 32],
    pub tick: u32,
    pub begun: u32,
}

/// What there was before an event.
#[derive(Drop)]
pub struct Saved {
    pub notes: Vec<SlowNote>,
    pub channels: [SlowChannel; 32],
    pub tick: u32,
    pub begun: u32,
}

fn is_at(note: &SlowNote, port: u8, channel: u8) -> bool {
    note.port == port && note.channel == channel
}

impl SlowChannel {
    /// The channel after a controller.
    fn turned(self, channel: u8, number: u8, value: u8) -> SlowChannel {
        let mut state = self;
        match number {
            64 => state.hold = value,
            66 => state.sostenuto = value,
            101 => state.rpn.0 = value,
            100 => state.rpn.1 = value,
            6 if state.rpn == (0, 0) => state.range.0 = value,
            38 if state.rpn == (0, 0) => state.range.1 = value,
            6 if state.rpn == (0, 6) && value > 0 && (channel == 0 || channel == 15) => {
                state.range = (2, 0);
            }
            121 => {
                state = SlowChannel {
                    range: self.range,
                    ..FRESH
                };
            }
            _ => {}
        }
        state
    }
}

impl SlowNote {
    /// What a controller does to a note of its channel that sounds.
    fn turn(&mut self, number: u8, tick: u32) {
        match number {
            120 => self.ended = Some(tick),
            123 | 124 | 127 => self.released = true,
            121 => self.pressure = 0,
            _ => {}
        }
    }

    /// What the sostenuto pedal does to it.
    fn capture(&mut self, was_down: bool, is_down: bool) {
        if is_down && !was_down && !self.released {
            self.captured = true;
        }
        if was_down && !is_down {
            self.captured = false;
        }
    }
}

/// The steps of a target, 0 where it isn't a bend.
pub fn steps_of(aim: Aim) -> i32 {
    match aim {
        Aim::Bend { steps, .. } => steps,
        _ => 0,
    }
}

impl Slow {
    pub fn new(alloc: Global, table: KeyTable, options: Options) -> Slow {
        Slow {
            table,
            options,
            notes: Vec::new(alloc),
            channels: [FRESH; 32],
            tick: 0,
            begun: 0,
        }
    }

    pub fn channel(&self, port: u8, channel: u8) -> SlowChannel {
        let place = 16 * port as usize + channel as usize;
        self.channels.get(place).copied().unwrap_or(FRESH)
    }

    fn set(&mut self, port: u8, channel: u8, state: SlowChannel) {
        if let Some(place) = self.channels.get_mut(16 * port as usize + channel as usize) {
            *place = state;
        }
    }

    pub fn aim(&self, key: u8, tick: u32) -> Aim {
        let range = self.options.range;
        if key > 127 || range == 0 || range > 96 {
            return Aim::Unmapped;
        }
        match self.options.route {
            Route::Dump | Route::Live => Aims::mts_aim(&self.table, key, tick),
            Route::Bend | Route::Mpe => Aims::bend_aim(&self.table, key, range, tick),
        }
    }

    /// By how much a part's own bend moves its notes, in steps of the range that is asked for: to the
    /// nearest, half a step upward.
    pub fn moved(&self, port: u8, channel: u8) -> i64 {
        let state = self.channel(port, channel);
        let cents = 100 * state.range.0 as i64 + state.range.1 as i64;
        let step = 100 * self.options.range as i64;
        if step == 0 {
            return 0;
        }
        (state.bend as i64 - 8192)
            .saturating_mul(2 * cents)
            .saturating_add(step)
            .div_euclid(2 * step)
    }

    /// Whether a note holds: it sounds, or rests.
    pub fn does_hold(&self, note: &SlowNote, tick: u32) -> bool {
        match note.ended {
            None => true,
            Some(end) => !note.past && (tick as u64) < end as u64 + self.options.tail as u64,
        }
    }

    /// A controller on a channel.
    fn turn(&mut self, port: u8, channel: u8, number: u8, value: u8, tick: u32) {
        let before = self.channel(port, channel);
        let after = before.turned(channel, number, value);
        for note in self.notes.iter_mut() {
            if is_at(note, port, channel) && note.ended.is_none() {
                note.turn(number, tick);
                note.capture(before.sostenuto >= 64, after.sostenuto >= 64);
            }
        }
        self.set(port, channel, after);
    }

    /// What a message does to what sounds on a key.
    fn touch(&mut self, port: u8, channel: u8, key: u8, said: &Said, tick: u32) {
        for note in self.notes.iter_mut() {
            if is_at(note, port, channel) && note.key == key && note.ended.is_none() {
                match *said {
                    Said::On(..) => note.ended = Some(tick),
                    Said::Off(..) => note.released = true,
                    Said::Press(_, _, value) => note.pressure = value,
                    _ => {}
                }
            }
        }
    }

    fn settle(&mut self, port: u8, tick: u32) {
        let channels = self.channels;
        for note in self.notes.iter_mut() {
            let place = 16 * port as usize + note.channel as usize;
            let hold = channels.get(place).copied().unwrap_or(FRESH).hold;
            if note.port == port
                && note.ended.is_none()
                && note.released
                && !note.captured
                && hold < 64
            {
                note.ended = Some(tick);
            }
        }
    }

    pub fn retunes(&self, channel: u8) -> bool {
        !(self.options.keep_drums && channel == 9)
    }

    /// A note on.
    fn strike(&mut self, port: u8, tick: u32, channel: u8, key: u8) -> Result<(), AllocError> {
        self.touch(port, channel, key, &Said::On(channel, key), tick);
        self.begun = self.begun.saturating_add(1);
        let aim = self.aim(key, tick);
        self.notes.push(SlowNote {
            port,
            channel,
            key,
            number: self.begun,
            aim,
            released: false,
            captured: false,
            pressure: 0,
            ended: None,
            past: false,
        })?;
        Ok(())
    }

    fn reset(&mut self, port: u8, tick: u32) {
        for note in self.notes.iter_mut() {
            if note.port == port {
                if note.ended.is_none() {
                    note.ended = Some(tick);
                }
                note.past = true;
            }
        }
        for channel in 0..16u8 {
            self.set(port, channel, FRESH);
        }
    }

    /// Takes an event without asking for faults.
    pub fn take(&mut self, port: u8, tick: u32, said: &Said) -> Result<(), AllocError> {
        self.tick = tick;
        match *said {
            Said::On(channel, key) if self.retunes(channel) => {
                self.strike(port, tick, channel, key)?;
            }
            Said::Off(channel, key) | Said::Press(channel, key, _) => {
                self.touch(port, channel, key, said, tick);
            }
            Said::Turn(channel, number, value) if self.retunes(channel) => {
                self.turn(port, channel, number, value, tick);
            }
            Said::Wheel(channel, value) if self.retunes(channel) => {
                let mut state = self.channel(port, channel);
                state.bend = value;
                self.set(port, channel, state);
            }
            Said::Sysex(_) => self.reset(port, tick),
            _ => {}
        }
        self.settle(port, tick);
        Ok(())
    }

    /// What there is before an event.
    pub fn saved(&self, alloc: Global) -> Result<Saved, AllocError> {
        let channels = self.channels;
        Ok(Saved {
            notes: Vec::from_slice(alloc, self.notes.as_slice())?,
            channels,
            tick: self.tick,
            begun: self.begun,
        })
    }

    /// As before an event that wasn't taken.
    pub fn restore(&mut self, saved: Saved) {
        let channels = saved.channels;
        self.notes = saved.notes;
        self.channels = channels;
        self.tick = saved.tick;
        self.begun = saved.begun;
    }

    /// The least steps of a pair of a part that goes too far.
    pub fn beyond(&self, port: u8, channel: u8, tick: u32) -> Option<(i32, i64)> {
        let moved = self.moved(port, channel);
        let mut least: Option<i32> = None;
        for note in self.notes.iter() {
            let steps = steps_of(note.aim);
            let bend = (steps as i64).saturating_add(moved);
            let is_less = match least {
                Some(other) => steps < other,
                None => true,
            };
            if is_at(note, port, channel)
                && self.does_hold(note, tick)
                && (bend < -8192 || bend > 8191)
                && is_less
            {
                least = Some(steps);
            }
        }
        least.map(|steps| (steps, moved))
    }

    /// Whether a note sounds on a part whose key and target are related so.
    pub fn has(&self, port: u8, channel: u8, key: u8, is_same_key: bool, aim: Aim) -> bool {
        for note in self.notes.iter() {
            if is_at(note, port, channel)
                && note.ended.is_none()
                && (note.key == key) == is_same_key
                && (note.aim == aim) != is_same_key
            {
                return true;
            }
        }
        false
    }

    /// What the tables of faults say of a note on, but for kind 4.
    pub fn strike_fault(&self, port: u8, tick: u32, channel: u8, key: u8) -> Option<SourceKind> {
        let aim = self.aim(key, tick);
        let bends = match self.options.route {
            Route::Dump | Route::Live => false,
            Route::Bend | Route::Mpe => true,
        };
        match aim {
            Aim::Unmapped => Some(SourceKind::UnmappedKey),
            Aim::OutOfDevice => Some(SourceKind::KeyOutOfDevice),
            _ if bends && self.has(port, channel, key, false, aim) => Some(SourceKind::Unison),
            _ if bends && self.has(port, channel, key, true, aim) => Some(SourceKind::Restrike),
            _ => None,
        }
    }

    /// The same of a controller.
    pub fn turn_fault(&self, port: u8, channel: u8, number: u8) -> Option<SourceKind> {
        let rpn = self.channel(port, channel).rpn;
        match number {
            125 | 126 => Some(SourceKind::ModeMessage),
            96 | 97 => Some(SourceKind::DataStep),
            6 | 38 if rpn == (0, 3) || rpn == (0, 4) => Some(SourceKind::TuningInSource),
            6 | 38 if rpn == (0, 6) => Some(SourceKind::MpeSource),
            _ => None,
        }
    }
}
