use mt_base::{Msg, What};
use mts_msg::is_reset;
use std::alloc::Global;
use std::test::Fail;

/// A note, from its note on to its end and after it.
#[derive(Clone, Copy, Debug)]
pub struct SlowNote {
    pub channel: u8,
    pub key: u8,
    pub onset: u32,
    pub velocity: u8,
    /// Both bytes of the bank, and the program.
    pub voice: (u8, u8, u8),
    pub release: Option<(u32, u8)>,
    pub captured: bool,
    pub pressure: u8,
    /// The number of the event by which it ended, where it did.
    pub ended: Option<u32>,
}

/// A channel, as far as it matters to notes and zones.
#[derive(Clone, Copy, Debug)]
pub struct Part {
    pub bank: (u8, u8),
    pub voice: (u8, u8, u8),
    pub hold: u8,
    pub sostenuto: u8,
    pub bend: u16,
    pub pressure: u8,
    pub rpn: (u8, u8),
    pub registered: bool,
    pub bend_range: (u8, u8),
}

const FRESH: Part = Part {
    bank: (0, 0),
    voice: (0, 0, 0),
    hold: 0,
    sostenuto: 0,
    bend: 8192,
    pressure: 0,
    rpn: (127, 127),
    registered: true,
    bend_range: (2, 0),
};

/// Sixteen channels, and how many members each zone has.
#[derive(Clone, Copy, Debug)]
pub struct SetUp {
    parts: [Part; 16],
    lower: u8,
    upper: u8,
}

/// A receiver that keeps all notes in the order of their note ons and looks at each of them at each
/// event.
#[derive(Drop)]
pub struct Slow {
    pub notes: Vec<SlowNote>,
    pub set_up: SetUp,
    events: u32,
}

impl Part {
    fn reset_controllers(&mut self) {
        self.hold = 0;
        self.sostenuto = 0;
        self.bend = 8192;
        self.pressure = 0;
        self.rpn = (127, 127);
        self.registered = true;
    }

    fn control(&mut self, number: u8, value: u8) {
        let is_range = self.registered && self.rpn == (0, 0);
        match number {
            0 => self.bank.0 = value,
            32 => self.bank.1 = value,
            64 => self.hold = value,
            66 => self.sostenuto = value,
            98 | 99 => self.registered = false,
            100 => {
                self.rpn.1 = value;
                self.registered = true;
            }
            101 => {
                self.rpn.0 = value;
                self.registered = true;
            }
            6 if is_range => self.bend_range.0 = value,
            38 if is_range => self.bend_range.1 = value,
            121 => self.reset_controllers(),
            _ => {}
        }
    }

    /// What a message of the channel does to it.
    fn hear(&mut self, message: &Msg) {
        match *message {
            Msg::Control { number, value, .. } => self.control(number, value),
            Msg::Program { program, .. } => self.voice = (self.bank.0, self.bank.1, program),
            Msg::Pressure { value, .. } => self.pressure = value,
            Msg::Bend { value, .. } => self.bend = value,
            _ => {}
        }
    }
}

impl SetUp {
    fn new() -> SetUp {
        SetUp {
            parts: [FRESH; 16],
            lower: 0,
            upper: 0,
        }
    }

    pub fn part(&self, channel: u8) -> Part {
        self.parts.get(channel as usize).copied().unwrap_or(FRESH)
    }

    /// The master of the zone of which a channel is a member.
    pub fn master(&self, channel: u8) -> Option<u8> {
        if 1 <= channel && channel <= self.lower {
            Some(0)
        } else if 15u8.saturating_sub(self.upper) <= channel && channel < 15 {
            Some(15)
        } else {
            None
        }
    }

    fn governor(&self, channel: u8) -> u8 {
        self.master(channel).unwrap_or(channel)
    }

    fn set_zone(&mut self, master: u8, members: u8) {
        let other = if master == 0 { self.upper } else { self.lower };
        let beside = if members > 0 && members.saturating_add(other) >= 15 {
            0
        } else {
            other
        };
        if master == 0 {
            self.lower = members;
            self.upper = beside;
        } else {
            self.lower = beside;
            self.upper = members;
        }
    }

    /// The bend ranges of a zone that was set.
    fn give_ranges(&mut self, master: u8) {
        for channel in 0..16u8 {
            let governor = self.governor(channel);
            if let Some(part) = self.parts.get_mut(channel as usize) {
                if channel == master {
                    part.bend_range = (2, 0);
                } else if governor == master {
                    part.bend_range = (48, 0);
                }
            }
        }
    }

    fn hear(&mut self, message: &Msg) {
        let channel = channel_of(message);
        let part = self.part(channel);
        if let Some(own) = self.parts.get_mut(channel as usize) {
            own.hear(message);
        }
        if let Msg::Control {
            number: 6,
            value,
            ..
        } = *message
        {
            let is_zone = part.registered && part.rpn == (0, 6);
            if is_zone && (channel == 0 || channel == 15) {
                self.set_zone(channel, if value < 15 { value } else { 15 });
                if value > 0 {
                    self.give_ranges(channel);
                }
            }
        }
    }
}

fn channel_of(message: &Msg) -> u8 {
    match message {
        Msg::NoteOn { channel, .. }
        | Msg::NoteOff { channel, .. }
        | Msg::KeyPressure { channel, .. }
        | Msg::Control { channel, .. }
        | Msg::Program { channel, .. }
        | Msg::Pressure { channel, .. }
        | Msg::Bend { channel, .. } => channel.number(),
    }
}

impl SlowNote {
    fn let_up(&mut self, tick: u32, velocity: u8) {
        if self.release.is_none() {
            self.release = Some((tick, velocity));
        }
    }

    fn sostenuto(&mut self, before: u8, value: u8) {
        if before >= 64 && value < 64 {
            self.captured = false;
        } else if before < 64 && value >= 64 && self.release.is_none() {
            self.captured = true;
        }
    }

    /// What a controller does to it while it sounds.
    fn control(&mut self, set_up: &SetUp, tick: u32, event: u32, controller: (u8, u8, u8)) {
        let (channel, number, value) = controller;
        let is_own = self.channel == channel;
        let is_governed = set_up.governor(self.channel) == channel;
        let pedal = set_up.part(channel).sostenuto;
        match number {
            66 if is_governed => self.sostenuto(pedal, value),
            120 if is_own || is_governed => self.ended = Some(event),
            121 => {
                if is_governed {
                    self.sostenuto(pedal, 0);
                }
                if is_own {
                    self.pressure = 0;
                }
            }
            123 | 124 | 127 if is_own || is_governed => self.let_up(tick, 64),
            _ => {}
        }
    }

    /// What a message does to it while it sounds.
    fn hear(&mut self, set_up: &SetUp, tick: u32, event: u32, message: &Msg) {
        let is_own = self.channel == channel_of(message);
        match *message {
            Msg::NoteOn { key, velocity, .. } if is_own && key == self.key => {
                if velocity == 0 {
                    self.let_up(tick, 64);
                } else {
                    self.ended = Some(event);
                }
            }
            Msg::NoteOff { key, velocity, .. } if is_own && key == self.key => {
                self.let_up(tick, velocity);
            }
            Msg::KeyPressure { key, value, .. } if is_own && key == self.key => {
                self.pressure = value;
            }
            Msg::Control {
                channel,
                number,
                value,
            } => {
                self.control(set_up, tick, event, (channel.number(), number, value));
            }
            _ => {}
        }
    }

    /// Whether nothing holds it any more.
    fn is_over(&self, set_up: &SetUp) -> bool {
        let pedal = set_up.part(set_up.governor(self.channel)).hold;
        self.release.is_some() && !self.captured && pedal < 64
    }
}

impl Slow {
    pub fn new(alloc: Global) -> Slow {
        Slow {
            notes: Vec::new(alloc),
            set_up: SetUp::new(),
            events: 0,
        }
    }

    fn begin(&mut self, tick: u32, channel: u8, key: u8, velocity: u8) -> Result<(), Fail> {
        self.notes.push(SlowNote {
            channel,
            key,
            onset: tick,
            velocity,
            voice: self.set_up.part(self.set_up.governor(channel)).voice,
            release: None,
            captured: false,
            pressure: 0,
            ended: None,
        })?;
        Ok(())
    }

    /// A message, and then the end of each note that nothing holds.
    fn play(&mut self, tick: u32, message: &Msg) -> Result<(), Fail> {
        for note in self.notes.iter_mut() {
            if note.ended.is_none() {
                note.hear(&self.set_up, tick, self.events, message);
            }
        }
        if let Msg::NoteOn {
            channel,
            key,
            velocity,
        } = *message
        {
            if velocity > 0 {
                self.begin(tick, channel.number(), key, velocity)?;
            }
        }
        self.set_up.hear(message);
        for note in self.notes.iter_mut() {
            if note.ended.is_none() && note.is_over(&self.set_up) {
                note.ended = Some(self.events);
            }
        }
        Ok(())
    }

    fn reset(&mut self) {
        for note in self.notes.iter_mut() {
            if note.ended.is_none() {
                note.ended = Some(self.events);
            }
        }
        self.set_up = SetUp::new();
    }

    /// Takes an event at its tick.
    pub fn step(&mut self, tick: u32, what: &What<'_>) -> Result<(), Fail> {
        self.events = self.events.wrapping_add(1);
        match *what {
            What::Message(ref message) => self.play(tick, message)?,
            What::Sysex { lead: 0xf0, bytes } if is_reset(bytes) => self.reset(),
            _ => {}
        }
        Ok(())
    }

    /// The notes that the last event ended: bit k of channel c is that of key k.
    pub fn ends(&self) -> [u128; 16] {
        let mut keys = [0u128; 16];
        for note in self.notes.iter() {
            if note.ended == Some(self.events) {
                if let Some(mask) = keys.get_mut(note.channel as usize) {
                    *mask |= 1u128.wrapping_shl(note.key as u32);
                }
            }
        }
        keys
    }
}
