use mt_base::{Channel, Msg, What};

/// General MIDI on.
const RESET: &[u8] = b"\x7e\x7f\x09\x01\xf7";

/// A message of no known maker.
const OTHER: &[u8] = b"\x7d\x01\xf7";

/// The keys of all notes: each pitch of an octave, and some again.
pub const KEYS: [u8; 15] = [60, 61, 62, 63, 64, 65, 66, 67, 68, 69, 70, 71, 72, 48, 55];

/// Numbers from a seed, by a linear congruential generator.
#[derive(Drop)]
pub struct Dice {
    pub state: u64,
}

impl Dice {
    /// A number below so many.
    pub fn roll(&mut self, sides: u16) -> u16 {
        self.state = self
            .state
            .wrapping_mul(6_364_136_223_846_793_005)
            .wrapping_add(1_442_695_040_888_963_407);
        let rolled = (self.state >> 33).checked_rem(sides as u64);
        u16::try_from(rolled.unwrap_or(0)).unwrap_or(0)
    }

    pub fn pick(&mut self, values: &[u8]) -> u8 {
        let sides = u16::try_from(values.len()).unwrap_or(0);
        let place = self.roll(sides) as usize;
        values.get(place).copied().unwrap_or(0)
    }

    fn byte(&mut self) -> u8 {
        (self.roll(128) % 128) as u8
    }

    /// A byte that is 0 or 127 more often than others.
    fn value(&mut self) -> u8 {
        match self.roll(4) {
            0 => 0,
            1 => 127,
            _ => self.byte(),
        }
    }

    /// After how many ticks the next event comes: at least one.
    pub fn wait(&mut self) -> u32 {
        let ticks = self.roll(100) as u32;
        if self.roll(2) == 0 { 1 } else { 1 + ticks }
    }

    /// What an event says: mostly a message.
    pub fn what(&mut self) -> What<'static> {
        match self.roll(200) {
            0 => What::Sysex {
                lead: 0xf0,
                bytes: RESET,
            },
            1 => What::Sysex {
                lead: 0xf0,
                bytes: OTHER,
            },
            2 => What::Meta {
                kind: 1,
                bytes: b"text",
            },
            _ => What::Message(self.message()),
        }
    }

    /// A message; to the sixth channel none of a note.
    fn message(&mut self) -> Msg {
        let number = self.pick(&[0, 0, 0, 0, 1, 1, 1, 5, 9]);
        let channel = Channel::new(number).unwrap_or_default();
        if number == 5 || self.roll(2) == 0 {
            self.setting(channel)
        } else {
            self.note(channel)
        }
    }

    /// A note on, or a note off by either spelling.
    fn note(&mut self, channel: Channel) -> Msg {
        let key = self.pick(&KEYS);
        let velocity = self.byte();
        match self.roll(9) {
            0 => Msg::NoteOn {
                channel,
                key,
                velocity: 0,
            },
            1..=3 => Msg::NoteOff {
                channel,
                key,
                velocity,
            },
            _ => Msg::NoteOn {
                channel,
                key,
                velocity,
            },
        }
    }

    /// A message that isn't of a note.
    fn setting(&mut self, channel: Channel) -> Msg {
        let value = self.value();
        match self.roll(16) {
            0 => Msg::Program {
                channel,
                program: value,
            },
            1 => Msg::Pressure { channel, value },
            2 => Msg::KeyPressure {
                channel,
                key: self.pick(&KEYS),
                value,
            },
            3..=5 => Msg::Bend {
                channel,
                value: self.wheel(),
            },
            _ => self.controller(channel),
        }
    }

    /// A bend: one of both ends, near the middle, or any.
    fn wheel(&mut self) -> u16 {
        match self.roll(6) {
            0 => 0,
            1 => 16383,
            2 => 8192,
            3 => 8100 + self.roll(200) % 200,
            _ => self.roll(16384) % 16384,
        }
    }

    /// A pedal, another controller, or one that selects or sets a parameter.
    fn controller(&mut self, channel: Channel) -> Msg {
        let value = self.value();
        let (number, value) = match self.roll(16) {
            0..=3 => (64, value),
            4 => (66, value),
            5 => (67, value),
            6 | 7 => (self.pick(&[1, 7, 0, 32, 10, 74]), value),
            8 => (self.pick(&[120, 121, 122, 123, 124, 126, 96]), value),
            9 | 10 => (self.pick(&[101, 101, 101, 99]), self.pick(&[0, 0, 0, 1])),
            11 | 12 => (
                self.pick(&[100, 100, 100, 98]),
                self.pick(&[0, 1, 2, 5, 6, 3]),
            ),
            _ => (
                self.pick(&[6, 6, 38]),
                self.pick(&[0, 1, 2, 12, 24, 63, 64, 65, 96]),
            ),
        };
        Msg::Control {
            channel,
            number,
            value,
        }
    }
}
