ghost use Rattle.std.specs.Prelude.{◌≤◌, IsTrue};
ghost use Rattle.mt_base.specs.Midi.{view_what};
ghost use Rattle.mt_base.specs.Valid.{IsValidWhat};
ghost use Rattle.receiver.specs.Stands.{begun_in, player_of};

use crate::{bring, bring_length, bring_length_within};
use Said::{Bend, Control, On, Pressure, Program, Touch};
use arrayvec::ArrayVec;
use mt_base::{Channel, Msg, What};
use receiver::{ChannelState, Receiver};

/// What a message to the first channel says, in plain numbers.
#[derive(Clone, Copy, Debug)]
enum Said {
    /// Key and velocity.
    On(u8, u8),
    /// Key pressure: key and value.
    Touch(u8, u8),
    /// Number and value.
    Control(u8, u8),
    Program(u8),
    Pressure(u8),
    Bend(u16),
}

fn message(said: Said) -> Msg {
    let channel = Channel::default();
    match said {
        On(key, velocity) => Msg::NoteOn {
            channel,
            key,
            velocity,
        },
        Touch(key, value) => Msg::KeyPressure {
            channel,
            key,
            value,
        },
        Control(number, value) => Msg::Control {
            channel,
            number,
            value,
        },
        Program(program) => Msg::Program { channel, program },
        Pressure(value) => Msg::Pressure { channel, value },
        Bend(value) => Msg::Bend { channel, value },
    }
}

/// Whether the data of a message are in range.
fn is_valid(what: &What<'_>) -> bool
    ensures { IsTrue result → IsValidWhat (view_what what.now) }
{
    match *what {
        What::Message(message) => match message {
            Msg::NoteOn { key, velocity, .. } | Msg::NoteOff { key, velocity, .. } => {
                key < 128 && velocity < 128
            }
            Msg::KeyPressure { key, value, .. } => key < 128 && value < 128,
            Msg::Control { number, value, .. } => number < 128 && value < 128,
            Msg::Program { program, .. } => program < 128,
            Msg::Pressure { value, .. } => value < 128,
            Msg::Bend { value, .. } => value < 16384,
        },
        What::Sysex { .. } | What::Meta { .. } => false,
    }
}

/// A receiver and how many messages it took: no fewer than notes began.
#[derive(Drop)]
struct Player {
    receiver: Receiver,
    taken: u32,
    ghost few: { begun_in (player_of receiver) ≤ taken },
}

impl Player {
    fn new() -> Player {
        Player {
            receiver: Receiver::new(),
            taken: 0,
        }
    }

    /// Takes a message, where it has room for it.
    fn take(&mut self, message: Msg) -> bool {
        let what = What::Message(message);
        if self.taken == u32::MAX || !is_valid(&what) || !self.receiver.room(&what) {
            return false;
        }
        self.taken += 1;
        self.receiver.step(0, &what);
        true
    }

    /// Takes messages one after another, where it has room for each.
    fn take_all(&mut self, messages: &[Msg]) -> bool {
        for message in messages {
            if !self.take(*message) {
                return false;
            }
        }
        true
    }

    fn state(&self) -> &ChannelState {
        self.receiver.state(Channel::default())
    }
}

fn player_after(said: &[Said]) -> Player {
    let mut player = Player::new();
    for one in said {
        player.take(message(*one));
    }
    player
}

fn brought(now: &Player, wanted: &Player) -> ArrayVec<Msg, 400> {
    let mut messages = ArrayVec::new();
    bring(
        now.state(),
        wanted.state(),
        Channel::default(),
        &mut messages,
    );
    messages
}

/// A channel after some messages, the same after others, and what brings it from the one to the other.
struct Case {
    name: &'static str,
    now: &'static [Said],
    wanted: &'static [Said],
    messages: &'static [Said],
}

const CASES: [Case; 12] = [
    Case {
        name: "the bend range and the fine tuning, and nothing selected then",
        now: &[],
        wanted: &[
            Control(101, 0),
            Control(100, 0),
            Control(6, 12),
            Control(100, 1),
            Control(6, 65),
        ],
        messages: &[
            Control(101, 0),
            Control(100, 0),
            Control(6, 12),
            Control(101, 0),
            Control(100, 1),
            Control(6, 65),
            Control(101, 127),
            Control(100, 127),
        ],
    },
    Case {
        name: "a program, a controller and the bend range",
        now: &[],
        wanted: &[
            Program(5),
            Control(7, 80),
            Control(101, 0),
            Control(100, 0),
            Control(6, 12),
        ],
        messages: &[
            Program(5),
            Control(7, 80),
            Control(101, 0),
            Control(100, 0),
            Control(6, 12),
            Control(101, 127),
            Control(100, 127),
        ],
    },
    Case {
        name: "another program and controller under the same bend range",
        now: &[
            Program(5),
            Control(7, 80),
            Control(101, 0),
            Control(100, 0),
            Control(6, 12),
        ],
        wanted: &[Control(101, 0), Control(100, 0), Control(6, 12)],
        messages: &[Program(0), Control(7, 100)],
    },
    Case {
        name: "modulation, and modulation that was reset",
        now: &[Control(1, 100)],
        wanted: &[Control(1, 100), Control(121, 0)],
        messages: &[Control(1, 0)],
    },
    Case {
        name: "equal states",
        now: &[Control(7, 3), Bend(1), Pressure(9)],
        wanted: &[Pressure(9), Bend(1), Control(7, 3)],
        messages: &[],
    },
    Case {
        name: "states that differ in what is selected",
        now: &[Control(101, 3), Control(100, 1)],
        wanted: &[Control(99, 1), Control(98, 8)],
        messages: &[],
    },
    Case {
        name: "a bank, its program, and another bank for the next one",
        now: &[],
        wanted: &[Control(0, 3), Control(32, 4), Program(5), Control(0, 4)],
        messages: &[Control(0, 3), Control(32, 4), Program(5), Control(0, 4)],
    },
    Case {
        name: "a bank that is selected already",
        now: &[Control(0, 3), Control(32, 4)],
        wanted: &[Control(0, 3), Control(32, 4), Program(0)],
        messages: &[Program(0)],
    },
    Case {
        name: "the LSB of a nonregistered parameter",
        now: &[Control(101, 0), Control(100, 1)],
        wanted: &[Control(99, 1), Control(98, 8), Control(38, 7)],
        messages: &[
            Control(99, 1),
            Control(98, 8),
            Control(38, 7),
            Control(101, 127),
            Control(100, 127),
        ],
    },
    Case {
        name: "a parameter back to its default, before another that comes first by number",
        now: &[Control(99, 1), Control(98, 8), Control(38, 7)],
        wanted: &[Control(101, 0), Control(100, 2), Control(6, 65)],
        messages: &[
            Control(99, 1),
            Control(98, 8),
            Control(38, 0),
            Control(101, 0),
            Control(100, 2),
            Control(6, 65),
            Control(101, 127),
            Control(100, 127),
        ],
    },
    Case {
        name: "pressure, bend and the pressure of a key",
        now: &[On(60, 64), On(61, 64), Touch(61, 5)],
        wanted: &[On(60, 64), Touch(60, 9), Pressure(7), Bend(0)],
        messages: &[Pressure(7), Bend(0), Touch(60, 9), Touch(61, 0)],
    },
    Case {
        name: "the bend back to its middle",
        now: &[Bend(16383)],
        wanted: &[],
        messages: &[Bend(8192)],
    },
];

#[test]
fn messages_bring_a_channel_to_a_state(rt: HostRuntime) {
    for case in &CASES {
        let mut now = player_after(case.now);
        let wanted = player_after(case.wanted);
        let messages = brought(&now, &wanted);
        assert_eq!(rt; messages.len(), case.messages.len(), "{}", case.name);
        for (found, said) in messages.as_slice().iter().zip(case.messages) {
            assert!(rt; *found == message(*said), "{}", case.name);
        }
        let length = messages.len() as u16;
        assert_eq!(rt; bring_length(now.state(), wanted.state()), length);
        assert_eq!(rt;
            bring_length_within(now.state(), wanted.state(), length),
            Some(length)
        );
        if length > 0 {
            assert_eq!(rt;
                bring_length_within(now.state(), wanted.state(), length - 1),
                None
            );
        }
        assert!(rt; now.take_all(messages.as_slice()));
        assert_eq!(rt;
            bring_length(now.state(), wanted.state()),
            0,
            "{}",
            case.name
        );
    }
}

/// Sets both bytes of sixteen nonregistered parameters of an MSB to 1.
fn set_sixteen(player: &mut Player, msb: u8) {
    player.take(message(Control(99, msb)));
    for lsb in 0..16 {
        player.take(message(Control(98, lsb)));
        player.take(message(Control(6, 1)));
        player.take(message(Control(38, 1)));
    }
}

#[test]
fn sixteen_parameters_give_way_to_sixteen_others_with_room_on_the_way(rt: HostRuntime) {
    let mut now = Player::new();
    set_sixteen(&mut now, 1);
    let mut wanted = Player::new();
    set_sixteen(&mut wanted, 2);
    let messages = brought(&now, &wanted);
    assert_eq!(rt; messages.len(), 130);
    assert!(rt; now.take_all(messages.as_slice()));
    assert_eq!(rt; bring_length(now.state(), wanted.state()), 0);
}

#[test]
fn states_that_differ_everywhere_are_391_messages_apart(rt: HostRuntime) {
    let mut now = Player::new();
    set_sixteen(&mut now, 1);
    let mut wanted = player_after(&[
        Control(0, 2),
        Control(32, 2),
        Program(1),
        Bend(1),
        Pressure(1),
    ]);
    set_sixteen(&mut wanted, 2);
    wanted.take(message(Control(101, 0)));
    for lsb in [0, 1, 2, 5] {
        wanted.take(message(Control(100, lsb)));
        wanted.take(message(Control(6, 1)));
        wanted.take(message(Control(38, 1)));
    }
    for number in 0..120 {
        if !matches!(number, 6 | 38 | 96..=101) {
            wanted.take(message(Control(number, 1)));
        }
    }
    for key in 0..128 {
        now.take(message(On(key, 64)));
        wanted.take(message(On(key, 64)));
        wanted.take(message(Touch(key, 1)));
    }
    let messages = brought(&now, &wanted);
    assert_eq!(rt; messages.len(), 391);
    assert_eq!(rt; bring_length(now.state(), wanted.state()), 391);
    assert_eq!(rt; bring_length_within(now.state(), wanted.state(), 390), None);
    assert!(rt; now.take_all(messages.as_slice()));
    assert_eq!(rt; bring_length(now.state(), wanted.state()), 0);
}
