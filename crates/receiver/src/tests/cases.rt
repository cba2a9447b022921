use super::listener::{Listener, Said, what_of};
use super::note_cases::NOTES;
use super::zone_cases::ZONES;
use crate::{Ends, Receiver};
use mt_base::Channel;
use std::process::Abort;

/// An event at its tick, and the notes that it ends, by channel and key.
pub type Turn = (u32, Said, &'static [(u8, u8)]);

/// A note that sounds: channel and key; number, onset, velocity and program; its release; whether
/// it is captured.
pub type Sounds = ((u8, u8), (u32, u32, u8, u8), Option<(u32, u8)>, bool);

/// A list of events, and what holds after it.
pub struct Case {
    pub name: &'static str,
    pub turns: &'static [Turn],
    pub sounding: &'static [Sounds],
    pub found: &'static [Fact],
}

/// What is asked of a receiver, each of a channel.
#[derive(Clone, Copy, Debug)]
pub enum Fact {
    Controller(u8, u8, u8),
    KeyPressure(u8, u8, u8),
    ChannelPressure(u8, u8),
    Wheel(u8, u16),
    /// Both bytes of the bank, and the program.
    Voice(u8, (u8, u8, u8)),
    /// The pairs selected last: registered, non-registered, and whether the registered one came
    /// last.
    Selection(u8, (u8, u8), (u8, u8), bool),
    /// Bend sensitivity, fine tuning, coarse tuning and modulation depth, by their place in this
    /// list.
    Fixed(u8, usize, (u8, u8)),
    /// How many other parameters aren't at their defaults.
    Others(u8, usize),
    TuningProgram(u8, Option<u8>),
    Master(u8, Option<u8>),
}

/// Whether just these notes ended.
fn are_ends(ends: &Ends, wanted: &[(u8, u8)]) -> bool {
    let mut keys = [0u128; 16];
    for &(channel, key) in wanted {
        if let Some(mask) = keys.get_mut(channel as usize) {
            *mask |= 1u128.wrapping_shl(key as u32);
        }
    }
    ends.keys == keys
}

/// Whether a note of the list sounds as the list says.
fn does_sound(receiver: &Receiver, wanted: &Sounds) -> bool {
    let &((channel, key), (number, onset, velocity, program), released, captured) = wanted;
    let Some(channel) = Channel::new(channel) else {
        return false;
    };
    if key > 127 {
        return false;
    }
    match receiver.sounding(channel, key) {
        None => false,
        Some(note) => {
            note.number == number
                && note.onset == onset
                && note.velocity == velocity
                && note.voice.program == program
                && note.released == released
                && note.captured == captured
        }
    }
}

/// How many notes sound.
fn count_of(receiver: &Receiver) -> usize {
    let mut count = 0usize;
    for number in 0..16 {
        if let Some(channel) = Channel::new(number) {
            for key in 0..128 {
                if receiver.sounding(channel, key).is_some() {
                    count = count.wrapping_add(1);
                }
            }
        }
    }
    count
}

/// Whether a controller has a value.
fn has_control(receiver: &Receiver, channel: Channel, number: u8, value: u8) -> bool {
    number < 120 && receiver.state(channel).controls.get(number as usize) == value
}

fn has_key_pressure(receiver: &Receiver, channel: Channel, key: u8, value: u8) -> bool {
    key < 128 && receiver.state(channel).keys.get(key as usize) == value
}

fn has_voice(receiver: &Receiver, channel: Channel, voice: (u8, u8, u8)) -> bool {
    let found = receiver.state(channel).voice;
    (found.bank_high, found.bank_low, found.program) == voice
}

/// The channel that is asked about.
fn subject(fact: Fact) -> Option<Channel> {
    Channel::new(match fact {
        Fact::Controller(channel, _, _)
        | Fact::KeyPressure(channel, _, _)
        | Fact::ChannelPressure(channel, _)
        | Fact::Wheel(channel, _)
        | Fact::Voice(channel, _)
        | Fact::Selection(channel, _, _, _)
        | Fact::Fixed(channel, _, _)
        | Fact::Others(channel, _)
        | Fact::TuningProgram(channel, _)
        | Fact::Master(channel, _) => channel,
    })
}

/// Whether a fact holds.
fn holds(receiver: &Receiver, fact: Fact) -> bool {
    let Some(channel) = subject(fact) else {
        return false;
    };
    let state = receiver.state(channel);
    match fact {
        Fact::Controller(_, number, value) => has_control(receiver, channel, number, value),
        Fact::KeyPressure(_, key, value) => has_key_pressure(receiver, channel, key, value),
        Fact::ChannelPressure(_, value) => state.pressure == value,
        Fact::Wheel(_, value) => state.bend == value,
        Fact::Voice(_, voice) => has_voice(receiver, channel, voice),
        Fact::Selection(_, rpn, nrpn, registered) => {
            state.rpn == rpn && state.nrpn == nrpn && state.registered == registered
        }
        Fact::Fixed(_, place, value) => state.fixed.get(place) == Some(&value),
        Fact::Others(_, count) => state.others.len() == count,
        Fact::TuningProgram(_, program) => state.tuning == program,
        Fact::Master(_, master) => receiver.master(channel).map(|c| c.number()) == master,
    }
}

/// Takes the event of a turn, and tells whether it ends what it should.
fn plays(listener: &mut Listener, turn: &Turn) -> bool {
    match what_of(turn.1) {
        None => false,
        Some(what) => match listener.take(turn.0, &what) {
            None => false,
            Some(ends) => are_ends(&ends, turn.2),
        },
    }
}

fn check(rt: &impl Abort, cases: &[Case]) {
    for case in cases {
        let mut listener = Listener::new();
        for turn in case.turns {
            assert!(rt; plays(&mut listener, turn), "{}: {:?}", case.name, turn.1);
        }
        assert_eq!(rt;
            count_of(&listener.receiver),
            case.sounding.len(),
            "{}",
            case.name
        );
        for sounds in case.sounding {
            assert!(rt;
                does_sound(&listener.receiver, sounds),
                "{}: {:?}",
                case.name,
                sounds.0
            );
        }
        for fact in case.found {
            assert!(rt; holds(&listener.receiver, *fact), "{}: {fact:?}", case.name);
        }
    }
}

#[test]
fn notes_end_and_channels_are_set_as_each_case_says(rt: HostRuntime) {
    check(&rt, &NOTES);
}

#[test]
fn zones_and_tuning_programs_are_set_as_each_case_says(rt: HostRuntime) {
    check(&rt, &ZONES);
}
