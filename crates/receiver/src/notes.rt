ghost use Rattle.std.specs.Prelude.{◌≡◌, ◌<◌, ◌≤◌, ◌+◌, ℕ};
ghost use Rattle.midi_model.specs.Notes.{is_pedal_down, release_key, with_pressure, without_pressure};
ghost use Rattle.midi_model.specs.Music.{begun};
ghost use Rattle.receiver.specs.Zones.{zones_in};
ghost use Rattle.receiver.specs.Turns.{struck, only_on, sostenuto_by, turned_by_control, settled_by};
ghost use Rattle.receiver.specs.Following.{SameSetUp, NotesBecome, SlotsBecome, turn_of, reaches};
ghost use Rattle.receiver.specs.Stands.{states_of, selected_in, set_up_of};

use crate::note::Struck;
use crate::player::Player;
use crate::role::{Purpose, purpose_of};
use crate::turn::Turn;
use mt_base::Channel;

/// A pedal is down at 64 and more.
pub(crate) fn is_down(value: u8) -> bool
    ensures { result ≡ is_pedal_down value }
{
    value >= 64
}

// What messages do to the notes that sound.
impl Player {
    /// A note off.
    pub(crate) fn release(&mut self, channel: Channel, key: u8, tick: u32, velocity: u8)
        requires key { key < 128 }
        ensures notes { NotesBecome (release_key tick channel key velocity) self.old self.new }
        ensures rest { SameSetUp self.old self.new }
    {
        self.channels[channel.number() as usize].release(key, tick, velocity);
    }

    /// Key pressure.
    pub(crate) fn press(&mut self, channel: Channel, key: u8, value: u8)
        requires key { key < 128 }
        requires value { value ≤ 127 }
        ensures notes { NotesBecome (with_pressure channel key value) self.old self.new }
        ensures rest { SameSetUp self.old self.new }
    {
        self.channels[channel.number() as usize].press(key, value);
    }

    /// The pressures of the channel's keys are 0.
    fn relax(&mut self, channel: Channel)
        ensures notes { NotesBecome (without_pressure channel) self.old self.new }
        ensures rest { SameSetUp self.old self.new }
    {
        self.channels[channel.number() as usize].relax();
    }

    /// A note on whose velocity isn't 0.
    pub(crate) fn strike(&mut self, channel: Channel, key: u8, tick: u32, velocity: u8)
        requires key { key < 128 }
        requires few { self.old.begun < 4294967295 }
        ensures notes { SlotsBecome
            (struck (self.old.begun + 1) (begun (set_up_of self.old) tick channel key velocity))
            self.old self.new }
        ensures states { states_of self.new ≡ states_of self.old }
        ensures selected { selected_in self.new ≡ selected_in self.old }
        ensures zones { self.new.zones ≡ self.old.zones }
        ensures begun { self.new.begun ≡ self.old.begun + 1 }
    {
        let voice = self.channels[self.zones.governor(channel) as usize]
            .state
            .voice;
        self.begun += 1;
        let struck = Struck {
            number: self.begun,
            onset: tick,
            velocity,
            voice,
            release: (0, 0),
        };
        self.channels[channel.number() as usize].strike(key, struck);
    }

    /// Whether a controller of a channel reaches the notes of another or of itself: those that it
    /// governs, and where all notes end or go up, its own too.
    fn reaches(&self, turn: Turn, channel: Channel, other: Channel) -> bool
        ensures { result ≡ reaches turn (zones_in self.now.zones) channel other }
    {
        let governed = self.zones.governor(other) == channel.number();
        match turn {
            Turn::SoundOff | Turn::NotesOff => governed || other == channel,
            Turn::Capture | Turn::Free => governed,
        }
    }

    /// A controller of a channel turns the notes of another, or its own, where it reaches them.
    fn turn_one(&mut self, turn: Turn, channel: Channel, other: Channel, tick: u32)
        ensures notes { SlotsBecome
            (only_on other (turn_of turn tick (zones_in self.old.zones) channel))
            self.old self.new }
        ensures rest { SameSetUp self.old self.new }
    {
        if self.reaches(turn, channel, other) {
            self.channels[other.number() as usize].turn(turn, tick);
        }
    }

    /// A controller of a channel turns the notes of all channels that it reaches.
    fn turn(&mut self, turn: Turn, channel: Channel, tick: u32)
        ensures notes { NotesBecome (turn_of turn tick (zones_in self.old.zones) channel)
            self.old self.new }
        ensures rest { SameSetUp self.old self.new }
    {
        for number in 0..16u8 {
            self.turn_one(turn, channel, Channel::at(number), tick);
        }
    }

    /// The sostenuto pedal, controller 66, of a channel.
    fn sostenuto(&mut self, channel: Channel, value: u8, tick: u32)
        ensures notes { NotesBecome (sostenuto_by (set_up_of self.old) channel value)
            self.old self.new }
        ensures rest { SameSetUp self.old self.new }
    {
        let before = self.channels[channel.number() as usize]
            .state
            .controls
            .get(66);
        if is_down(before) {
            if !is_down(value) {
                self.turn(Turn::Free, channel, tick);
            }
        } else if is_down(value) {
            self.turn(Turn::Capture, channel, tick);
        }
    }

    /// What a controller does to the notes, before what nothing holds ends.
    pub(crate) fn turn_notes(&mut self, channel: Channel, number: u8, value: u8, tick: u32)
        ensures notes { SlotsBecome
            (turned_by_control (set_up_of self.old) tick channel number value)
            self.old self.new }
        ensures rest { SameSetUp self.old self.new }
    {
        match purpose_of(number) {
            Purpose::SoundOff => self.turn(Turn::SoundOff, channel, tick),
            Purpose::NotesOff => self.turn(Turn::NotesOff, channel, tick),
            Purpose::Reset => {
                self.sostenuto(channel, 0, tick);
                self.relax(channel);
            }
            Purpose::Keep => {
                if number == 66 {
                    self.sostenuto(channel, value, tick);
                }
            }
            _ => {}
        }
    }

    /// The notes of a channel end that nothing holds.
    pub(crate) fn settle_one(&mut self, channel: Channel)
        ensures notes { (t : ℕ) → SlotsBecome (only_on channel (settled_by (set_up_of self.old) t))
            self.old self.new }
        ensures rest { SameSetUp self.old self.new }
    {
        let governor = self.zones.governor(channel);
        let pedal = self.channels[governor as usize].state.controls.get(64);
        if !is_down(pedal) {
            self.channels[channel.number() as usize].lift_pedal();
        }
    }

    /// The notes end that nothing holds.
    pub(crate) fn settle(&mut self)
        ensures notes { (t : ℕ)
            → NotesBecome (settled_by (set_up_of self.old) t) self.old self.new }
        ensures rest { SameSetUp self.old self.new }
    {
        for number in 0..16u8 {
            self.settle_one(Channel::at(number));
        }
    }
}
