ghost use Rattle.std.specs.Prelude.{◌≡◌, ◌<◌, ◌≤◌, ◌+◌, ◌⊎◌, ℕ, Some, is_some, true, IfSome, if◌then◌else◌};
ghost use Rattle.std.specs.Option.{option_map};
ghost use Rattle.mt_base.specs.Valid.{IsValidMsg};
ghost use Rattle.mt_base.specs.Midi.{Says};
ghost use Rattle.mt_base.specs.declared.event.Msg.TheVariants.{Control};
ghost use Rattle.midi_model.specs.Zones.{zones_with, bend_ranges, bend_ranges_from};
ghost use Rattle.midi_model.specs.Music.{asks, channels_after, zones_after};
ghost use Rattle.midi_model.specs.Sysex.{Plays};
ghost use Rattle.receiver.specs.Turns.{turned_by_control, acted, applied, selected_by, begins_by, ranged_at};
ghost use Rattle.receiver.specs.Zones.{zones_in};
ghost use Rattle.receiver.specs.Following.{NotesStay, SlotsBecome, SameBesideStates};
ghost use Rattle.receiver.specs.Stands.{HasRoom, states_of, selected_in, set_up_of};

use crate::player::Player;
use crate::role::Selected;
use crate::strokes::channel_number;
use mt_base::{Channel, Msg};

// What a message does to the channels and the zones, before the notes end that nothing holds.
impl Player {
    /// How many members a controller asks a zone for, which is the lower one on the first channel
    /// and the upper one on the last. More than 15 count as 15.
    fn asked(&self, channel: Channel, number: u8, value: u8) -> Option<u8>
        ensures asked { option_map (λ n. (channel, n)) result
            ≡ asks (set_up_of self.now) (Control channel number value) }
        ensures few { IfSome result (λ n. n ≤ 15) }
        ensures place { is_some result ≡ true → (channel ≡ 0) ⊎ (channel ≡ 15) }
    {
        let place = channel.number();
        if number != 6 || (place != 0 && place != 15) {
            return None;
        }
        match self.channels[place as usize].state.target() {
            Selected::Zone => Some(if value < 15 { value } else { 15 }),
            _ => None,
        }
    }

    /// The bend sensitivity that setting a zone gives a channel: 2 semitones to its master, 48 to a
    /// member.
    fn give_range(&mut self, master: Channel, channel: Channel)
        ensures notes { NotesStay self.old self.new }
        ensures states { states_of self.new
            ≡ ranged_at (zones_in self.old.zones) master channel (states_of self.old) }
        ensures rest { SameBesideStates self.old self.new }
    {
        let place = channel.number();
        let owner = master.number();
        if place == owner {
            self.channels[place as usize].bend_range(2);
        } else if self.zones.governor(channel) == owner {
            self.channels[place as usize].bend_range(48);
        }
    }

    /// The bend sensitivities that setting a zone gives.
    fn give_ranges(&mut self, master: Channel)
        ensures notes { NotesStay self.old self.new }
        ensures states { states_of self.new
            ≡ bend_ranges_from (zones_in self.old.zones) master 0 (states_of self.old) }
        ensures rest { SameBesideStates self.old self.new }
    {
        for number in 0..16u8 {
            self.give_range(master, Channel::at(number));
        }
    }

    /// Sets a zone, or switches it off.
    fn set_zone(&mut self, master: Channel, members: u8)
        requires few { members ≤ 15 }
        requires place { (master ≡ 0) ⊎ (master ≡ 15) }
        ensures notes { NotesStay self.old self.new }
        ensures states { states_of self.new
            ≡ bend_ranges (Some (master, members)) (zones_in self.new.zones) (states_of self.old) }
        ensures selected { selected_in self.new ≡ selected_in self.old }
        ensures zones { zones_in self.new.zones
            ≡ zones_with (Some (master, members)) (zones_in self.old.zones) }
        ensures begun { self.new.begun ≡ self.old.begun }
    {
        self.zones.set(master.number() == 0, members);
        if members > 0 {
            self.give_ranges(master);
        }
    }

    /// A message as far as it changes the state of its own channel.
    fn apply(&mut self, message: &Msg)
        requires valid { IsValidMsg message.now }
        requires room { HasRoom self.old (Says message.now) }
        ensures notes { NotesStay self.old self.new }
        ensures states { states_of self.new ≡ applied (states_of self.old) message.now }
        ensures selected { selected_in self.new
            ≡ selected_by (set_up_of self.old) (Plays message.now) (selected_in self.old) }
        ensures zones { self.new.zones ≡ self.old.zones }
        ensures begun { self.new.begun ≡ self.old.begun }
    {
        self.channels[channel_number(message) as usize].apply(message);
    }

    /// A controller: the message, and what it has.
    fn control(&mut self, tick: u32, message: &Msg, channel: Channel, number: u8, value: u8)
        requires same { message.now ≡ Control channel number value }
        requires valid { IsValidMsg (Control channel number value) }
        requires room { HasRoom self.old (Says (Control channel number value)) }
        ensures notes { SlotsBecome
            (turned_by_control (set_up_of self.old) tick channel number value)
            self.old self.new }
        ensures states { states_of self.new
            ≡ channels_after (set_up_of self.old) (Control channel number value) }
        ensures selected { selected_in self.new
            ≡ selected_by (set_up_of self.old) (Plays (Control channel number value))
            (selected_in self.old) }
        ensures zones { zones_in self.new.zones
            ≡ zones_after (set_up_of self.old) (Control channel number value) }
        ensures begun { self.new.begun ≡ self.old.begun }
    {
        self.turn_notes(channel, number, value, tick);
        let asked = self.asked(channel, number, value);
        self.apply(message);
        if let Some(members) = asked {
            self.set_zone(channel, members);
        }
    }

    /// A message, before the notes end that nothing holds.
    pub(crate) fn act(&mut self, tick: u32, message: &Msg)
        requires valid { IsValidMsg message.now }
        requires room { HasRoom self.old (Says message.now) }
        requires few { self.old.begun < 4294967295 }
        ensures notes { SlotsBecome
            (acted (set_up_of self.old) (self.old.begun + 1) tick message.now)
            self.old self.new }
        ensures states { states_of self.new ≡ channels_after (set_up_of self.old) message.now }
        ensures selected { selected_in self.new
            ≡ selected_by (set_up_of self.old) (Plays message.now) (selected_in self.old) }
        ensures zones { zones_in self.new.zones ≡ zones_after (set_up_of self.old) message.now }
        ensures begun { self.new.begun
            ≡ (if begins_by message.now then self.old.begun + 1 else self.old.begun) }
    {
        let channel = message.channel();
        match *message {
            Msg::NoteOn { key, velocity, .. } => {
                if velocity == 0 {
                    self.release(channel, key, tick, 64);
                } else {
                    self.strike(channel, key, tick, velocity);
                }
            }
            Msg::NoteOff { key, velocity, .. } => self.release(channel, key, tick, velocity),
            Msg::KeyPressure { key, value, .. } => self.press(channel, key, value),
            Msg::Control { number, value, .. } => self.control(
                tick, message, channel, number, value,
            ),
            Msg::Program { .. } => self.apply(message),
            Msg::Pressure { .. } => self.apply(message),
            Msg::Bend { .. } => self.apply(message),
        }
    }
}
