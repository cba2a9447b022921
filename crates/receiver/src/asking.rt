ghost use Rattle.std.specs.Prelude.{◌≡◌, ◌≤◌, ◌^◌, ◌≤ℤ◌, List, ℕ, pos, neg_ℤ};
ghost use Rattle.std.specs.Option.{option_map};
ghost use Rattle.mt_base.specs.Midi.{MidiEvent};
ghost use Rattle.midi_model.specs.Zones.{master};
ghost use Rattle.midi_model.specs.Music.{channel_at, key_pressures};
ghost use Rattle.midi_model.specs.Receiver.{after};
ghost use Rattle.midi_model.specs.Tuning.{selected_of};
ghost use Rattle.midi_model.specs.Played.{bends};
ghost use Rattle.receiver.specs.State.{own_of};
ghost use Rattle.receiver.specs.Heard.{told};
ghost use Rattle.receiver.specs.Sounding.{sounding_at};
ghost use Rattle.receiver.specs.Stands.{PlayerStands};

use crate::note::Note;
use crate::player::Player;
use crate::state::ChannelState;
use mt_base::Channel;

// What can be asked of a player.
impl Player {
    /// The note that sounds on a key, 0 to 127.
    pub fn sounding(&self, channel: Channel, key: u8) -> Option<Note>
        requires { key ≤ 127 }
        ensures { (es : List MidiEvent) → PlayerStands self.now es
            → result ≡ option_map told (sounding_at (after es).music.notes channel key) }
    {
        self.channels[channel.number() as usize].keys.note(key)
    }

    /// The bends of a channel's notes, in grains: its own, and for a zone's member its master's
    /// too.
    pub(crate) fn bends(&self, channel: Channel) -> i128
        ensures bends { (es : List MidiEvent) → PlayerStands self.now es
            → result ≡ bends (after es) channel (master (after es).music.zones channel) }
        ensures low { neg_ℤ (pos (2 ^ 65)) ≤ℤ result }
        ensures high { result ≤ℤ pos (2 ^ 65) }
    {
        let own = self.channels[channel.number() as usize].state.bent();
        match self.zones.master(channel) {
            Some(master) => own + self.channels[master.number() as usize].state.bent(),
            None => own,
        }
    }

    /// The state of a channel, with the pressures of its keys and its tuning program.
    pub fn state(&self, channel: Channel) -> &ChannelState
        ensures own { (es : List MidiEvent) → PlayerStands self.now es → own_of result.now
            ≡ channel_at (after es).music channel }
        ensures keys { (es : List MidiEvent) → PlayerStands self.now es
            → result.now.keys.items ≡ key_pressures (after es).music.notes channel 0 128 }
        ensures tuning { (es : List MidiEvent) → PlayerStands self.now es → result.now.tuning
            ≡ selected_of (after es).tuning channel }
    {
        let state = &self.channels[channel.number() as usize].state;
        // The list of the pressures is as long as the table.
        let _keys = state.keys.len();
        state
    }

    /// The master of the zone of which a channel is a member.
    pub fn master(&self, channel: Channel) -> Option<Channel>
        ensures { (es : List MidiEvent) → PlayerStands self.now es → result
            ≡ master (after es).music.zones channel }
    {
        self.zones.master(channel)
    }
}
