ghost use Rattle.std.specs.Prelude.{◌≡◌, ◌<◌, ◌≤◌, ◌↔◌, ◌++◌, ◌+◌, [], ◌∷◌, ℕ, List, IsTrue};
ghost use Rattle.std.specs.Option.{option_map};
ghost use Rattle.mt_base.specs.Valid.{IsValidWhat};
ghost use Rattle.mt_base.specs.Midi.{MidiEvent, view_what};
ghost use Rattle.midi_model.specs.Zones.{master};
ghost use Rattle.midi_model.specs.Music.{channel_at, key_pressures};
ghost use Rattle.midi_model.specs.Receiver.{after};
ghost use Rattle.midi_model.specs.Tuning.{selected_of};
ghost use Rattle.receiver.specs.State.{own_of};
ghost use Rattle.receiver.specs.Heard.{told};
ghost use Rattle.receiver.specs.Sounding.{sounding_at, played_at};
ghost use Rattle.receiver.specs.Stands.{Stands, HasRoom, TellsEnded, AreFew, player_of, begun_in};

use crate::ends::Ends;
use crate::note::Note;
use crate::pitch::by_program;
use crate::player::Player;
use crate::state::ChannelState;
use crate::tunings::Tunings;
use mt_base::{Channel, Grain, What};

/// A receiver of MIDI events, in two parts: the music, and the tuning programs. Only the pitch that
/// is played joins the two.
#[derive(Drop)]
pub struct Receiver {
    pub(crate) player: Player,
    pub(crate) tunings: Tunings,
}

impl Receiver {
    /// A receiver before any event: all channels have their defaults, and nothing sounds.
    pub fn new() -> Receiver
        ensures stands { Stands result [] }
        ensures begun { begun_in (player_of result) ≡ 0 }
    {
        Receiver {
            player: Player::new(),
            tunings: Tunings::new(),
        }
    }

    /// Whether an event leaves each channel with at most 16 parameters that count.
    pub fn room(&self, what: &What<'_>) -> bool
        requires valid { IsValidWhat (view_what what.now) }
        ensures own { IsTrue result ↔ HasRoom (player_of self.now) (view_what what.now) }
        ensures all { (es : List MidiEvent) (e : MidiEvent)
            → Stands self.now es → e.what ≡ view_what what.now
            → IsTrue result ↔ AreFew (after (es ++ e ∷ [])).music }
    {
        self.player.room(what)
    }

    /// Takes an event at its tick, and tells which notes ended by it. The event has room, and fewer
    /// than 4,294,967,295 notes began before it.
    pub fn step(&mut self, tick: u32, what: &What<'_>) -> Ends
        requires valid { IsValidWhat (view_what what.now) }
        requires room { HasRoom (player_of self.old) (view_what what.now) }
        requires few { begun_in (player_of self.old) < 4294967295 }
        ensures stands { (es : List MidiEvent) (e : MidiEvent) → Stands self.old es
            → e.tick ≡ tick → e.what ≡ view_what what.now → Stands self.new (es ++ e ∷ []) }
        ensures ends { (es : List MidiEvent) (e : MidiEvent) → Stands self.old es
            → e.tick ≡ tick → e.what ≡ view_what what.now
            → TellsEnded result (after es).music.notes (after (es ++ e ∷ [])).music.notes }
        ensures begun { begun_in (player_of self.new) ≤ begun_in (player_of self.old) + 1 }
    {
        let ends = self.player.step(tick, what);
        self.tunings.hear(what);
        ends
    }

    /// The note that sounds on a key, 0 to 127.
    pub fn sounding(&self, channel: Channel, key: u8) -> Option<Note>
        requires { key ≤ 127 }
        ensures { (es : List MidiEvent) → Stands self.now es
            → result ≡ option_map told (sounding_at (after es).music.notes channel key) }
    {
        self.player.sounding(channel, key)
    }

    /// The pitch of the note that sounds on a key, 0 to 127, in grains above key 0.
    pub fn played(&self, channel: Channel, key: u8) -> Option<Grain>
        requires { key ≤ 127 }
        ensures { (es : List MidiEvent) → Stands self.now es
            → option_map (λ g. g.0) result ≡ played_at (after es) channel key }
    {
        let player = &self.player;
        if !player.channels[channel.number() as usize]
            .keys
            .is_sounding(key)
        {
            return None;
        }
        let governor = &player.channels[player.zones.governor(channel) as usize].state;
        let tuned = by_program(&self.tunings, governor.tuning, key);
        Some(Grain(tuned + governor.fine() + governor.coarse() + player.bends(channel)))
    }

    /// The state of a channel, with the pressures of its keys and its tuning program.
    pub fn state(&self, channel: Channel) -> &ChannelState
        ensures own { (es : List MidiEvent) → Stands self.now es → own_of result.now
            ≡ channel_at (after es).music channel }
        ensures keys { (es : List MidiEvent) → Stands self.now es
            → result.now.keys.items ≡ key_pressures (after es).music.notes channel 0 128 }
        ensures tuning { (es : List MidiEvent) → Stands self.now es → result.now.tuning
            ≡ selected_of (after es).tuning channel }
    {
        self.player.state(channel)
    }

    /// The master of the zone of which a channel is a member.
    pub fn master(&self, channel: Channel) -> Option<Channel>
        ensures { (es : List MidiEvent) → Stands self.now es → result
            ≡ master (after es).music.zones channel }
    {
        self.player.master(channel)
    }
}
