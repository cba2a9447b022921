ghost use Rattle.std.specs.Prelude.{◌≡◌, ℕ};
ghost use Rattle.mt_base.specs.Midi.{view_what};
ghost use Rattle.midi_model.specs.Sysex.{doing};
ghost use Rattle.receiver.specs.Reach.{is_silent};

use crate::ends::Ends;
use crate::playing::Playing;
use crate::strokes::{channel_number, struck_by};
use crate::zones::ZoneSizes;
use midi_model::{music_laws, receiver_laws};
use mt_base::{Msg, What};
use mts_msg::is_reset;

/// The music of a receiver of MIDI events: sixteen channels, the notes that sound on them and the
/// zones of MIDI Polyphonic Expression. It never looks at the tuning programs, so it holds none; it
/// knows which one each channel has selected.
#[derive(Drop)]
pub struct Player {
    pub(crate) channels: [Playing; 16],
    pub(crate) zones: ZoneSizes,
    /// How many notes began.
    pub(crate) begun: u32,
}

/// Whether an event does nothing to the music: it is a meta event, or a system exclusive message that is
/// no reset.
fn is_silent(what: &What<'_>) -> bool
    ensures { result ≡ is_silent (doing (view_what what.now)) }
{
    match *what {
        What::Message(_) => false,
        What::Sysex { lead, bytes } => lead != 0xf0 || !is_reset(bytes),
        What::Meta { .. } => true,
    }
}

// What an event does, as a whole.
impl Player {
    ghost use Rattle.std.specs.Prelude.{◌<◌, ◌≤◌, ◌↔◌, ◌++◌, ◌+◌, [], ◌∷◌, List, None, ◌&&◌, ◌||◌, not, is_some, true, false, replicate, slice_index, IsTrue};
    ghost use Rattle.mt_base.specs.Valid.{IsValidMsg, IsValidWhat};
    ghost use Rattle.mt_base.specs.Midi.{MidiEvent, Says, SysexOf};
    ghost use Rattle.midi_model.specs.Channel.{default_channel};
    ghost use Rattle.midi_model.specs.Zones.{no_zones};
    ghost use Rattle.midi_model.specs.Sysex.{Plays, doing};
    ghost use Rattle.midi_model.specs.Receiver.{after};
    ghost use Rattle.receiver.specs.Notes.{has};
    ghost use Rattle.receiver.specs.Turns.{strikes};
    ghost use Rattle.receiver.specs.Zones.{zones_in};
    ghost use Rattle.receiver.specs.Following.{FollowsBy, NothingSounds};
    ghost use Rattle.receiver.specs.Reach.{spares, TellsBy};
    ghost use Rattle.receiver.specs.Stands.{PlayerStands, HasRoom, TellsEnded, states_of, selected_in, slot, begun_in, AreFew};

    /// A player before any event: all channels have their defaults, and nothing sounds.
    pub fn new() -> Player
        ensures stands { PlayerStands result [] }
        ensures begun { begun_in result ≡ 0 }
    {
        Player {
            channels: [
                Playing::new(),
                Playing::new(),
                Playing::new(),
                Playing::new(),
                Playing::new(),
                Playing::new(),
                Playing::new(),
                Playing::new(),
                Playing::new(),
                Playing::new(),
                Playing::new(),
                Playing::new(),
                Playing::new(),
                Playing::new(),
                Playing::new(),
                Playing::new(),
            ],
            zones: ZoneSizes { lower: 0, upper: 0 },
            begun: 0,
        }
    }

    /// A reset: all is as before any event, but that notes began.
    fn reset(&mut self)
        ensures notes { NothingSounds self.new }
        ensures states { states_of self.new ≡ replicate 16 default_channel }
        ensures selected { selected_in self.new ≡ replicate 16 None }
        ensures zones { zones_in self.new.zones ≡ no_zones }
        ensures begun { self.new.begun ≡ self.old.begun }
    {
        for channel in 0..16 {
            self.channels[channel].reset();
        }
        self.zones = ZoneSizes { lower: 0, upper: 0 };
    }

    /// A message: what it does, and then the notes end that nothing holds.
    fn play(&mut self, tick: u32, message: &Msg)
        requires valid { IsValidMsg message.now }
        requires room { HasRoom self.old (Says message.now) }
        requires few { self.old.begun < 4294967295 }
        ensures { FollowsBy self.old tick (Plays message.now) self.new }
    {
        self.act(tick, message);
        self.settle();
    }

    /// A system exclusive message by its bytes after F0: a reset, or nothing for the music.
    fn system(&mut self, bytes: &[u8])
        ensures { (tick : ℕ) → FollowsBy self.old tick (doing (SysexOf 240 bytes.now)) self.new }
    {
        if is_reset(bytes) {
            self.reset();
        }
    }

    /// What an event does.
    fn follow(&mut self, tick: u32, what: &What<'_>)
        requires valid { IsValidWhat (view_what what.now) }
        requires room { HasRoom self.old (view_what what.now) }
        requires few { self.old.begun < 4294967295 }
        ensures { FollowsBy self.old tick (doing (view_what what.now)) self.new }
    {
        match *what {
            What::Message(ref message) => self.play(tick, message),
            What::Sysex { lead, bytes } => {
                if lead == 0xf0 {
                    self.system(bytes);
                }
            }
            What::Meta { .. } => {}
        }
    }

    /// The keys of each channel on which a note sounds.
    fn sounding_keys(&self) -> [u128; 16]
        ensures { (c k : ℕ) → c < 16 → k < 128 → has (slice_index result c) k
            ≡ is_some (slot self.now c k) }
    {
        let mut keys = [0; 16];
        for channel in 0..16 {
            keys[channel] = self.channels[channel].keys.sounding();
        }
        keys
    }

    /// The keys whose notes ended: those that sounded before, and don't now or were struck again.
    fn ended(&self, before: [u128; 16], what: &What<'_>) -> Ends
        requires { IsValidWhat (view_what what.now) }
        ensures { (c k : ℕ) → c < 16 → k < 128 → has (slice_index result.keys c) k
            ≡ (has (slice_index before c) k
            && (strikes (doing (view_what what.now)) c k || not (is_some (slot self.now c k)))) }
    {
        let now = self.sounding_keys();
        let mut keys = [0; 16];
        for channel in 0..16 {
            keys[channel] = before[channel] & (!now[channel] | struck_by(what, channel as u8));
        }
        Ends { keys }
    }

    /// Whether an event leaves each channel with at most 16 parameters that count.
    pub fn room(&self, what: &What<'_>) -> bool
        requires valid { IsValidWhat (view_what what.now) }
        ensures own { IsTrue result ↔ HasRoom self.now (view_what what.now) }
        ensures all { (es : List MidiEvent) (e : MidiEvent)
            → PlayerStands self.now es → e.what ≡ view_what what.now
            → IsTrue result ↔ AreFew (after (es ++ e ∷ [])).music }
    {
        match *what {
            What::Message(ref message) => self.channels[channel_number(message) as usize].room(
                message,
            ),
            What::Sysex { .. } | What::Meta { .. } => true,
        }
    }

    /// An event that may reach all notes, and which of them ended by it; no bit is set before.
    fn step_all(&mut self, tick: u32, what: &What<'_>, ends: &mut Ends)
        requires valid { IsValidWhat (view_what what.now) }
        requires room { HasRoom self.old (view_what what.now) }
        requires few { self.old.begun < 4294967295 }
        requires clear { ends.old.keys ≡ replicate 16 0 }
        ensures follows { FollowsBy self.old tick (doing (view_what what.now)) self.new }
        ensures tells { TellsBy self.old (doing (view_what what.now)) self.new ends.new }
        ensures silent { is_silent (doing (view_what what.now)) ≡ true → ends.new ≡ ends.old }
    {
        if is_silent(what) {
            return;
        }
        let before = self.sounding_keys();
        self.follow(tick, what);
        *ends = self.ended(before, what);
    }

    /// Takes an event at its tick, and sets the bits of the notes that ended by it; no bit is set
    /// before. The event has room, and fewer than 4,294,967,295 notes began before it.
    pub fn step_into(&mut self, tick: u32, what: &What<'_>, ends: &mut Ends)
        requires valid { IsValidWhat (view_what what.now) }
        requires room { HasRoom self.old (view_what what.now) }
        requires few { begun_in self.old < 4294967295 }
        requires clear { ends.old.keys ≡ replicate 16 0 }
        ensures stands { (es : List MidiEvent) (e : MidiEvent) → PlayerStands self.old es
            → e.tick ≡ tick → e.what ≡ view_what what.now → PlayerStands self.new (es ++ e ∷ []) }
        ensures ends { (es : List MidiEvent) (e : MidiEvent) → PlayerStands self.old es
            → e.tick ≡ tick → e.what ≡ view_what what.now
            → TellsEnded ends.new (after es).music.notes (after (es ++ e ∷ [])).music.notes }
        ensures spares { (c k : ℕ) → c < 16 → k < 128 → spares (doing (view_what what.now)) c ≡ true
            → has (slice_index ends.new.keys c) k ≡ false }
        ensures begun { begun_in self.new ≤ begun_in self.old + 1 }
    {
        music_laws();
        receiver_laws();
        match *what {
            What::Message(ref message) if self.is_own(message) => self.step_here(
                tick, message, ends,
            ),
            _ => self.step_all(tick, what, ends),
        }
    }

    /// Takes an event at its tick, and tells which notes ended by it. The event has room, and fewer
    /// than 4,294,967,295 notes began before it.
    pub fn step(&mut self, tick: u32, what: &What<'_>) -> Ends
        requires valid { IsValidWhat (view_what what.now) }
        requires room { HasRoom self.old (view_what what.now) }
        requires few { begun_in self.old < 4294967295 }
        ensures stands { (es : List MidiEvent) (e : MidiEvent) → PlayerStands self.old es
            → e.tick ≡ tick → e.what ≡ view_what what.now → PlayerStands self.new (es ++ e ∷ []) }
        ensures ends { (es : List MidiEvent) (e : MidiEvent) → PlayerStands self.old es
            → e.tick ≡ tick → e.what ≡ view_what what.now
            → TellsEnded result (after es).music.notes (after (es ++ e ∷ [])).music.notes }
        ensures begun { begun_in self.new ≤ begun_in self.old + 1 }
    {
        let mut ends = Ends { keys: [0; 16] };
        self.step_into(tick, what, &mut ends);
        ends
    }
}
