ghost use Rattle.std.specs.Prelude.{◌≡◌, ◌≢◌, ◌<◌, ◌≤◌, ◌+◌, ℕ, true, false, replicate, is_some, slice_index};
ghost use Rattle.mt_base.specs.Midi.{Says, channel_of};
ghost use Rattle.mt_base.specs.Valid.{IsValidMsg};
ghost use Rattle.midi_model.specs.Sysex.{Plays};
ghost use Rattle.receiver.specs.Following.{FollowsBy};
ghost use Rattle.receiver.specs.Notes.{has};
ghost use Rattle.receiver.specs.Reach.{is_wide, is_hold, is_own, IsCalm, TellsBy};
ghost use Rattle.receiver.specs.Stands.{HasRoom, slot};
ghost use Rattle.receiver.specs.Zones.{zones_in};

use crate::ends::Ends;
use crate::player::Player;
use crate::role::{Purpose, purpose_of};
use crate::strokes::{channel_number, key_struck};
use mt_base::Msg;

/// Whether a message may change how notes of other channels than its own are held, or end them.
pub fn is_wide(message: &Msg) -> bool
    ensures { result ≡ is_wide message.now }
{
    match *message {
        Msg::Control { number, .. } => match purpose_of(number) {
            Purpose::Keep => number == 64 || number == 66,
            Purpose::DataEntryMsb | Purpose::SoundOff | Purpose::Reset | Purpose::NotesOff => true,
            _ => false,
        },
        _ => false,
    }
}

/// Whether a message is one of the hold pedal.
fn is_hold(message: &Msg) -> bool
    ensures { result ≡ is_hold message.now }
{
    match *message {
        Msg::Control { number, .. } => number == 64,
        _ => false,
    }
}

// What a message does that reaches the notes of its own channel alone, which most do.
impl Player {
    /// Whether a message does: any that isn't wide, and the hold pedal where no zone is set.
    pub(crate) fn is_own(&self, message: &Msg) -> bool
        ensures { result ≡ is_own (zones_in self.now.zones) message.now }
    {
        !is_wide(message) || (is_hold(message) && self.zones.lower == 0 && self.zones.upper == 0)
    }

    /// The keys of a channel on which a note sounds.
    fn keys_on(&self, place: u8) -> u128
        requires { place < 16 }
        ensures { (k : ℕ) → k < 128 → has result k ≡ is_some (slot self.now place k) }
    {
        self.channels[place as usize].keys.sounding()
    }

    /// What the message does, and then the notes of its channel end that nothing holds.
    fn play_here(&mut self, tick: u32, message: &Msg)
        requires valid { IsValidMsg message.now }
        requires room { HasRoom self.old (Says message.now) }
        requires few { self.old.begun < 4294967295 }
        requires own { is_own (zones_in self.old.zones) message.now ≡ true }
        ensures follows { IsCalm self.old → FollowsBy self.old tick (Plays message.now) self.new }
        ensures elsewhere { (c k : ℕ) → c < 16 → k < 128 → c ≢ channel_of message.now
            → slot self.new c k ≡ slot self.old c k }
        ensures begun { self.new.begun ≤ self.old.begun + 1 }
    {
        self.act(tick, message);
        self.settle_one(message.channel());
    }

    /// The same, with the notes that ended by it. No bit is set before.
    pub(crate) fn step_here(&mut self, tick: u32, message: &Msg, ends: &mut Ends)
        requires valid { IsValidMsg message.now }
        requires room { HasRoom self.old (Says message.now) }
        requires few { self.old.begun < 4294967295 }
        requires own { is_own (zones_in self.old.zones) message.now ≡ true }
        requires clear { ends.old.keys ≡ replicate 16 0 }
        ensures follows { IsCalm self.old → FollowsBy self.old tick (Plays message.now) self.new }
        ensures tells { TellsBy self.old (Plays message.now) self.new ends.new }
        ensures alone { (c k : ℕ) → c < 16 → k < 128 → c ≢ channel_of message.now
            → has (slice_index ends.new.keys c) k ≡ false }
        ensures begun { self.new.begun ≤ self.old.begun + 1 }
    {
        let place = channel_number(message);
        let before = self.keys_on(place);
        self.play_here(tick, message);
        let now = self.keys_on(place);
        ends.keys[place as usize] = before & (!now | key_struck(message, place));
    }
}
