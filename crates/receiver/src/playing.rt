ghost use Rattle.std.specs.Prelude.{◌≡◌, ◌<◌, ◌≤◌, ℕ, None, Some, nat_eq, if◌then◌else◌, slice_index, IsTrue, ◌↔◌};
ghost use Rattle.receiver.specs.Notes.{note_of, has};

use crate::keys::Keys;
use crate::note::Struck;
use crate::state::ChannelState;
use crate::turn::Turn;
use mt_base::Msg;

/// What one channel plays: its state, and the notes on its keys.
#[derive(Drop)]
pub(crate) struct Playing {
    pub state: ChannelState,
    pub keys: Keys,
    /// A key on which no note sounds has no pressure.
    pub ghost calm: { (k : ℕ) → k < 128 → note_of keys k ≡ None → slice_index state.keys.items k ≡ 0 },
}

impl Playing {
    ghost use Rattle.mt_base.specs.Valid.{IsValidMsg};
    ghost use Rattle.midi_model.specs.Channel.{default_channel, counted, apply};
    ghost use Rattle.midi_model.specs.Notes.{releasing};
    ghost use Rattle.midi_model.specs.Zones.{bend_range};
    ghost use Rattle.receiver.specs.State.{own_of, program_after};
    ghost use Rattle.receiver.specs.Heard.{heard, SameState, IsSilent, HeardStay, HeardBecome, HeardAt, begins_as, pressed, taken, let_go, without_pedal, turned_by};

    /// A channel at its defaults, on which nothing sounds.
    pub fn new() -> Playing
        ensures heard { IsSilent result }
        ensures own { own_of result.state ≡ default_channel }
        ensures tuning { result.state.tuning ≡ None }
    {
        Playing {
            state: ChannelState::new(),
            keys: Keys::new(),
        }
    }

    /// A key is struck; its pressure is 0 then.
    pub fn strike(&mut self, key: u8, struck: Struck)
        requires { key < 128 }
        ensures heard { (c k : ℕ) → k < 128 → heard c self.new k
            ≡ (if nat_eq k key then Some (struck.number, begins_as c key struck)
            else heard c self.old k) }
        ensures state { SameState self.old self.new }
    {
        self.state.press(key, 0);
        self.keys.strike(key, struck);
    }

    /// A key goes up, where it is down.
    pub fn release(&mut self, key: u8, tick: u32, velocity: u8)
        requires { key < 128 }
        ensures heard { HeardAt key (releasing tick velocity) self.old self.new }
        ensures state { SameState self.old self.new }
    {
        self.keys.release(key, tick, velocity);
    }

    /// All keys that are down go up.
    pub fn release_all(&mut self, tick: u32)
        ensures heard { HeardBecome (releasing tick 64) self.old self.new }
        ensures state { SameState self.old self.new }
    {
        self.keys.release_all(tick, 64);
    }

    /// The pressure of a key that sounds.
    pub fn press(&mut self, key: u8, value: u8)
        requires key { key < 128 }
        requires value { value ≤ 127 }
        ensures heard { HeardAt key (pressed value) self.old self.new }
        ensures state { SameState self.old self.new }
    {
        if self.keys.is_sounding(key) {
            self.state.press(key, value);
        }
    }

    /// The pressures of all keys are 0.
    pub fn relax(&mut self)
        ensures heard { HeardBecome (pressed 0) self.old self.new }
        ensures state { SameState self.old self.new }
    {
        self.state.relax(u128::MAX);
    }

    /// The sostenuto pedal takes the notes whose keys are down.
    pub fn capture(&mut self)
        ensures heard { HeardBecome taken self.old self.new }
        ensures state { SameState self.old self.new }
    {
        self.keys.capture();
    }

    /// The sostenuto pedal holds no note any more.
    pub fn free(&mut self)
        ensures heard { HeardBecome let_go self.old self.new }
        ensures state { SameState self.old self.new }
    {
        self.keys.free();
    }

    /// The notes of these keys end.
    fn end(&mut self, which: u128)
        ensures heard { (c k : ℕ) → k < 128 → heard c self.new k
            ≡ (if has which k then None else heard c self.old k) }
        ensures state { SameState self.old self.new }
    {
        self.state.relax(which);
        self.keys.end(which);
    }

    /// All notes end.
    pub fn silence(&mut self)
        ensures heard { IsSilent self.new }
        ensures state { SameState self.old self.new }
    {
        self.end(u128::MAX);
    }

    /// What a controller does to its notes.
    pub fn turn(&mut self, turn: Turn, tick: u32)
        ensures heard { HeardBecome (turned_by turn tick) self.old self.new }
        ensures state { SameState self.old self.new }
    {
        match turn {
            Turn::SoundOff => self.silence(),
            Turn::NotesOff => self.release_all(tick),
            Turn::Capture => self.capture(),
            Turn::Free => self.free(),
        }
    }

    /// A reset: nothing sounds, and all has its defaults.
    pub fn reset(&mut self)
        ensures heard { IsSilent self.new }
        ensures own { own_of self.new.state ≡ default_channel }
        ensures tuning { self.new.state.tuning ≡ None }
    {
        self.state = ChannelState::new();
        self.keys.end(u128::MAX);
    }

    /// The notes end that only the hold pedal could hold.
    pub fn lift_pedal(&mut self)
        ensures heard { (c k : ℕ) → k < 128
            → heard c self.new k ≡ without_pedal (heard c self.old k) }
        ensures state { SameState self.old self.new }
    {
        let loose = self.keys.loose();
        if loose != 0 {
            self.end(loose);
        }
    }

    /// A message to this channel, as far as it changes the state.
    pub fn apply(&mut self, message: &Msg)
        requires valid { IsValidMsg message.now }
        requires room { counted (apply (own_of self.old.state) message.now) ≤ 16 }
        ensures heard { HeardStay self.old self.new }
        ensures own { own_of self.new.state ≡ apply (own_of self.old.state) message.now }
        ensures tuning { self.new.state.tuning
            ≡ program_after (own_of self.old.state) message.now self.old.state.tuning }
    {
        self.state.apply(*message);
    }

    /// Whether a message to this channel leaves at most 16 parameters that count.
    pub fn room(&self, message: &Msg) -> bool
        requires { IsValidMsg message.now }
        ensures { IsTrue result ↔ (counted (apply (own_of self.now.state) message.now) ≤ 16) }
    {
        self.state.room(*message)
    }

    /// The bend sensitivity in semitones.
    pub fn bend_range(&mut self, semitones: u8)
        requires { semitones ≤ 127 }
        ensures heard { HeardStay self.old self.new }
        ensures own { own_of self.new.state ≡ bend_range semitones (own_of self.old.state) }
        ensures tuning { self.new.state.tuning ≡ self.old.state.tuning }
    {
        self.state.bend_range(semitones);
    }
}
