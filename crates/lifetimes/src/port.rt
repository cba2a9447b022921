ghost use Rattle.std.specs.Prelude.{replicate, ◌≡◌, ◌≢◌, ◌≤◌, ◌<◌, ◌+◌, ℕ, ℤ, Bool, slice_index, length, List, [], true, false, None, Some, IfSome, OnOk};
ghost use Rattle.mt_base.specs.Midi.{MidiEvent, view_what};
ghost use Rattle.mt_base.specs.Valid.{IsValidWhat};
ghost use Rattle.midi_model.specs.Sysex.{doing};
ghost use Rattle.retune_model.specs.Options.{Options};
ghost use Rattle.retune_model.specs.Faults.{Targets};
ghost use Rattle.receiver.specs.Notes.{has};
ghost use Rattle.receiver.specs.Reach.{spares};
ghost use Rattle.receiver.specs.Stands.{begun_in, HasRoom};
ghost use Rattle.lifetimes.specs.OnePart.{PartEnds, PartForgets};
ghost use Rattle.lifetimes.specs.Port.{ListsAll, IsKept, HasPlace, EachPart, Begins, Takes, struck_in, listed_in, rests_in, is_reset_of};
ghost use Rattle.lifetimes.specs.Resting.{end_kept};
ghost use Rattle.lifetimes.specs.Stands.{PortStands};

use crate::change::Begun;
use crate::notes::{Notes, Struck, sounding_of};
use crate::tracks::is_message;
use key_pitch::Aim;
use mt_base::{Channel, Memory, Pair, Part, What};
use mts_msg::is_reset;
use receiver::{Ends, Player, is_wide};
use std::alloc::Global;
use std::collections::VecDeque;

/// A note sounds on each key of each channel.
const MOST_SOUNDING: usize = 16 * 128;

/// The end of a note of a pair, at a tick.
#[derive(Clone, Copy, Debug)]
pub(crate) struct Ended {
    pub channel: Channel,
    pub steps: i32,
    pub tick: u32,
}

/// A note on of a retuned part, with its target.
#[derive(Clone, Copy, Debug)]
pub(crate) struct Strike {
    pub channel: Channel,
    pub key: u8,
    pub target: Aim,
}

/// What a port plays.
#[derive(Drop)]
pub(crate) struct Port {
    pub number: u8,
    pub player: Player,
    pub parts: [Notes; 16],
    /// The ends of notes that rest, in the order in which they came. They say when a rest is to be
    /// forgotten, and nothing else.
    pub ends: VecDeque<Ended>,
}

impl Port {
    /// A port before any event.
    pub fn new(alloc: Global) -> Port
        ensures stands { (o : Options) (table : Targets) → PortStands o table [] result }
        ensures kept { (tail : ℕ) → IsKept tail result }
        ensures begun { begun_in result.player ≡ 0 }
    {
        Port {
            number: 0,
            player: Player::new(),
            parts: [
                Notes::new(alloc),
                Notes::new(alloc),
                Notes::new(alloc),
                Notes::new(alloc),
                Notes::new(alloc),
                Notes::new(alloc),
                Notes::new(alloc),
                Notes::new(alloc),
                Notes::new(alloc),
                Notes::new(alloc),
                Notes::new(alloc),
                Notes::new(alloc),
                Notes::new(alloc),
                Notes::new(alloc),
                Notes::new(alloc),
                Notes::new(alloc),
            ],
            ends: VecDeque::new(alloc),
        }
    }

    /// The notes of a channel.
    pub fn notes(&self, channel: Channel) -> &Notes
        ensures struck { result.now.struck ≡ struck_in self.now channel }
        ensures listed { result.now.sounding.items ≡ listed_in self.now channel }
        ensures rests { result.now.rests.items.items ≡ rests_in self.now channel }
    {
        &self.parts[channel.number() as usize]
    }

    /// Makes room for the rest of a note that will begin.
    pub fn admit(&mut self, strike: &Strike) -> Result<(), Memory>
        ensures number { self.new.number ≡ self.old.number }
        ensures player { self.new.player ≡ self.old.player }
        ensures struck { (c : ℕ) → c < 16 → struck_in self.new c ≡ struck_in self.old c }
        ensures listed { (c : ℕ) → c < 16 → listed_in self.new c ≡ listed_in self.old c }
        ensures rests { (c : ℕ) (q : ℤ) → c < 16
            → end_kept (rests_in self.new c) q ≡ end_kept (rests_in self.old c) q }
        ensures kept { (tail : ℕ) → IsKept tail self.old → IsKept tail self.new }
        ensures place { OnOk result ((tail : ℕ) → HasPlace tail self.new (Some strike.now)) }
    {
        self.ends.reserve(MOST_SOUNDING).map_err(|_| Memory)?;
        self.parts[strike.channel.number() as usize].admit(
            sounding_of(strike.key, strike.target).steps,
        )
    }

    /// The notes ended that bits of the masks stand for.
    fn end_all(&mut self, ends: &Ends, tick: u32, tail: u32)
        requires { IsKept tail self.old }
        ensures number { self.new.number ≡ self.old.number }
        ensures player { self.new.player ≡ self.old.player }
        ensures many { length self.new.parts ≡ 16 }
        ensures parts { EachPart (λ c. PartEnds false (has (slice_index ends.now.keys c)) tick tail)
            self.old self.new }
    {
        for place in 0..16 {
            let channel = Channel::at(place);
            self.parts[place as usize].end_all(
                ends.keys[place as usize],
                channel,
                tick,
                tail,
                &mut self.ends,
            );
        }
    }

    /// The notes of one channel ended that bits of its mask stand for; no other mask has a bit.
    fn end_here(&mut self, channel: Channel, ends: &Ends, tick: u32, tail: u32)
        requires kept { IsKept tail self.old }
        requires others { (c k : ℕ) → c < 16 → k < 128 → c ≢ channel
            → has (slice_index ends.now.keys c) k ≡ false }
        ensures number { self.new.number ≡ self.old.number }
        ensures player { self.new.player ≡ self.old.player }
        ensures many { length self.new.parts ≡ 16 }
        ensures parts { EachPart (λ c. PartEnds false (has (slice_index ends.now.keys c)) tick tail)
            self.old self.new }
    {
        let place = channel.number() as usize;
        self.parts[place].end_all(ends.keys[place], channel, tick, tail, &mut self.ends);
    }

    /// All notes ended, and none rests.
    fn clear(&mut self)
        ensures number { self.new.number ≡ self.old.number }
        ensures player { self.new.player ≡ self.old.player }
        ensures many { length self.new.parts ≡ 16 }
        ensures parts { (which : ℕ → ℕ → Bool) (tick tail : ℕ)
            → EachPart (λ c. PartEnds true (which c) tick tail) self.old self.new }
    {
        for place in 0..16 {
            self.parts[place].clear();
        }
        self.ends.clear();
    }

    /// The notes ended that an event ends.
    fn let_go(&mut self, what: &What<'_>, ends: &Ends, tick: u32, tail: u32)
        requires kept { IsKept tail self.old }
        requires spared { (c k : ℕ) → c < 16 → k < 128 → spares (doing (view_what what.now)) c ≡ true
            → has (slice_index ends.now.keys c) k ≡ false }
        ensures number { self.new.number ≡ self.old.number }
        ensures player { self.new.player ≡ self.old.player }
        ensures many { length self.new.parts ≡ 16 }
        ensures parts { EachPart (λ c. PartEnds (is_reset_of (view_what what.now))
            (has (slice_index ends.now.keys c)) tick tail) self.old self.new }
    {
        if let Some(channel) = own_channel(what) {
            self.end_here(channel, ends, tick, tail);
        } else if is_message(what) {
            self.end_all(ends, tick, tail);
        } else if resets(what) {
            self.clear();
        }
    }

    /// A note begins on a key on which none sounds.
    fn strike(&mut self, strike: &Strike, note: u32)
        requires { strike.now.key < 128 }
        ensures { Begins (Some strike.now) note self.old self.new }
    {
        let struck = Struck {
            note,
            target: strike.target,
        };
        self.parts[strike.channel.number() as usize].begin(strike.key, struck);
    }

    /// The note begins that an event begins.
    fn begin(&mut self, strike: &Option<Strike>, note: u32)
        requires { IfSome strike.now (λ s. s.key < 128) }
        ensures { Begins strike.now note self.old self.new }
    {
        if let Some(strike) = strike {
            self.strike(strike, note);
        }
    }

    /// Forgets the rests that have run out.
    fn run_out(&mut self, tick: u32, tail: u32)
        ensures number { self.new.number ≡ self.old.number }
        ensures player { self.new.player ≡ self.old.player }
        ensures many { length self.new.parts ≡ 16 }
        ensures parts { EachPart (λ c. PartForgets tick tail) self.old self.new }
    {
        while let Some(
            &Ended {
                channel,
                steps,
                tick: end,
            },
        ) = self.ends.front()
        {
            if (tick as u64) < end as u64 + tail as u64 {
                break;
            }
            self.ends.pop_front();
            self.parts[channel.number() as usize].run_out(steps, end);
        }
    }

    /// Takes an event, and sets the bits of the notes that ended by it; no bit is set before. `strike`
    /// is the note that it begins, and `note` the place of that note among all retuned notes.
    pub fn step(
        &mut self,
        tick: u32,
        what: &What<'_>,
        tail: u32,
        strike: &Option<Strike>,
        note: u32,
        ends: &mut Ends,
    )
        requires valid { IsValidWhat (view_what what.now) }
        requires key { IfSome strike.now (λ s. s.key < 128) }
        requires room { HasRoom self.old.player (view_what what.now) }
        requires few { begun_in self.old.player < 4294967295 }
        requires kept { IsKept tail self.old }
        requires place { HasPlace tail self.old strike.now }
        requires alone { is_reset_of (view_what what.now) ≡ true → strike.now ≡ None }
        requires clear { ends.old.keys ≡ replicate 16 0 }
        ensures takes { Takes tail tick (view_what what.now) strike.now note self.old ends.new self.new }
        ensures kept { IsKept tail self.new }
        ensures begun { begun_in self.new.player ≤ begun_in self.old.player + 1 }
    {
        self.player.step_into(tick, what, ends);
        self.let_go(what, ends, tick, tail);
        self.begin(strike, note);
        // The pair of a note that begins stays, also where its rest runs out at this very tick.
        self.run_out(tick, tail);
    }
}

/// Whether an event is a reset.
fn resets(what: &What<'_>) -> bool
    ensures { result ≡ is_reset_of (view_what what.now) }
{
    match *what {
        What::Sysex { lead, bytes } => lead == 0xf0 && is_reset(bytes),
        What::Message(_) | What::Meta { .. } => false,
    }
}

/// The channel of a message that ends notes of no other.
fn own_channel(what: &What<'_>) -> Option<Channel>
    ensures spares { IfSome result (λ c. (d : ℕ) → d ≢ c → spares (doing (view_what what.now)) d ≡ true) }
    ensures no_reset { IfSome result (λ c. is_reset_of (view_what what.now) ≡ false) }
{
    match *what {
        What::Message(ref message) if !is_wide(message) => Some(message.channel()),
        _ => None,
    }
}
