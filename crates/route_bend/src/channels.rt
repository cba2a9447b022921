ghost use Rattle.std.specs.Prelude.{◌≡◌, ◌≢◌, ◌<◌, ◌≤◌, ◌++◌, ℕ, List, [], ◌∷◌, true, false, IfSome, IfNone, OnOk, map, nat_eq, replicate};
ghost use Rattle.mt_base.specs.Midi.{MidiEvent};
ghost use Rattle.midi_model.specs.Channel.{default_state};
ghost use Rattle.retune_model.specs.Options.{bends_notes};
ghost use Rattle.retune_model.specs.Faults.{is_part};
ghost use Rattle.retune_model.specs.Dump.{from_up};
ghost use Rattle.channel_model.specs.Choice.{wanted};
ghost use Rattle.receiver.specs.State.{state_of};
ghost use Rattle.lifetimes.specs.Views.{pair_of};
ghost use Rattle.lifetimes.specs.Stands.{Stands, asked, table_in};
ghost use Rattle.lifetimes.specs.Told.{is_held, music_on};
ghost use Rattle.route_bend.specs.Channels.{is_given, steps_in, is_on, EndBy, Leaves, Renews, Gives, BeginsOn, IsFresh};
ghost use Rattle.route_bend.specs.Channels.{pair_on as pair_in};
ghost use Rattle.route_bend.specs.Sent.{brought, sent, relaxed, begun_on};
ghost use Rattle.route_bend.specs.Single.{LeavesSome, RenewsSome, TakesAway, readied};

use crate::sending::Sending;
use key_pitch::Aims;
use lifetimes::Parts;
use mt_base::{Channel, Memory, Msg, Pair, Part};
use receiver::ChannelState;

/// The channels of one port of the output: the pairs to whose runs they were given last, and the states
/// that they were brought to.
#[derive(Drop)]
pub(crate) struct Channels {
    pub port: u8,
    /// Of each part, the channels that its runs were given: bit c stands for channel c.
    pub given: [u16; 16],
    /// Of each channel, the steps of the pair whose run it was given to.
    pub steps: [i32; 16],
    pub states: [ChannelState; 16],
}

/// Sixteen channels as they are at the start.
fn default_states() -> [ChannelState; 16]
    ensures { map state_of result ≡ replicate 16 default_state }
{
    [
        ChannelState::new(),
        ChannelState::new(),
        ChannelState::new(),
        ChannelState::new(),
        ChannelState::new(),
        ChannelState::new(),
        ChannelState::new(),
        ChannelState::new(),
        ChannelState::new(),
        ChannelState::new(),
        ChannelState::new(),
        ChannelState::new(),
        ChannelState::new(),
        ChannelState::new(),
        ChannelState::new(),
        ChannelState::new(),
    ]
}

/// No key of a channel has a pressure any more.
fn relax(state: &mut ChannelState)
    ensures { state_of state.new ≡ relaxed (state_of state.old) }
{
    state.relax(u128::MAX);
    let _keys = state.keys.len();
}

impl Channels {
    /// The channels of a port before any event.
    pub fn new(port: u8) -> Channels
        ensures port { result.port ≡ port }
        ensures fresh { IsFresh result }
    {
        Channels {
            port,
            given: [0; 16],
            steps: [0; 16],
            states: default_states(),
        }
    }

    /// All is as before any event.
    pub fn reset(&mut self)
        ensures port { self.new.port ≡ self.old.port }
        ensures fresh { IsFresh self.new }
    {
        self.given = [0; 16];
        self.states = default_states();
    }

    /// Whether a channel, 0 to 15, was given to a run of a part last.
    fn is_given(&self, part: Channel, number: u8) -> bool
        requires { number < 16 }
        ensures { result ≡ is_given self.now part number }
    {
        self.given[part.number() as usize] & (1 << number) != 0
    }

    /// The number behind the last channel, 0 to 15, that was given to a run of a part; 0 where there is none.
    fn end(&self, part: Channel) -> u8
        ensures high { result ≤ 16 }
        ensures none { EndBy self.now part result }
    {
        16 - self.given[part.number() as usize].leading_zeros() as u8
    }

    /// The pair of the run that a channel was given to.
    fn pair_on(&self, part: Channel, number: u8) -> Pair
        requires { number < 16 }
        ensures pair { pair_of result ≡ pair_in self.now part number }
        ensures part { result.part.channel ≡ part }
    {
        Pair {
            part: Part {
                port: self.port,
                channel: part,
            },
            steps: self.steps[number as usize],
        }
    }

    /// A channel of a part is let go of, where the run of its pair is over.
    fn leave_one<T: Aims>(&mut self, parts: &Parts<T>, part: Channel, number: u8)
        requires number { number < 16 }
        requires bends { bends_notes (asked parts.now).route ≡ true }
        ensures { (es : List MidiEvent) → Stands (T.table (table_in parts.now)) parts.now es
            → LeavesSome (λ c. nat_eq c number)
            (is_held (asked parts.now) (T.table (table_in parts.now)) es) part
            self.old self.new }
    {
        if self.is_given(part, number) && !parts.holds(&self.pair_on(part, number)) {
            self.given[part.number() as usize] &= !(1 << number);
        }
    }

    /// The channels of a part are let go of on which the runs of their pairs are over.
    pub fn leave<T: Aims>(&mut self, parts: &Parts<T>, part: Channel)
        requires bends { bends_notes (asked parts.now).route ≡ true }
        ensures { (es : List MidiEvent) → Stands (T.table (table_in parts.now)) parts.now es
            → Leaves (is_held (asked parts.now) (T.table (table_in parts.now)) es) part
            self.old self.new }
    {
        for number in 0..self.end(part) {
            self.leave_one(parts, part, number);
        }
    }

    // The state of a channel is large: what makes one is a function of its own, so that a message whose
    // part has no channel doesn't take room for it.

    /// A channel that was given to a run of a part gets the state that its pair needs.
    #[inline(never)]
    fn renew_given<T: Aims>(&mut self, parts: &Parts<T>, part: Channel, number: u8)
        requires number { number < 16 }
        requires bends { bends_notes (asked parts.now).route ≡ true }
        requires part { is_part (asked parts.now) part ≡ true }
        requires given { is_given self.old part number ≡ true }
        ensures { (es : List MidiEvent) → Stands (T.table (table_in parts.now)) parts.now es
            → RenewsSome (λ c. nat_eq c number)
            (wanted (asked parts.now) (T.table (table_in parts.now))
            (music_on self.old.port es)) part self.old self.new }
    {
        let pair = self.pair_on(part, number);
        parts.wanted_into(&pair, &mut self.states[number as usize]);
    }

    /// A channel of a part gets the state that its pair needs, where it was given to one.
    fn renew_one<T: Aims>(&mut self, parts: &Parts<T>, part: Channel, number: u8)
        requires number { number < 16 }
        requires bends { bends_notes (asked parts.now).route ≡ true }
        requires part { is_part (asked parts.now) part ≡ true }
        ensures { (es : List MidiEvent) → Stands (T.table (table_in parts.now)) parts.now es
            → RenewsSome (λ c. nat_eq c number)
            (wanted (asked parts.now) (T.table (table_in parts.now))
            (music_on self.old.port es)) part self.old self.new }
    {
        if self.is_given(part, number) {
            self.renew_given(parts, part, number);
        }
    }

    /// The channels of a part get the states that their pairs need.
    pub fn renew<T: Aims>(&mut self, parts: &Parts<T>, part: Channel)
        requires bends { bends_notes (asked parts.now).route ≡ true }
        requires part { is_part (asked parts.now) part ≡ true }
        ensures { (es : List MidiEvent) → Stands (T.table (table_in parts.now)) parts.now es
            → Renews (wanted (asked parts.now) (T.table (table_in parts.now))
            (music_on self.old.port es)) part self.old self.new }
    {
        for number in 0..self.end(part) {
            self.renew_one(parts, part, number);
        }
    }

    /// A channel that was given to a run of a part is brought to the state that its pair needs.
    #[inline(never)]
    fn bring_given<T: Aims>(
        &mut self,
        parts: &Parts<T>,
        part: Channel,
        number: u8,
        out: &mut Sending,
    ) -> Result<(), Memory>
        requires number { number < 16 }
        requires bends { bends_notes (asked parts.now).route ≡ true }
        requires part { is_part (asked parts.now) part ≡ true }
        requires given { is_given self.old part number ≡ true }
        ensures sent { (es : List MidiEvent) → Stands (T.table (table_in parts.now)) parts.now es
            → OnOk result (out.new.messages.items ≡ out.old.messages.items
            ++ brought (wanted (asked parts.now) (T.table (table_in parts.now))
            (music_on self.old.port es)) self.old part (number ∷ [])) }
        ensures states { (es : List MidiEvent) → Stands (T.table (table_in parts.now)) parts.now es
            → OnOk result (RenewsSome (λ c. nat_eq c number)
            (wanted (asked parts.now) (T.table (table_in parts.now))
            (music_on self.old.port es)) part self.old self.new) }
    {
        let wanted = parts.wanted(&self.pair_on(part, number));
        out.bring(&self.states[number as usize], &wanted, Channel::at(number))?;
        self.states[number as usize] = wanted;
        Ok(())
    }

    /// A channel of a part is brought to the state that its pair needs, where it was given to one.
    fn bring_one<T: Aims>(
        &mut self,
        parts: &Parts<T>,
        part: Channel,
        number: u8,
        out: &mut Sending,
    ) -> Result<(), Memory>
        requires number { number < 16 }
        requires bends { bends_notes (asked parts.now).route ≡ true }
        requires part { is_part (asked parts.now) part ≡ true }
        ensures sent { (es : List MidiEvent) → Stands (T.table (table_in parts.now)) parts.now es
            → OnOk result (out.new.messages.items ≡ out.old.messages.items
            ++ brought (wanted (asked parts.now) (T.table (table_in parts.now))
            (music_on self.old.port es)) self.old part (number ∷ [])) }
        ensures states { (es : List MidiEvent) → Stands (T.table (table_in parts.now)) parts.now es
            → OnOk result (RenewsSome (λ c. nat_eq c number)
            (wanted (asked parts.now) (T.table (table_in parts.now))
            (music_on self.old.port es)) part self.old self.new) }
    {
        if !self.is_given(part, number) {
            return Ok(());
        }
        self.bring_given(parts, part, number, out)
    }

    /// The channels of a part are brought to the states that their pairs need.
    pub fn bring<T: Aims>(
        &mut self,
        parts: &Parts<T>,
        part: Channel,
        out: &mut Sending,
    ) -> Result<(), Memory>
        requires bends { bends_notes (asked parts.now).route ≡ true }
        requires part { is_part (asked parts.now) part ≡ true }
        ensures sent { (es : List MidiEvent) → Stands (T.table (table_in parts.now)) parts.now es
            → OnOk result (out.new.messages.items ≡ out.old.messages.items
            ++ brought (wanted (asked parts.now) (T.table (table_in parts.now))
            (music_on self.old.port es)) self.old part (from_up 0 16)) }
        ensures states { (es : List MidiEvent) → Stands (T.table (table_in parts.now)) parts.now es
            → OnOk result (Renews (wanted (asked parts.now) (T.table (table_in parts.now))
            (music_on self.old.port es)) part self.old self.new) }
    {
        for number in 0..self.end(part) {
            self.bring_one(parts, part, number, out)?;
        }
        Ok(())
    }

    /// A controller is sent on a channel of a part, where it was given to a run.
    fn send_one(
        &self,
        part: Channel,
        channel: u8,
        number: u8,
        value: u8,
        out: &mut Sending,
    ) -> Result<(), Memory>
        requires { channel < 16 }
        ensures { OnOk result (out.new.messages.items ≡ out.old.messages.items
            ++ sent self.now part number value (channel ∷ [])) }
    {
        if !self.is_given(part, channel) {
            return Ok(());
        }
        out.put(Msg::Control {
            channel: Channel::at(channel),
            number,
            value,
        })
    }

    /// A controller is sent on the channels of a part.
    pub fn send(
        &self,
        part: Channel,
        number: u8,
        value: u8,
        out: &mut Sending,
    ) -> Result<(), Memory>
        ensures { OnOk result (out.new.messages.items ≡ out.old.messages.items
            ++ sent self.now part number value (from_up 0 16)) }
    {
        for channel in 0..self.end(part) {
            self.send_one(part, channel, number, value, out)?;
        }
        Ok(())
    }

    /// The channel that the run of a pair of a part was given, by its steps.
    pub fn find(&self, part: Channel, steps: i32) -> Option<Channel>
        ensures given { IfSome result (λ c. is_given self.now part c ≡ true) }
        ensures steps { IfSome result (λ c. steps_in self.now c ≡ steps) }
        ensures none { IfNone result ((c : ℕ) → c < 16 → is_given self.now part c ≡ true
            → steps_in self.now c ≢ steps) }
    {
        for number in 0..self.end(part) {
            if self.is_given(part, number) && self.steps[number as usize] == steps {
                return Some(Channel::at(number));
            }
        }
        None
    }

    /// Whether a channel was given to the run of a pair of the port last.
    fn is_on(&self, pair: &Pair, channel: Channel) -> bool
        ensures { result ≡ is_on self.now (pair_of pair.now) channel }
    {
        self.is_given(pair.part.channel, channel.number())
            && self.steps[channel.number() as usize] == pair.steps
    }

    /// A channel is taken from the runs of all parts.
    fn take_away(&mut self, number: u8)
        requires { number < 16 }
        ensures { TakesAway number self.old self.new }
    {
        for part in 0..16 {
            self.given[part] &= !(1 << number);
        }
    }

    /// A channel is given to the run of a pair, and to no other.
    fn give(&mut self, pair: &Pair, channel: Channel)
        ensures { Gives (pair_of pair.now) channel self.old self.new }
    {
        let number = channel.number();
        self.take_away(number);
        self.given[pair.part.channel.number() as usize] |= 1 << number;
        self.steps[number as usize] = pair.steps;
    }

    /// A channel is ready for a note of a pair: where the run of the pair begins with it, the channel, on
    /// which no key has a pressure, is given to it, and brought to what the pair needs.
    fn ready<T: Aims>(
        &mut self,
        parts: &Parts<T>,
        pair: &Pair,
        channel: Channel,
        out: &mut Sending,
    ) -> Result<(), Memory>
        requires bends { bends_notes (asked parts.now).route ≡ true }
        requires part { is_part (asked parts.now) (pair.now.part.channel) ≡ true }
        ensures sent { (es : List MidiEvent) → Stands (T.table (table_in parts.now)) parts.now es
            → OnOk result (out.new.messages.items ≡ out.old.messages.items
            ++ readied (wanted (asked parts.now) (T.table (table_in parts.now))
            (music_on (pair.now.part.port) es) (pair_of pair.now)) self.old (pair_of pair.now)
            channel) }
        ensures same { is_on self.old (pair_of pair.now) channel ≡ true → self.new ≡ self.old }
        ensures begins { (es : List MidiEvent) → Stands (T.table (table_in parts.now)) parts.now es
            → is_on self.old (pair_of pair.now) channel ≡ false
            → OnOk result (BeginsOn (pair_of pair.now) channel
            (wanted (asked parts.now) (T.table (table_in parts.now))
            (music_on (pair.now.part.port) es) (pair_of pair.now)) self.old self.new) }
    {
        if self.is_on(pair, channel) {
            return Ok(());
        }
        let number = channel.number();
        let wanted = parts.wanted(pair);
        self.give(pair, channel);
        relax(&mut self.states[number as usize]);
        out.bring(&self.states[number as usize], &wanted, channel)?;
        self.states[number as usize] = wanted;
        Ok(())
    }

    /// A note of a pair begins on a channel. Where the run of the pair begins with it, the channel, on
    /// which no key has a pressure, is given to it, and brought first to what the pair needs.
    pub fn begin<T: Aims>(
        &mut self,
        parts: &Parts<T>,
        pair: &Pair,
        channel: Channel,
        key: u8,
        velocity: u8,
        out: &mut Sending,
    ) -> Result<(), Memory>
        requires bends { bends_notes (asked parts.now).route ≡ true }
        requires part { is_part (asked parts.now) (pair.now.part.channel) ≡ true }
        ensures sent { (es : List MidiEvent) → Stands (T.table (table_in parts.now)) parts.now es
            → OnOk result (out.new.messages.items ≡ out.old.messages.items
            ++ begun_on (wanted (asked parts.now) (T.table (table_in parts.now))
            (music_on (pair.now.part.port) es) (pair_of pair.now)) self.old (pair_of pair.now)
            channel key velocity) }
        ensures same { is_on self.old (pair_of pair.now) channel ≡ true → self.new ≡ self.old }
        ensures begins { (es : List MidiEvent) → Stands (T.table (table_in parts.now)) parts.now es
            → is_on self.old (pair_of pair.now) channel ≡ false
            → OnOk result (BeginsOn (pair_of pair.now) channel
            (wanted (asked parts.now) (T.table (table_in parts.now))
            (music_on (pair.now.part.port) es) (pair_of pair.now)) self.old self.new) }
    {
        self.ready(parts, pair, channel, out)?;
        out.put(Msg::NoteOn {
            channel,
            key,
            velocity,
        })
    }
}
