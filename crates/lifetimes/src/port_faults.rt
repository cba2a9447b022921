ghost use Rattle.std.specs.Prelude.{if◌then◌else◌, ◌≡◌, ◌≤◌, ◌<◌, ◌≤ℤ◌, ◌||◌, ◌++◌, ◌∷◌, [], ℕ, suc, ℤ, pos, neg_ℤ, List, false, length, true, IfNone, IfSome};
ghost use Rattle.std.specs.List.{AllByRecursion};
ghost use Rattle.mt_base.specs.Midi.{MidiEvent, Says, channel_of, view_what};
ghost use Rattle.midi_model.specs.Music.{channel_at};
ghost use Rattle.midi_model.specs.Receiver.{after};
ghost use Rattle.retune_model.specs.Options.{Options as Asked};
ghost use Rattle.retune_model.specs.Source.{bend_in_steps};
ghost use Rattle.retune_model.specs.Rests.{is_within_tail, is_aimed};
ghost use Rattle.lifetimes.specs.Lists.{has_steps};
ghost use Rattle.lifetimes.specs.Resting.{end_kept};
ghost use Rattle.lifetimes.specs.Due.{IsNext, IsFirstBeyond, NoneBeyond, LeavesPart, plainly, target_tests, alone_tests, bend_due, early_due, late_due, is_same_aim, IsStrike};
ghost use Rattle.mt_base.specs.Valid.{IsValidMsg, IsValidWhat, IsValidEvent};
ghost use Rattle.midi_model.specs.Order.{AreInOrder};
ghost use Rattle.retune_model.specs.Ports.{port_at};
ghost use Rattle.retune_model.specs.Faults.{Targets, is_part, first_that, is_restrike, is_unison};
ghost use Rattle.mt_base.specs.declared.event.Msg.TheVariants.{NoteOn, Bend, Control};
ghost use Rattle.retune_model.specs.SourceFaults.{IsFaultless};
ghost use Rattle.receiver.specs.Stands.{PlayerStands, HasRoom};
ghost use Rattle.lifetimes.specs.Stands.{PortStands};
ghost use Rattle.lifetimes.specs.Told.{told_kind, due_kind, strike_of, port_on, aim_in, music_on};
ghost use Rattle.lifetimes.specs.Views.{options_of};

use crate::bends::{bend_in_steps, bend_laws, is_beyond, pairs_are_within};
use crate::entry::{parameter_fault, sensitivity_after};
use crate::fault::SourceKind;
use crate::notes::Notes;
use crate::options::{Options, Route};
use crate::port::{Port, Strike};
use key_pitch::Aim;
use midi_model::{music_laws, parameter_laws, receiver_laws};
use mt_base::{Channel, Msg, What};
use retune_model::{
    drums_stand_apart, held_laws, port_laws, position_laws, sound_sources, zone_entries_set_zones,
};

/// The least steps of a pair of a part that sounds or rests and goes too far with a bend.
fn least_beyond(notes: &Notes, moved: i32, tail: u32, tick: u32) -> Option<i32>
    requires low { neg_ℤ (pos 2102000) ≤ℤ moved }
    requires high { moved ≤ℤ pos 2102000 }
    ensures some { IfSome result (λ q. IsFirstBeyond (λ p. has_steps notes.now.sounding.items p
        || is_within_tail tail tick (end_kept notes.now.rests.items.items p)) moved q) }
    ensures none { IfNone result (NoneBeyond (λ p. has_steps notes.now.sounding.items p
        || is_within_tail tail tick (end_kept notes.now.rests.items.items p)) moved) }
{
    let found = notes.least(i32::MIN, tail, tick);
    match found {
        Some(steps) if !is_beyond(steps, moved) => notes.least(8192 - moved, tail, tick),
        Some(_) | None => found,
    }
}

/// What is wrong with the target of a note on.
fn target_fault(target: Aim) -> Option<SourceKind>
    ensures { (o : Asked) (table : Targets) (k t : ℕ) → target ≡ aim_in o table k t
        → told_kind result ≡ plainly (first_that (target_tests o (table k t))) }
{
    match target {
        Aim::Unmapped => Some(SourceKind::UnmappedKey),
        Aim::OutOfDevice => Some(SourceKind::KeyOutOfDevice),
        Aim::Mts { .. } | Aim::Bend { .. } => None,
    }
}

/// Whether two targets are the same key with the same bend.
fn is_same(a: Aim, b: Aim) -> bool
    ensures { result ≡ is_same_aim a b }
{
    match (a, b) {
        (
            Aim::Bend { key, steps },
            Aim::Bend {
                key: other,
                steps: more,
            },
        ) => key == other && steps == more,
        _ => false,
    }
}

/// What is wrong with a message by itself: a note on without a target, or a controller.
pub(crate) fn alone_fault(message: &Msg, strike: &Option<Strike>) -> Option<SourceKind>
    ensures { (o : Asked) (table : Targets) (t : ℕ) → is_part o (channel_of message.now) ≡ true
        → strike.now ≡ strike_of o table t (Says message.now)
        → told_kind result ≡ plainly (first_that (alone_tests o table t message.now)) }
{
    if let Some(strike) = strike {
        return target_fault(strike.target);
    }
    match *message {
        Msg::Control {
            number: 125 | 126,
            ..
        } => Some(SourceKind::ModeMessage),
        Msg::Control {
            number: 96 | 97,
            ..
        } => Some(SourceKind::DataStep),
        _ => None,
    }
}

impl Port {
    /// The steps of a channel's bend.
    pub fn moved(&self, range: u8, channel: Channel) -> i32
        requires range_some { 1 ≤ range }
        requires range_high { range ≤ 96 }
        ensures low { neg_ℤ (pos 2102000) ≤ℤ result }
        ensures high { result ≤ℤ pos 2102000 }
        ensures own { (es : List MidiEvent) → PlayerStands self.now.player es
            → result ≡ bend_in_steps range (channel_at (after es).music channel) }
        ensures bend { (o : Asked) (table : Targets) (es : List MidiEvent)
            → PortStands o table es self.now → is_part o channel ≡ true
            → result ≡ bend_in_steps range (channel_at (music_on self.now.number es) channel) }
    {
        drums_stand_apart();
        let state = self.player.state(channel);
        state.well_formed();
        bend_in_steps(range, state.bend, state.value(true, 0, 0))
    }

    /// What is wrong with a note on, but that its key sounds.
    fn strike_fault(&self, options: &Options, strike: &Strike) -> Option<SourceKind>
        requires range_some { 1 ≤ options.now.range }
        requires range_high { options.now.range ≤ 96 }
        requires key { strike.now.key < 128 }
        ensures { (table : Targets) (es : List MidiEvent) (e : MidiEvent) (z v : ℕ)
            → IsNext (options_of options.now) table es e z self.now
            → IsStrike (options_of options.now) table e v strike.now
            → told_kind result ≡ early_due (options_of options.now) table es e z
            (NoteOn strike.now.channel strike.now.key (suc v)) }
    {
        music_laws();
        drums_stand_apart();
        held_laws();
        pairs_are_within();
        bend_laws();
        let fault = target_fault(strike.target);
        if fault.is_some() {
            return fault;
        }
        let Aim::Bend { steps, .. } = strike.target else {
            return None;
        };
        if self
            .notes(strike.channel)
            .has_unison(strike.key, strike.target)
        {
            return Some(SourceKind::Unison);
        }
        let moved = self.moved(options.range, strike.channel);
        if options.route.is_bend() && is_beyond(steps, moved) {
            return Some(SourceKind::BendTooFar { steps, moved });
        }
        None
    }

    /// Whether a bend goes too far with a pair of the part.
    fn bend_fault(
        &self,
        options: &Options,
        channel: Channel,
        moved: i32,
        tick: u32,
    ) -> Option<SourceKind>
        requires range_some { 1 ≤ options.now.range }
        requires low { neg_ℤ (pos 2102000) ≤ℤ moved }
        requires high { moved ≤ℤ pos 2102000 }
        ensures { (table : Targets) (es : List MidiEvent) (e : MidiEvent) (z : ℕ)
            → IsNext (options_of options.now) table es e z self.now → e.tick ≡ tick
            → is_part (options_of options.now) channel ≡ true
            → is_aimed (options_of options.now) (is_part (options_of options.now)) table e.tick e.what ≡ true
            → LeavesPart z es e channel
            → told_kind result ≡ bend_due (options_of options.now) table es e z channel moved }
    {
        bend_laws();
        if !options.route.is_bend() {
            return None;
        }
        match least_beyond(self.notes(channel), moved, options.tail, tick) {
            Some(steps) => Some(SourceKind::BendTooFar { steps, moved }),
            None => None,
        }
    }

    /// What is wrong with a bend.
    fn turn_fault(
        &self,
        options: &Options,
        channel: Channel,
        value: u16,
        tick: u32,
    ) -> Option<SourceKind>
        requires range_some { 1 ≤ options.now.range }
        requires range_high { options.now.range ≤ 96 }
        requires value { value ≤ 16383 }
        ensures { (table : Targets) (es : List MidiEvent) (e : MidiEvent) (z : ℕ)
            → IsNext (options_of options.now) table es e z self.now
            → e.what ≡ Says (Bend channel value) → e.tick ≡ tick
            → is_part (options_of options.now) channel ≡ true
            → told_kind result ≡ early_due (options_of options.now) table es e z (Bend channel value) }
    {
        music_laws();
        position_laws();
        drums_stand_apart();
        let sensitivity = self.player.state(channel).value(true, 0, 0);
        let moved = bend_in_steps(options.range, value, sensitivity);
        self.bend_fault(options, channel, moved, tick)
    }

    /// What is wrong with data entry, `is_high` for its MSB.
    fn entry_fault(
        &self,
        options: &Options,
        channel: Channel,
        is_high: bool,
        value: u8,
        tick: u32,
    ) -> Option<SourceKind>
        requires range_some { 1 ≤ options.now.range }
        requires range_high { options.now.range ≤ 96 }
        requires value { value ≤ 127 }
        ensures { (table : Targets) (es : List MidiEvent) (e : MidiEvent) (z : ℕ)
            → IsNext (options_of options.now) table es e z self.now
            → e.what ≡ Says (Control channel (if is_high then 6 else 38) value) → e.tick ≡ tick
            → is_part (options_of options.now) channel ≡ true
            → told_kind result ≡ early_due (options_of options.now) table es e z
            (Control channel (if is_high then 6 else 38) value) }
    {
        music_laws();
        parameter_laws();
        position_laws();
        sound_sources();
        zone_entries_set_zones();
        drums_stand_apart();
        let state = self.player.state(channel);
        state.well_formed();
        let sensitivity = sensitivity_after(state, channel, is_high, value);
        let moved = bend_in_steps(options.range, state.bend, sensitivity);
        self.bend_fault(options, channel, moved, tick)
            .or(parameter_fault(state))
    }

    /// The first of the kinds before those of ports that holds at a message to a retuned part.
    pub fn early_fault(
        &self,
        options: &Options,
        tick: u32,
        message: &Msg,
        strike: &Option<Strike>,
    ) -> Option<SourceKind>
        requires range_some { 1 ≤ options.now.range }
        requires range_high { options.now.range ≤ 96 }
        requires valid { IsValidMsg message.now }
        requires key { IfSome strike.now (λ s. s.key < 128) }
        ensures { (table : Targets) (es : List MidiEvent) (e : MidiEvent) (z : ℕ)
            → IsNext (options_of options.now) table es e z self.now
            → e.what ≡ Says message.now → e.tick ≡ tick
            → is_part (options_of options.now) (channel_of message.now) ≡ true
            → strike.now ≡ strike_of (options_of options.now) table tick (Says message.now)
            → told_kind result ≡ early_due (options_of options.now) table es e z message.now }
    {
        music_laws();
        bend_laws();
        held_laws();
        port_laws();
        pairs_are_within();
        if let Some(strike) = strike {
            return self.strike_fault(options, strike);
        }
        match *message {
            Msg::Control {
                channel,
                number: 6,
                value,
            } => self.entry_fault(options, channel, true, value, tick),
            Msg::Control {
                channel,
                number: 38,
                value,
            } => self.entry_fault(options, channel, false, value, tick),
            Msg::Bend { channel, value } => self.turn_fault(options, channel, value, tick),
            _ => alone_fault(message, strike),
        }
    }

    /// Whether a note on strikes a key that sounds with another target.
    fn restrikes(&self, options: &Options, strike: &Strike) -> bool
        requires key { strike.now.key < 128 }
        ensures { (table : Targets) (es : List MidiEvent) (e : MidiEvent) (z v : ℕ)
            → IsNext (options_of options.now) table es e z self.now
            → IsStrike (options_of options.now) table e v strike.now
            → result ≡ is_restrike (options_of options.now) table (music_on z es) e.tick
            (NoteOn strike.now.channel strike.now.key (suc v)) }
    {
        music_laws();
        receiver_laws();
        drums_stand_apart();
        if !options.route.bends() {
            return false;
        }
        match self.player.sounding(strike.channel, strike.key) {
            Some(_) => !is_same(
                self.notes(strike.channel).struck(strike.key).target,
                strike.target,
            ),
            None => false,
        }
    }

    /// The first of the kinds behind those of parameters that holds.
    fn late_fault(
        &self,
        options: &Options,
        message: &Msg,
        strike: &Option<Strike>,
    ) -> Option<SourceKind>
        requires key { IfSome strike.now (λ s. s.key < 128) }
        ensures { (table : Targets) (es : List MidiEvent) (e : MidiEvent) (z : ℕ)
            → IsNext (options_of options.now) table es e z self.now → e.what ≡ Says message.now
            → is_part (options_of options.now) (channel_of message.now) ≡ true
            → strike.now ≡ strike_of (options_of options.now) table e.tick e.what
            → told_kind result ≡ late_due (options_of options.now) table es e z message.now }
    {
        position_laws();
        if let Some(strike) = strike {
            return if self.restrikes(options, strike) {
                Some(SourceKind::Restrike)
            } else {
                None
            };
        }
        match *message {
            Msg::KeyPressure { .. } if options.route == Route::Mpe => Some(SourceKind::PolyInMpe),
            _ => None,
        }
    }

    /// What is wrong with a message to a retuned part, but for what is said of ports. The port may
    /// be one that waits: `number` is that of the message's.
    pub fn fault(
        &self,
        options: &Options,
        tick: u32,
        what: &What<'_>,
        message: &Msg,
        strike: &Option<Strike>,
    ) -> Option<SourceKind>
        requires range_some { 1 ≤ options.now.range }
        requires range_high { options.now.range ≤ 96 }
        requires valid { IsValidWhat (view_what what.now) }
        requires message { view_what what.now ≡ Says message.now }
        requires key { IfSome strike.now (λ s. s.key < 128) }
        ensures fault { (z : ℕ) (table : Targets) (es : List MidiEvent) (e : MidiEvent)
            → AllByRecursion IsValidEvent (es ++ e ∷ []) → AreInOrder 0 (es ++ e ∷ [])
            → IsFaultless (options_of options.now) table es
            → PortStands (options_of options.now) table es (record self.now { number = z })
            → e.what ≡ view_what what.now → e.tick ≡ tick → port_on es e ≡ z
            → is_part (options_of options.now) (channel_of message.now) ≡ true
            → strike.now ≡ strike_of (options_of options.now) table tick (view_what what.now)
            → told_kind result ≡ due_kind (options_of options.now) table false
            (port_at (es ++ e ∷ []) z) (length es) e }
        ensures room { IfNone result (HasRoom self.now.player (view_what what.now)) }
    {
        music_laws();
        position_laws();
        drums_stand_apart();
        zone_entries_set_zones();
        let fault = self.early_fault(options, tick, message, strike);
        if fault.is_some() {
            return fault;
        }
        if !self.player.room(what) {
            return Some(SourceKind::TooManyParameters);
        }
        self.late_fault(options, message, strike)
    }
}
