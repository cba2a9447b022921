ghost use Rattle.std.specs.Prelude.{◌≡◌, ◌≤◌, ◌<◌, [], List, None, true, length, filter};
ghost use Rattle.std.specs.List.{AllByRecursion};
ghost use Rattle.mt_base.specs.Midi.{MidiEvent};
ghost use Rattle.mt_base.specs.Valid.{IsValidEvent};
ghost use Rattle.midi_model.specs.Music.{key_pressures};
ghost use Rattle.midi_model.specs.Order.{AreInOrder};
ghost use Rattle.midi_model.specs.Receiver.{after};
ghost use Rattle.retune_model.specs.Options.{Options, bends_notes};
ghost use Rattle.retune_model.specs.Ports.{tick_to};
ghost use Rattle.retune_model.specs.Faults.{Targets, is_part, int_eq};
ghost use Rattle.retune_model.specs.SourceFaults.{IsFaultless};
ghost use Rattle.channel_model.specs.Choice.{wanted};
ghost use Rattle.receiver.specs.Stands.{PlayerStands};
ghost use Rattle.receiver.specs.State.{state_of, own_of};
ghost use Rattle.lifetimes.specs.Port.{listed_in};
ghost use Rattle.lifetimes.specs.Pressing.{pressed_by, pressed_by_all};
ghost use Rattle.lifetimes.specs.Stands.{PortStands, pair_on};
ghost use Rattle.lifetimes.specs.Told.{pair_sounds, pair_holds, is_held, is_sounding, sounding_on, music_on};

use crate::bends::bend_value;
use crate::change::Begun;
use crate::notes::Sounding;
use crate::port::Port;
use midi_model::{music_laws, receiver_laws};
use mt_base::{Channel, Pair, Part};
use receiver::ChannelState;
use retune_model::{
    drums_stand_apart, port_laws, position_laws, rests_are_runs, rests_as_written, sound_sources,
};

/// Gives the target key of a note the pressure of its source key.
fn press_target(source: &ChannelState, state: &mut ChannelState, note: &Sounding)
    ensures own { own_of state.new ≡ own_of state.old }
    ensures keys { state.new.keys.items
        ≡ pressed_by source.now.keys.items note.now state.old.keys.items }
    ensures tuning { state.new.tuning ≡ state.old.tuning }
{
    if note.key < 128 && note.target < 128 {
        state.press(note.target, source.keys.get(note.key as usize));
    }
}

// What a port can be asked.
impl Port {
    /// What was begun on a key whose note sounds, and whether the key is down.
    pub fn begun(&self, channel: Channel, key: u8) -> Option<(Begun, bool)>
        requires { key < 128 }
        ensures { (o : Options) (table : Targets) (es : List MidiEvent)
            → PortStands o table es self.now → result ≡ sounding_on o table es
            (record { port = self.now.number; channel = channel }) key }
    {
        music_laws();
        drums_stand_apart();
        match self.player.sounding(channel, key) {
            Some(note) => {
                let notes = self.notes(channel);
                let struck = notes.struck(key);
                let begun = Begun {
                    note: struck.note,
                    pair: Pair {
                        part: Part {
                            port: self.number,
                            channel,
                        },
                        steps: notes.steps(key),
                    },
                    key,
                    target: struck.target,
                };
                Some((begun, note.released.is_none()))
            }
            None => None,
        }
    }

    /// Whether a retuned note of a pair sounds.
    pub fn sounds(&self, channel: Channel, steps: i32) -> bool
        ensures sounds { (o : Options) (table : Targets) (es : List MidiEvent)
            → AllByRecursion IsValidEvent es → PortStands o table es self.now
            → result ≡ pair_sounds o table es (pair_on self.now.number channel steps) }
        ensures pairs { (o : Options) (table : Targets) (es : List MidiEvent)
            → AllByRecursion IsValidEvent es → AreInOrder 0 es → IsFaultless o table es
            → PortStands o table es self.now → bends_notes o.route ≡ true
            → result ≡ is_sounding o table es (pair_on self.now.number channel steps) }
    {
        music_laws();
        receiver_laws();
        position_laws();
        sound_sources();
        rests_as_written();
        rests_are_runs();
        self.notes(channel).sounds(steps)
    }

    /// Whether a note of a pair of a retuned part sounds or rests.
    pub fn holds(&self, channel: Channel, steps: i32, tail: u32, tick: u32) -> bool
        ensures holds { (o : Options) (table : Targets) (es : List MidiEvent)
            → AllByRecursion IsValidEvent es → AreInOrder 0 es → PortStands o table es self.now
            → tail ≡ o.tail → tick ≡ tick_to es (length es) → is_part o channel ≡ true
            → result ≡ pair_holds o table es (pair_on self.now.number channel steps) }
        ensures pairs { (o : Options) (table : Targets) (es : List MidiEvent)
            → AllByRecursion IsValidEvent es → AreInOrder 0 es → IsFaultless o table es → PortStands o table es self.now
            → tail ≡ o.tail → tick ≡ tick_to es (length es) → bends_notes o.route ≡ true
            → is_part o channel ≡ true
            → result ≡ is_held o table es (pair_on self.now.number channel steps) }
    {
        position_laws();
        sound_sources();
        rests_as_written();
        rests_are_runs();
        self.sounds(channel, steps) || self.notes(channel).rests.rests(steps, tail, tick)
    }

    /// Gives the target keys of a pair's notes the pressures of their source keys.
    fn press_targets(&self, state: &mut ChannelState, channel: Channel, steps: i32)
        ensures own { own_of state.new ≡ own_of state.old }
        ensures keys { (es : List MidiEvent) → PlayerStands self.now.player es → state.new.keys.items
            ≡ pressed_by_all (key_pressures (after es).music.notes channel 0 128)
            (filter (λ x. int_eq x.steps steps) (listed_in self.now channel)) state.old.keys.items }
        ensures tuning { state.new.tuning ≡ state.old.tuning }
    {
        let source = self.player.state(channel);
        for note in self.notes(channel).with_steps(steps) {
            press_target(source, state, note);
        }
    }

    /// Gives a channel the state that one of a pair needs.
    pub fn wanted_into(&self, channel: Channel, steps: i32, range: u8, state: &mut ChannelState)
        requires range_some { 1 ≤ range }
        requires range_high { range ≤ 96 }
        ensures state { (o : Options) (table : Targets) (es : List MidiEvent)
            → AllByRecursion IsValidEvent es → AreInOrder 0 es → IsFaultless o table es
            → PortStands o table es self.now → range ≡ o.range
            → bends_notes o.route ≡ true → is_part o channel ≡ true
            → state_of state.new ≡ wanted o table (music_on self.now.number es)
            (pair_on self.now.number channel steps) }
        ensures tuning { state.new.tuning ≡ None }
    {
        music_laws();
        receiver_laws();
        position_laws();
        port_laws();
        sound_sources();
        drums_stand_apart();
        state.take_over(self.player.state(channel));
        let moved = self.moved(range, channel);
        state.bend_range(range);
        state.set_bend(bend_value(steps, moved));
        state.untune();
        state.relax(u128::MAX);
        state.well_formed();
        self.press_targets(state, channel, steps);
    }
}
