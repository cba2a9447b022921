ghost use Rattle.std.specs.Prelude.{◌≡◌, None, List, true};
ghost use Rattle.mt_base.specs.Midi.{MidiEvent};
ghost use Rattle.retune_model.specs.Options.{bends_notes};
ghost use Rattle.retune_model.specs.Faults.{Targets, is_part};
ghost use Rattle.channel_model.specs.Choice.{wanted};
ghost use Rattle.receiver.specs.State.{state_of};

use crate::bends::bend_value;
use crate::parts::Parts;
use crate::source::Source;
use key_pitch::Aims;
use mt_base::Pair;
use receiver::ChannelState;

impl Source {
    ghost use Rattle.lifetimes.specs.Views.{options_of, pair_of};
    ghost use Rattle.lifetimes.specs.Stands.{SourceStands};
    ghost use Rattle.lifetimes.specs.Told.{music_on};

    /// Gives a channel the state that one of a pair needs. A port without a channel message so far has all
    /// channels as at the start.
    pub fn wanted_into(&self, pair: &Pair, state: &mut ChannelState)
        requires bends { bends_notes (options_of self.now.options).route ≡ true }
        requires part { is_part (options_of self.now.options) (pair.now.part.channel) ≡ true }
        ensures state { (table : Targets) (es : List MidiEvent) → SourceStands table self.now es
            → state_of state.new ≡ wanted (options_of self.now.options) table
            (music_on (pair.now.part.port) es) (pair_of pair.now) }
        ensures tuning { state.new.tuning ≡ None }
    {
        let range = self.options.range;
        let place = self.place(pair.part.port);
        if place < self.used {
            return self.ports[place].wanted_into(pair.part.channel, pair.steps, range, state);
        }
        *state = ChannelState::new();
        state.bend_range(range);
        state.set_bend(bend_value(pair.steps, 0));
    }
}

impl<T: Aims> Parts<T> {
    ghost use Rattle.lifetimes.specs.Views.{pair_of};
    ghost use Rattle.lifetimes.specs.Stands.{Stands, asked, table_in};
    ghost use Rattle.lifetimes.specs.Told.{music_on};

    /// The state that a channel of a pair needs: its part's state, with the bend sensitivity of the
    /// route, the bend of the pair and of the part together, as far as a bend goes, no tuning
    /// program, and the pressures of the target keys of the pair's notes that sound. It may also be
    /// asked of a pair whose last note has ended.
    pub fn wanted(&self, pair: &Pair) -> ChannelState
        requires bends { bends_notes (asked self.now).route ≡ true }
        requires part { is_part (asked self.now) (pair.now.part.channel) ≡ true }
        ensures state { (es : List MidiEvent) → Stands (T.table (table_in self.now)) self.now es
            → state_of result ≡ wanted (asked self.now) (T.table (table_in self.now))
            (music_on (pair.now.part.port) es) (pair_of pair.now) }
        ensures tuning { result.tuning ≡ None }
    {
        let mut state = ChannelState::new();
        self.wanted_into(pair, &mut state);
        state
    }

    /// Gives a channel that state.
    pub fn wanted_into(&self, pair: &Pair, state: &mut ChannelState)
        requires bends { bends_notes (asked self.now).route ≡ true }
        requires part { is_part (asked self.now) (pair.now.part.channel) ≡ true }
        ensures state { (es : List MidiEvent) → Stands (T.table (table_in self.now)) self.now es
            → state_of state.new ≡ wanted (asked self.now) (T.table (table_in self.now))
            (music_on (pair.now.part.port) es) (pair_of pair.now) }
        ensures tuning { state.new.tuning ≡ None }
    {
        self.source.wanted_into(pair, state);
    }
}
