ghost use Rattle.std.specs.Prelude.{◌≡◌, ◌≤◌, ◌<◌, ◌++◌, [], ◌∷◌, suc, length, List, None, true, IfSome, IfNone, OnOk};
ghost use Rattle.mt_base.specs.Midi.{MidiEvent, view};
ghost use Rattle.mt_base.specs.Valid.{IsValidEvent};
ghost use Rattle.retune_model.specs.Options.{bends_notes};
ghost use Rattle.retune_model.specs.Faults.{Targets};
ghost use Rattle.lifetimes.specs.Port.{AreKept, all_counted};

use crate::change::Begun;
use crate::options::Options;
use crate::port::Port;
use crate::tracks::Tracks;
use mt_base::{Pair, Part};
use retune_model::{position_laws, rests_are_runs, rests_as_written, sound_sources};
use std::alloc::Global;

/// What the events so far say.
#[derive(Drop)]
pub(crate) struct Source {
    pub alloc: Global,
    pub options: Options,
    pub tracks: Tracks,
    /// The ports, in the order of their first channel messages; `used` of them have had one.
    pub ports: [Port; 4],
    pub used: usize,
    /// The position of the last event, and its tick.
    pub position: u32,
    pub tick: u32,
    /// How many retuned notes began.
    pub begun: u32,
    pub ghost range_some: { 1 ≤ options.range },
    pub ghost range_high: { options.range ≤ 96 },
    pub ghost few: { used ≤ 4 },
    pub ghost kept: { AreKept options.tail ports },
    pub ghost some: { begun ≤ position },
    pub ghost counted: { all_counted position ports ≡ true },
}

impl Source {
    ghost use Rattle.lifetimes.specs.Views.{options_of, pair_of};
    ghost use Rattle.lifetimes.specs.Stands.{SourceStands, place_of};
    ghost use Rattle.lifetimes.specs.Told.{pair_sounds, pair_holds, is_held, is_sounding, sounding_on};

    /// A source before any event.
    // Four ports stand on its stack twice: a caller into which it were inlined would keep that room to its end.
    #[inline(never)]
    pub fn new(alloc: Global, options: Options) -> Source
        requires range_some { 1 ≤ options.range }
        requires range_high { options.range ≤ 96 }
        ensures stands { (table : Targets) → SourceStands table result [] }
        ensures options { result.options ≡ options }
        ensures position { result.position ≡ 0 }
        ensures tick { result.tick ≡ 0 }
    {
        Source {
            alloc,
            options,
            tracks: Tracks::new(),
            ports: [
                Port::new(alloc),
                Port::new(alloc),
                Port::new(alloc),
                Port::new(alloc),
            ],
            used: 0,
            position: 0,
            tick: 0,
            begun: 0,
        }
    }

    /// The place of a port; that behind all in use for one that has had no channel message.
    pub fn place(&self, port: u8) -> usize
        ensures place { result ≡ place_of self.now port }
        ensures bound { result ≤ self.now.used }
    {
        let mut place = 0;
        while place < self.used && self.ports[place].number != port {
            place += 1;
        }
        place
    }

    /// Whether a retuned note of a pair sounds.
    pub fn sounds(&self, pair: &Pair) -> bool
        ensures sounds { (table : Targets) (es : List MidiEvent) → SourceStands table self.now es
            → result ≡ pair_sounds (options_of self.now.options) table es (pair_of pair.now) }
        ensures pairs { (table : Targets) (es : List MidiEvent) → SourceStands table self.now es
            → bends_notes (options_of self.now.options).route ≡ true
            → result ≡ is_sounding (options_of self.now.options) table es (pair_of pair.now) }
    {
        position_laws();
        sound_sources();
        rests_as_written();
        rests_are_runs();
        let place = self.place(pair.part.port);
        place < self.used && self.ports[place].sounds(pair.part.channel, pair.steps)
    }

    /// Whether a retuned note of a pair sounds or rests.
    pub fn holds(&self, pair: &Pair) -> bool
        ensures holds { (table : Targets) (es : List MidiEvent) → SourceStands table self.now es
            → result ≡ pair_holds (options_of self.now.options) table es (pair_of pair.now) }
        ensures pairs { (table : Targets) (es : List MidiEvent) → SourceStands table self.now es
            → bends_notes (options_of self.now.options).route ≡ true
            → result ≡ is_held (options_of self.now.options) table es (pair_of pair.now) }
    {
        position_laws();
        sound_sources();
        rests_as_written();
        rests_are_runs();
        let place = self.place(pair.part.port);
        let (channel, steps) = (pair.part.channel, pair.steps);
        if place == self.used {
            return false;
        }
        if !self.options.retunes(channel) {
            return false;
        }
        self.ports[place].holds(channel, steps, self.options.tail, self.tick)
    }

    /// The retuned note of a part that sounds on a source key, 0 to 127, and whether its key is
    /// down.
    pub fn sounding(&self, part: Part, key: u8) -> Option<(Begun, bool)>
        requires { key ≤ 127 }
        ensures { (table : Targets) (es : List MidiEvent) → SourceStands table self.now es
            → result ≡ sounding_on (options_of self.now.options) table es part key }
    {
        let place = self.place(part.port);
        if place < self.used {
            self.ports[place].begun(part.channel, key)
        } else {
            None
        }
    }
}
