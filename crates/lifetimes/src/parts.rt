ghost use Rattle.std.specs.Prelude.{◌≡◌, ◌≤◌, ◌<◌, [], List, true};
ghost use Rattle.mt_base.specs.Midi.{MidiEvent, view};
ghost use Rattle.mt_base.specs.Valid.{IsValidEvent};
ghost use Rattle.retune_model.specs.Options.{bends_notes};
ghost use Rattle.retune_model.specs.Ports.{ports_from, all_zero};

use crate::change::Begun;
use crate::options::Options;
use crate::port::Strike;
use crate::source::Source;
use key_pitch::{Aim, Aims};
use mt_base::{Event, Msg, Pair, Part, What};
use std::alloc::Global;

/// The retuned parts of a source, with the events so far: one step for each event of all tracks.
#[derive(Drop)]
pub struct Parts<T: Aims> {
    pub(crate) table: T,
    pub(crate) source: Source,
}

impl<T: Aims> Parts<T> {
    ghost use Rattle.lifetimes.specs.Views.{options_of, pair_of};
    ghost use Rattle.lifetimes.specs.Stands.{Stands, asked, table_in, position_of, tick_of};
    ghost use Rattle.lifetimes.specs.Told.{pair_sounds, pair_holds, is_held, is_sounding, sounding_on, aim_in, strike_of};

    /// Parts before any event. The range is 1 to 96, and the program at most 127.
    // A source stands on its stack, besides the one that it answers.
    #[inline(never)]
    pub fn new(alloc: Global, table: T, options: Options) -> Parts<T>
        requires range_some { 1 ≤ options.range }
        requires range_high { options.range ≤ 96 }
        requires program { options.program ≤ 127 }
        ensures stands { Stands (T.table table) result [] }
        ensures table { table_in result ≡ table }
        ensures options { asked result ≡ options_of options }
        ensures position { position_of result ≡ 0 }
        ensures tick { tick_of result ≡ 0 }
    {
        Parts {
            table,
            source: Source::new(alloc, options),
        }
    }

    /// All is as before any event, with the same targets and options.
    // The new source stands on its stack.
    #[inline(never)]
    pub fn restart(&mut self)
        ensures stands { Stands (T.table (table_in self.new)) self.new [] }
        ensures table { table_in self.new ≡ table_in self.old }
        ensures options { asked self.new ≡ asked self.old }
        ensures position { position_of self.new ≡ 0 }
        ensures tick { tick_of self.new ≡ 0 }
    {
        self.source = Source::new(self.source.alloc, self.source.options);
    }

    /// The targets that `new` took.
    pub fn table(&self) -> &T
        ensures { result.now ≡ table_in self.now }
    {
        &self.table
    }

    /// The options that `new` took.
    pub fn options(&self) -> Options
        ensures { options_of result ≡ asked self.now }
    {
        self.source.options
    }

    /// The port of a track so far.
    pub fn port(&self, track: u16) -> u8
        requires { track < 1024 }
        ensures { (es : List MidiEvent) → Stands (T.table (table_in self.now)) self.now es
            → result ≡ ports_from all_zero es track }
    {
        self.source.tracks.port(track)
    }

    /// What a device is to be told of a key for a note that begins at a tick.
    fn aim(&self, key: u8, tick: u32) -> Aim
        requires { key ≤ 127 }
        ensures { result ≡ aim_in (asked self.now) (T.table (table_in self.now)) key tick }
    {
        let options = &self.source.options;
        if options.route.bends() {
            self.table.bend_aim(key, options.range, tick)
        } else {
            self.table.mts_aim(key, tick)
        }
    }

    /// The note on of a retuned part that an event is.
    pub(crate) fn strike(&self, event: &Event<'_>) -> Option<Strike>
        requires { IsValidEvent (view event.now) }
        ensures { result ≡ strike_of (asked self.now) (T.table (table_in self.now))
            event.now.tick (view event.now).what }
    {
        match event.what {
            What::Message(
                Msg::NoteOn {
                    channel,
                    key,
                    velocity,
                },
            ) if velocity > 0 && self.source.options.retunes(channel) => Some(Strike {
                channel,
                key,
                target: self.aim(key, event.tick),
            }),
            _ => None,
        }
    }

    /// Whether a retuned note of a pair sounds.
    pub fn sounds(&self, pair: &Pair) -> bool
        ensures sounds { (es : List MidiEvent) → Stands (T.table (table_in self.now)) self.now es
            → result ≡ pair_sounds (asked self.now) (T.table (table_in self.now)) es
            (pair_of pair.now) }
        ensures pairs { (es : List MidiEvent) → Stands (T.table (table_in self.now)) self.now es
            → bends_notes (asked self.now).route ≡ true
            → result ≡ is_sounding (asked self.now) (T.table (table_in self.now)) es
            (pair_of pair.now) }
    {
        self.source.sounds(pair)
    }

    /// Whether a retuned note of a pair sounds or rests.
    pub fn holds(&self, pair: &Pair) -> bool
        ensures holds { (es : List MidiEvent) → Stands (T.table (table_in self.now)) self.now es
            → result ≡ pair_holds (asked self.now) (T.table (table_in self.now)) es
            (pair_of pair.now) }
        ensures pairs { (es : List MidiEvent) → Stands (T.table (table_in self.now)) self.now es
            → bends_notes (asked self.now).route ≡ true
            → result ≡ is_held (asked self.now) (T.table (table_in self.now)) es
            (pair_of pair.now) }
    {
        self.source.holds(pair)
    }

    /// The retuned note of a part that sounds on a source key, 0 to 127, and whether its key is
    /// down.
    pub fn sounding(&self, part: Part, key: u8) -> Option<(Begun, bool)>
        requires { key ≤ 127 }
        ensures { (es : List MidiEvent) → Stands (T.table (table_in self.now)) self.now es
            → result ≡ sounding_on (asked self.now) (T.table (table_in self.now)) es part key }
    {
        self.source.sounding(part, key)
    }
}
