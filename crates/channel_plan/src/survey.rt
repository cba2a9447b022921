ghost use Rattle.std.specs.Prelude.{◌≡◌, ◌++◌, ◌∷◌, [], ℕ, suc, List, OnOk, IfOk, IfErr, take};
ghost use Rattle.mt_base.specs.Midi.{MidiEvent, view, view_what};
ghost use Rattle.retune_model.specs.Options.{Options, has_drums, is_drum_message};
ghost use Rattle.retune_model.specs.Ports.{events_on};
ghost use Rattle.retune_model.specs.Faults.{Targets};
ghost use Rattle.retune_model.specs.SourceFaults.{IsFaultless};
ghost use Rattle.plan_laws.specs.Counting.{ComesAt};
ghost use Rattle.lifetimes.specs.Noted.{AreNoted};
ghost use Rattle.lifetimes.specs.Stands.{Stands, asked, table_in};
ghost use Rattle.lifetimes.specs.Told.{TellsChange, port_on};
ghost use Rattle.channel_plan.specs.Counts.{CountsOf};
ghost use Rattle.channel_plan.specs.Passing.{AreAsked, channels_in};
ghost use Rattle.channel_plan.specs.Surveys.{IsCounted, IsCountedBy, Surveys, SurveysTo, AreDrums, EndsPass};

use crate::counter::Counter;
use crate::fault::{Instant, PlanFault};
use crate::tallies::{count_all, find_tally};
use crate::tally::Tally;
use event_stream::EventStream;
use key_pitch::Aims;
use lifetimes::{Change, Noted, Parts, StepFault};
use mt_base::{Channel, Event, Memory, What};
use plan_laws::taken_laws;
use retune_model::next_laws;
use std::alloc::Global;

/// Of which notes the pairs are counted together.
#[derive(Clone, Copy, Debug, PartialEq, Eq)]
pub(crate) enum Counted {
    /// Of none: the dump and live routes.
    Nothing,
    /// Of all parts of a port: the bend route.
    Ports,
    /// Of each part: the MPE route.
    Parts,
}

/// What a source asks for: which parts have a note on, and how many pairs there are at once.
#[derive(Debug, Drop)]
pub(crate) struct Survey {
    alloc: Global,
    counted: Counted,
    noted: Noted,
    /// The ports with a message on channel 10.
    drums: [bool; 256],
    tallies: Vec<Tally>,
    /// The count of what has no pairs.
    empty: Counter,
}

/// Whether an event is a message on channel 10.
fn is_drum_message(what: &What<'_>) -> bool
    ensures { result ≡ is_drum_message (view_what what.now) }
{
    match *what {
        What::Message(ref message) => message.channel().number() == 9,
        What::Sysex { .. } | What::Meta { .. } => false,
    }
}

/// Marks the port of an event on channel 10.
fn mark_drums(drums: &mut [bool; 256], port: u8, what: &What<'_>)
    ensures { (es : List MidiEvent) (e : MidiEvent) → e.what ≡ view_what what.now
        → port ≡ port_on es e → AreDrums es drums.old → AreDrums (es ++ e ∷ []) drums.new }
{
    next_laws();
    if is_drum_message(what) {
        drums[port as usize] = true;
    }
}

impl Survey {
    /// Before any event.
    fn new(alloc: Global, counted: Counted) -> Survey
        ensures { (o : Options) (table : Targets) (es : List MidiEvent)
            → IsCountedBy o.route counted → SurveysTo o table es 0 result }
    {
        taken_laws();
        Survey {
            alloc,
            counted,
            noted: Noted::new(),
            drums: [false; 256],
            tallies: Vec::new(alloc),
            empty: Counter::new(alloc),
        }
    }

    /// The count of a port's pairs, or of those of one of its parts.
    pub fn counter(&self, port: u8, part: Option<Channel>) -> &Counter
        ensures { (o : Options) (table : Targets) (es : List MidiEvent)
            → Surveys o table es self.now → IsCounted o part
            → CountsOf o (channels_in o part) table es port result.now }
    {
        match find_tally(self.tallies.as_slice(), port, &part) {
            Some(tally) => &tally.counter,
            None => &self.empty,
        }
    }

    /// Which retuned parts of a port have a note on: bit c stands for channel c.
    pub fn parts(&self, port: u8) -> u16
        ensures { (o : Options) (table : Targets) (es : List MidiEvent)
            → Surveys o table es self.now → AreNoted o (events_on port es) result }
    {
        self.noted.parts(port)
    }

    /// Whether a port has a message on channel 10.
    pub fn drums(&self, port: u8) -> bool
        ensures { (o : Options) (table : Targets) (es : List MidiEvent)
            → Surveys o table es self.now → result ≡ has_drums (events_on port es) }
    {
        self.drums[port as usize]
    }

    /// Goes on by the event that the parts took last, which is the last of so many.
    fn see<T: Aims>(
        &mut self,
        parts: &Parts<T>,
        event: &Event<'_>,
        position: u32,
        change: &Change,
    ) -> Result<(), Memory>
        ensures { (es : List MidiEvent) (k : ℕ) → ComesAt es k (view event.now)
            → position ≡ suc k
            → Stands (T.table (table_in parts.now)) parts.now (take (suc k) es)
            → TellsChange (asked parts.now) (T.table (table_in parts.now)) (take k es)
            (view event.now) change.now
            → SurveysTo (asked parts.now) (T.table (table_in parts.now)) es k self.old
            → OnOk result (SurveysTo (asked parts.now) (T.table (table_in parts.now)) es (suc k)
            self.new) }
    {
        taken_laws();
        next_laws();
        self.noted.take(change);
        mark_drums(&mut self.drums, change.port, &event.what);
        let instant = Instant {
            position,
            tick: event.tick,
        };
        count_all(
            self.alloc,
            self.counted,
            &mut self.tallies,
            parts,
            change,
            instant,
        )
    }
}

/// Goes through all events of a source. The parts are those before any event. The first source fault
/// ends it with `Source`; where memory is wanting it ends with `Memory`.
pub(crate) fn look_through<'a, S: EventStream<'a>, T: Aims>(
    alloc: Global,
    stream: &mut S,
    parts: &mut Parts<T>,
    counted: Counted,
) -> Result<Survey, PlanFault>
    requires start { Stands (T.table (table_in parts.old)) parts.old [] }
    requires asked { AreAsked (S.all stream.old) }
    requires counted { IsCountedBy (asked parts.old).route counted }
    ensures all { S.all stream.new ≡ S.all stream.old }
    ensures table { table_in parts.new ≡ table_in parts.old }
    ensures options { asked parts.new ≡ asked parts.old }
    ensures surveys { IfOk result (Surveys (asked parts.old) (T.table (table_in parts.old))
        (S.all stream.old)) }
    ensures faultless { OnOk result (IsFaultless (asked parts.old) (T.table (table_in parts.old))
        (S.all stream.old)) }
    ensures fault { IfErr result (EndsPass (asked parts.old) (T.table (table_in parts.old))
        (S.all stream.old)) }
{
    taken_laws();
    stream.rewind();
    let mut survey = Survey::new(alloc, counted);
    let mut position = 0;
    'events: while let Some(event) = stream.next() {
        position += 1;
        let change = match parts.step(position, &event) {
            Ok(change) => change,
            Err(StepFault::Source(fault)) => return Err(PlanFault::Source(fault)),
            Err(StepFault::Memory) => return Err(PlanFault::Memory),
        };
        match survey.see(parts, &event, position, &change) {
            Ok(()) => {}
            Err(Memory) => return Err(PlanFault::Memory),
        }
    }
    Ok(survey)
}
