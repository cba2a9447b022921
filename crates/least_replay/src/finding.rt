ghost use Rattle.std.specs.Prelude.{true, ◌≡◌, ◌≤◌, ◌<◌, ℕ, suc, List, [], length, take, nat_eq, ◌&&◌, if◌then◌else◌, unwrap_or, IfSome, IfOk, OnOk};
ghost use Rattle.mt_base.specs.Midi.{MidiEvent, view_what};
ghost use Rattle.retune_model.specs.Options.{ByBend};
ghost use Rattle.retune_model.specs.Faults.{is_part};
ghost use Rattle.retune_model.specs.SourceFaults.{IsFaultless, IsSound};
ghost use Rattle.lifetimes.specs.Stands.{Stands, asked, table_in};
ghost use Rattle.lifetimes.specs.Told.{TellsChange, begun_by, count_begun, port_on};
ghost use Rattle.plan_laws.specs.Counting.{ComesAt};
ghost use Rattle.channel_plan.specs.Passing.{AreAsked};
ghost use Rattle.channel_plan.specs.Giving.{is_reset_by};
ghost use Rattle.channel_plan.specs.Told.{channel_in};
ghost use Rattle.least_replay.specs.Found.{Goes, GoesKept, GoesEnded, AreFound, resets_on};
ghost use Rattle.least_replay.specs.FoundView.{all_seen, slots_of, AreGoing};
ghost use Rattle.least_replay.specs.Serving.{channel_at};

use crate::found::{Found, Run};
use channel_plan::Plan;
use event_stream::EventStream;
use key_pitch::Aims;
use lifetimes::{Begun, Change, Parts, StepFault};
use mt_base::{Channel, Memory, What};
use mts_msg::is_reset;
use plan_laws::{counting_laws, event_laws, run_counts, taken_laws};
use retune_model::{fewest_channels, front_faults, pair_laws, rests_are_runs, sound_sources};
use std::alloc::Global;

/// Whether an event is a reset.
fn resets(what: &What<'_>) -> bool
    ensures { result ≡ is_reset_by (view_what what.now) }
{
    match what {
        What::Sysex { lead, bytes } => *lead == 0xf0 && is_reset(bytes),
        What::Message(_) | What::Meta { .. } => false,
    }
}

/// Whether an event of a port resets another.
fn is_here(port: u8, other: u8, is_reset: bool) -> bool
    ensures { result ≡ (nat_eq port other && is_reset) }
{
    port == other && is_reset
}

/// One reset more, where there is one.
fn count_if(resets: u32, is_here: bool) -> u32
    requires { resets < 4294967295 }
    ensures { result ≡ (if is_here then suc resets else resets) }
{
    if is_here { resets + 1 } else { resets }
}

/// The channel of a note by a plan; the first where it has none.
fn channel_of(plan: &Plan, note: u32) -> Channel
    ensures { result ≡ unwrap_or (channel_in plan.now note) 0 }
{
    match plan.channel(note) {
        Some(channel) => channel,
        None => Channel::default(),
    }
}

impl Found {
    /// Goes on by the note that the last event begins, where it begins one on the port.
    fn strike<T: Aims>(
        &mut self,
        parts: &Parts<T>,
        plan: &Plan,
        port: u8,
        begun: &Option<Begun>,
        position: u32,
    ) -> Result<(), Memory>
        requires bends { (asked parts.now).route ≡ ByBend }
        requires part { IfSome begun.now
            (λ b. is_part (asked parts.now) (b.pair.part.channel) ≡ true) }
        requires going { AreGoing (asked parts.now) self.old }
        ensures goes { (es : List MidiEvent) (k : ℕ) (e : MidiEvent)
            → IsSound (asked parts.now) (T.table (table_in parts.now)) es
            → position ≡ suc k → ComesAt es k e
            → Stands (T.table (table_in parts.now)) parts.now (take (suc k) es)
            → begun.now ≡ begun_by (asked parts.now) (T.table (table_in parts.now))
            (port_on (take k es) e) (suc (count_begun (asked parts.now) (take k es))) e.tick e.what
            → self.old.resets ≡ resets_on es port (suc k)
            → GoesEnded (asked parts.now) (T.table (table_in parts.now)) es
            (channel_at (asked parts.now) es plan.now) port k
            (all_seen self.old.runs.items) (slots_of self.old.going.items)
            → OnOk result (Goes (asked parts.now) (T.table (table_in parts.now)) es
            (channel_at (asked parts.now) es plan.now) port (suc k)
            (all_seen self.new.runs.items) (slots_of self.new.going.items)) }
        ensures going { OnOk result (AreGoing (asked parts.now) self.new) }
        ensures resets { self.new.resets ≡ self.old.resets }
    {
        counting_laws();
        event_laws();
        taken_laws();
        run_counts();
        pair_laws();
        rests_are_runs();
        sound_sources();
        fewest_channels();
        let begun = match begun {
            Some(begun) => begun,
            None => return Ok(()),
        };
        if begun.pair.part.port != port {
            return Ok(());
        }
        self.begin(parts, &begun.pair, channel_of(plan, begun.note), position)
    }

    /// Goes on by the event that the parts took last, which is the last of so many.
    fn take<T: Aims>(
        &mut self,
        parts: &Parts<T>,
        plan: &Plan,
        port: u8,
        what: &What<'_>,
        change: &Change,
        position: u32,
    ) -> Result<(), Memory>
        requires bends { (asked parts.now).route ≡ ByBend }
        requires part { IfSome change.now.begun
            (λ b. is_part (asked parts.now) (b.pair.part.channel) ≡ true) }
        requires going { AreGoing (asked parts.now) self.old }
        requires some { 0 < position }
        requires few { self.old.resets < 4294967295 }
        ensures goes { (es : List MidiEvent) (k : ℕ) (e : MidiEvent)
            → IsSound (asked parts.now) (T.table (table_in parts.now)) es
            → position ≡ suc k → ComesAt es k e → e.what ≡ view_what what.now
            → Stands (T.table (table_in parts.now)) parts.now (take (suc k) es)
            → TellsChange (asked parts.now) (T.table (table_in parts.now)) (take k es) e change.now
            → self.old.resets ≡ resets_on es port k
            → GoesKept (asked parts.now) (T.table (table_in parts.now)) es
            (channel_at (asked parts.now) es plan.now) port k
            (all_seen self.old.runs.items) (slots_of self.old.going.items)
            → OnOk result (Goes (asked parts.now) (T.table (table_in parts.now)) es
            (channel_at (asked parts.now) es plan.now) port (suc k)
            (all_seen self.new.runs.items) (slots_of self.new.going.items)) }
        ensures going { OnOk result (AreGoing (asked parts.now) self.new) }
        ensures resets { (es : List MidiEvent) (k : ℕ) (e : MidiEvent)
            → ComesAt es k e → e.what ≡ view_what what.now
            → TellsChange (asked parts.now) (T.table (table_in parts.now)) (take k es) e change.now
            → self.old.resets ≡ resets_on es port k → self.new.resets ≡ resets_on es port (suc k) }
    {
        event_laws();
        taken_laws();
        self.end(parts, position - 1);
        let is_reset = is_here(change.port, port, resets(what));
        self.resets = count_if(self.resets, is_reset);
        self.strike(parts, plan, port, &change.begun, position)
    }
}

/// The runs of a port, in the order in which they begin: all events are gone through once, none of
/// which has a fault. The parts are those before any event. Memory may be wanting.
pub(crate) fn find_runs<'a, S: EventStream<'a>, T: Aims>(
    alloc: Global,
    stream: &mut S,
    parts: &mut Parts<T>,
    plan: &Plan,
    port: u8,
) -> Result<Vec<Run>, Memory>
    requires start { Stands (T.table (table_in parts.old)) parts.old [] }
    requires bends { (asked parts.old).route ≡ ByBend }
    requires asked { AreAsked (S.all stream.old) }
    requires faultless { IsFaultless (asked parts.old) (T.table (table_in parts.old))
        (S.all stream.old) }
    ensures all { S.all stream.new ≡ S.all stream.old }
    ensures table { table_in parts.new ≡ table_in parts.old }
    ensures options { asked parts.new ≡ asked parts.old }
    ensures found { IfOk result (λ runs. AreFound (asked parts.old) (T.table (table_in parts.old))
        (S.all stream.old) (channel_at (asked parts.old) (S.all stream.old) plan.now) port
        (length (S.all stream.old)) (length (S.all stream.old)) (all_seen runs.items)) }
{
    front_faults();
    taken_laws();
    counting_laws();
    rests_are_runs();
    sound_sources();
    fewest_channels();
    let mut found = Found {
        runs: Vec::new(alloc),
        going: Vec::new(alloc),
        resets: 0,
    };
    stream.rewind();
    let mut position = 0;
    'events: while let Some(event) = stream.next() {
        found.keep(parts);
        position += 1;
        let change = match parts.step(position, &event) {
            Ok(change) => change,
            Err(StepFault::Memory) => return Err(Memory),
            Err(StepFault::Source(_)) => unreachable!(),
        };
        found.take(parts, plan, port, &event.what, &change, position)?;
    }
    Ok(found.runs)
}
