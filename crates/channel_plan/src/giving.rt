ghost use Rattle.std.specs.Prelude.{◌≡◌, ◌<◌, ◌≤◌, ℕ, suc, List, [], Bool, true, length, map, take, IfSome, OnOk, IfOk, IfErr};
ghost use Rattle.std.specs.List.{AllByRecursion};
ghost use Rattle.mt_base.specs.Midi.{MidiEvent, view_what};
ghost use Rattle.mt_base.specs.Valid.{IsValidEvent};
ghost use Rattle.midi_model.specs.Order.{AreInOrder};
ghost use Rattle.retune_model.specs.Options.{bends_notes};
ghost use Rattle.retune_model.specs.Faults.{is_part};
ghost use Rattle.retune_model.specs.SourceFaults.{IsFaultless, IsSound};
ghost use Rattle.lifetimes.specs.Views.{pair_of};
ghost use Rattle.lifetimes.specs.Stands.{Stands, asked, table_in};
ghost use Rattle.lifetimes.specs.Told.{TellsChange};
ghost use Rattle.plan_laws.specs.Counting.{ComesAt};
ghost use Rattle.channel_plan.specs.Layouts.{IsLayoutOf, allows};
ghost use Rattle.channel_plan.specs.Told.{port_in, or_of};
ghost use Rattle.channel_plan.specs.Passing.{AreAsked};
ghost use Rattle.channel_plan.specs.Finding.{ArePlanned};
ghost use Rattle.channel_plan.specs.Serving.{heads, BeginsNote, ServesNote};
ghost use Rattle.channel_plan.specs.Giving.{Gives, without_runs, with_run, Goes, GoesKept, GoesFreed, ServesAll, is_reset_by};
ghost use Rattle.channel_plan.specs.declared.plan.Plan.{Plan as PlanOf};

use crate::fault::PlanFault;
use crate::layout::Layout;
use crate::plan::{Given, PortPlan, find_port};
use crate::rowed::rows_of;
use crate::rowing::Used;
use crate::serving::{free_rows, give_note, keep_rows};
use event_stream::EventStream;
use key_pitch::Aims;
use lifetimes::{Change, Parts, StepFault};
use mt_base::{Memory, Pair, What};
use mts_msg::is_reset;
use plan_laws::{counting_laws, event_laws, run_counts, taken_laws};
use retune_model::{fewest_channels, front_faults, front_laws};
use std::alloc::Global;

/// What is given to the notes of a source so far.
#[derive(Drop)]
struct Giving {
    rows: Vec<Used>,
    given: Vec<Given>,
    runs: Vec<u32>,
}

/// Whether an event is a reset.
fn resets(what: &What<'_>) -> bool
    ensures { result ≡ is_reset_by (view_what what.now) }
{
    match what {
        What::Sysex { lead, bytes } => *lead == 0xf0 && is_reset(bytes),
        What::Message(_) | What::Meta { .. } => false,
    }
}

/// How many runs began on a port so far, which is the number of the next.
fn next_run(ports: &[PortPlan], port: u8) -> u32
    ensures { result ≡ or_of 0 (λ p. p.runs) (port_in ports.now port) }
{
    match find_port(ports, port) {
        Some(plan) => plan.runs,
        None => 0,
    }
}

/// A run begins on a port, which a plan may be of.
fn count_on(plan: &mut PortPlan, port: u8)
    requires { plan.old.runs < 4294967295 }
    ensures { plan.new ≡ with_run port plan.old }
{
    if plan.number == port {
        plan.runs += 1;
    }
}

/// A run begins on a port.
fn count_run(ports: &mut [PortPlan], port: u8)
    requires { AllByRecursion (λ p. p.runs < 4294967295) ports.old }
    ensures { ports.new ≡ map (with_run port) ports.old }
{
    let mut place = 0;
    while place < ports.len() {
        count_on(&mut ports[place], port);
        place += 1;
    }
}

impl Giving {
    /// A note of a pair begins at the event that the parts took last.
    fn begin<T: Aims>(
        &mut self,
        parts: &Parts<T>,
        ports: &mut [PortPlan],
        pair: &Pair,
    ) -> Result<(), Memory>
        requires bends { 0 < length self.old.rows.items
            → bends_notes (asked parts.now).route ≡ true }
        requires part { is_part (asked parts.now) (pair.now.part.channel) ≡ true }
        requires few { AllByRecursion (λ p. p.runs < 4294967295) ports.old }
        ensures goes { (es : List MidiEvent) (k : ℕ) (e : MidiEvent) → AreInOrder 0 es
            → (bends_notes (asked parts.now).route ≡ true
            → IsSound (asked parts.now) (T.table (table_in parts.now)) es)
            → Stands (T.table (table_in parts.now)) parts.now (take (suc k) es)
            → BeginsNote (asked parts.now) (T.table (table_in parts.now)) es k e (pair_of pair.now)
            → ServesNote (asked parts.now) (pair_of pair.now) ports.old (heads self.old.rows.items)
            → GoesFreed (asked parts.now) (T.table (table_in parts.now)) es k ports.old self.old
            → OnOk result (Goes (asked parts.now) (T.table (table_in parts.now)) es (suc k)
            ports.new self.new) }
        ensures heads { heads self.new.rows.items ≡ heads self.old.rows.items }
        ensures ports { map without_runs ports.new ≡ map without_runs ports.old }
    {
        run_counts();
        let next = next_run(ports, pair.part.port);
        let chosen = give_note(self.rows.as_mut_slice(), parts, pair, next);
        self.given.push(Given {
            port: pair.part.port,
            channel: chosen.channel,
        })?;
        self.runs.push(chosen.run)?;
        if chosen.is_new {
            count_run(ports, pair.part.port);
        }
        Ok(())
    }

    /// Goes on by the event that the parts took last, which is the last of so many.
    fn take<T: Aims>(
        &mut self,
        parts: &Parts<T>,
        ports: &mut [PortPlan],
        what: &What<'_>,
        change: &Change,
        position: u32,
    ) -> Result<(), Memory>
        requires bends { 0 < length self.old.rows.items
            → bends_notes (asked parts.now).route ≡ true }
        requires part { IfSome change.now.begun
            (λ b. is_part (asked parts.now) (b.pair.part.channel) ≡ true) }
        requires few { AllByRecursion (λ p. p.runs < 4294967295) ports.old }
        ensures goes { (es : List MidiEvent) (k : ℕ) (e : MidiEvent) → AreInOrder 0 es
            → (bends_notes (asked parts.now).route ≡ true
            → IsSound (asked parts.now) (T.table (table_in parts.now)) es)
            → position ≡ suc k → ComesAt es k e → IsValidEvent e → e.what ≡ view_what what.now
            → Stands (T.table (table_in parts.now)) parts.now (take (suc k) es)
            → TellsChange (asked parts.now) (T.table (table_in parts.now)) (take k es) e change.now
            → ServesAll (asked parts.now) es ports.old (heads self.old.rows.items)
            → GoesKept (asked parts.now) (T.table (table_in parts.now)) es k ports.old self.old
            → OnOk result (Goes (asked parts.now) (T.table (table_in parts.now)) es (suc k)
            ports.new self.new) }
        ensures heads { heads self.new.rows.items ≡ heads self.old.rows.items }
        ensures ports { map without_runs ports.new ≡ map without_runs ports.old }
    {
        counting_laws();
        event_laws();
        taken_laws();
        run_counts();
        front_laws();
        free_rows(
            self.rows.as_mut_slice(),
            parts,
            change.port,
            &change.ended,
            resets(what),
            position,
        );
        match &change.begun {
            Some(begun) => self.begin(parts, ports, &begun.pair),
            None => Ok(()),
        }
    }
}

/// Goes through all events again, none of which has a fault, and gives each retuned note its
/// channel and its run; the runs of each port are counted in what is planned for it. The parts are
/// those before any event. Memory may be wanting.
pub(crate) fn give<'a, S: EventStream<'a>, T: Aims>(
    alloc: Global,
    stream: &mut S,
    parts: &mut Parts<T>,
    layout: Layout,
    ports: &mut [PortPlan],
) -> Result<(Vec<Given>, Vec<u32>), PlanFault>
    requires start { Stands (T.table (table_in parts.old)) parts.old [] }
    requires asked { AreAsked (S.all stream.old) }
    requires layout { IsLayoutOf (asked parts.old).route layout }
    requires faultless { IsFaultless (asked parts.old) (T.table (table_in parts.old))
        (S.all stream.old) }
    requires planned { ArePlanned (asked parts.old) (allows layout) (T.table (table_in parts.old))
        (S.all stream.old) ports.old }
    ensures all { S.all stream.new ≡ S.all stream.old }
    ensures ports { map without_runs ports.new ≡ map without_runs ports.old }
    ensures gives { IfOk result (λ x. (plan : PlanOf) → plan.ports.items ≡ ports.new
        → plan.given.items ≡ x.0.items → plan.runs.items ≡ x.1.items
        → Gives (asked parts.old) (allows layout) (T.table (table_in parts.old)) (S.all stream.old)
        plan) }
    ensures memory { IfErr result (λ fault. fault ≡ PlanFault.Memory) }
{
    fewest_channels();
    taken_laws();
    event_laws();
    run_counts();
    front_faults();
    let rows = match rows_of(alloc, layout, ports) {
        Ok(rows) => rows,
        Err(_) => return Err(PlanFault::Memory),
    };
    let mut giving = Giving {
        rows,
        given: Vec::new(alloc),
        runs: Vec::new(alloc),
    };
    stream.rewind();
    let mut position = 0;
    'events: while let Some(event) = stream.next() {
        keep_rows(giving.rows.as_mut_slice(), parts);
        position += 1;
        let change = match parts.step(position, &event) {
            Ok(change) => change,
            Err(StepFault::Memory) => return Err(PlanFault::Memory),
            Err(StepFault::Source(_)) => unreachable!(),
        };
        match giving.take(parts, ports, &event.what, &change, position) {
            Ok(()) => {}
            Err(_) => return Err(PlanFault::Memory),
        }
    }
    Ok((giving.given, giving.runs))
}
