ghost use Rattle.std.specs.Prelude.{◌≡◌, ◌≤◌, ◌<◌, [], ℕ, true, option_map, OnOk, OnErr};
ghost use Rattle.mt_base.specs.Midi.{view};
ghost use Rattle.midi_model.specs.Sysex.{doing};
ghost use Rattle.retune_model.specs.Options.{ByMpe};
ghost use Rattle.retune_model.specs.PortOutput.{kept_for};
ghost use Rattle.retune_model.specs.Routes.{dump_next};
ghost use Rattle.lifetimes.specs.Views.{options_of};
ghost use Rattle.lifetimes.specs.Stands.{Stands, asked, table_in};
ghost use Rattle.channel_model.specs.MpeOutput.{zones_setup};
ghost use Rattle.channel_plan.specs.Passing.{AreAsked};
ghost use Rattle.routes.specs.Putting.{AllMayPut, put_all, IsFront};
ghost use Rattle.routes.specs.Device.{resets_all};
ghost use Rattle.mpe_route.specs.Zones.{zones_in, AreSmall};
ghost use Rattle.mpe_route.specs.Kept.{begun_in, bend_in, bends_after};
ghost use Rattle.mpe_route.specs.Caused.{caused_by, either};
ghost use Rattle.mpe_route.specs.Putting.{said_if, passed, block_events};
ghost use Rattle.mpe_route.specs.Planned.{IsPlanOf, zoned};

use crate::caused::{Played, caused_by, played_if, released};
use crate::kept::Kept;
use crate::laws::passing_laws;
use crate::setup::setup;
use arrayvec::ArrayVec;
use channel_plan::Plan;
use event_stream::{EventStream, TrackSet};
use key_pitch::Aims;
use lifetimes::{Options, Parts, StepFault};
use mt_base::{Event, Memory, Msg};
use routes::{is_again, is_first, put_messages};

/// Puts the setup of a port's zones at an event's tick into its track. On `Memory` a front of it was put.
// It is seldom wanted, and its messages stand on its stack: a caller into which it were inlined would
// pay for that at each event.
#[inline(never)]
fn set_up(
    out: &mut TrackSet,
    at: &Event<'_>,
    range: u8,
    plan: &Plan,
    port: u8,
) -> Result<(), Memory>
    requires small { AreSmall (zones_in plan.now port) }
    requires may { AllMayPut out.old
        (said_if true (zones_setup range (zones_in plan.now port)) (view at.now)) }
    ensures put { OnOk result (out.new ≡ put_all out.old
        (said_if true (zones_setup range (zones_in plan.now port)) (view at.now))) }
    ensures front { OnErr result (IsFront out.old
        (said_if true (zones_setup range (zones_in plan.now port)) (view at.now)) out.new) }
{
    let messages = setup(range, plan, port);
    put_messages(out, at, messages.as_slice())
}

/// The same, if it is wanted.
#[inline]
fn put_setup(
    out: &mut TrackSet,
    at: &Event<'_>,
    range: u8,
    plan: &Plan,
    port: u8,
    wanted: bool,
) -> Result<(), Memory>
    requires small { AreSmall (zones_in plan.now port) }
    requires may { AllMayPut out.old
        (said_if wanted (zones_setup range (zones_in plan.now port)) (view at.now)) }
    ensures put { OnOk result (out.new ≡ put_all out.old
        (said_if wanted (zones_setup range (zones_in plan.now port)) (view at.now))) }
    ensures front { OnErr result (IsFront out.old
        (said_if wanted (zones_setup range (zones_in plan.now port)) (view at.now)) out.new) }
{
    if wanted {
        set_up(out, at, range, plan, port)
    } else {
        Ok(())
    }
}

/// Puts what an event causes in its place, or the event itself. On `Memory` a front of it was put.
fn put_caused(
    out: &mut TrackSet,
    event: &Event<'_>,
    caused: &Option<ArrayVec<Msg, 2>>,
) -> Result<(), Memory>
    requires { AllMayPut out.old (passed (option_map (λ a. a.items) caused.now) (view event.now)) }
    ensures put { OnOk result (out.new
        ≡ put_all out.old (passed (option_map (λ a. a.items) caused.now) (view event.now))) }
    ensures front { OnErr result (IsFront out.old
        (passed (option_map (λ a. a.items) caused.now) (view event.now)) out.new) }
{
    match caused {
        Some(messages) => put_messages(out, event, messages.as_slice()),
        None => out.put(event),
    }
}

/// Puts what an event of a port causes; before it the setup, where it is the first channel message; behind
/// it the setup, where it is a later reset. On `Memory` a front of that was put.
fn put_block(
    out: &mut TrackSet,
    event: &Event<'_>,
    range: u8,
    plan: &Plan,
    port: u8,
    begun: bool,
    caused: &Option<ArrayVec<Msg, 2>>,
) -> Result<(), Memory>
    requires small { AreSmall (zones_in plan.now port) }
    requires may { AllMayPut out.old (block_events (zones_setup range (zones_in plan.now port))
        begun (option_map (λ a. a.items) caused.now) (view event.now)) }
    ensures put { OnOk result (out.new ≡ put_all out.old (block_events
        (zones_setup range (zones_in plan.now port)) begun
        (option_map (λ a. a.items) caused.now) (view event.now))) }
    ensures front { OnErr result (IsFront out.old (block_events
        (zones_setup range (zones_in plan.now port)) begun
        (option_map (λ a. a.items) caused.now) (view event.now)) out.new) }
{
    let first = is_first(begun, &event.what);
    put_setup(out, event, range, plan, port, first)?;
    put_caused(out, event, caused)?;
    let again = is_again(begun, &event.what);
    put_setup(out, event, range, plan, port, again)
}

/// The one of two notes that there is.
fn either<'a>(begun: &'a Option<Played>, released: &'a Option<Played>) -> &'a Option<Played>
    ensures { result.now ≡ either begun.entry.now released.entry.now }
{
    match begun {
        Some(_) => begun,
        None => released,
    }
}

/// Puts what an event of a port causes, which begins a note or releases one, and keeps it in mind. On
/// `Memory` a front of it was put.
fn pass_on(
    out: &mut TrackSet,
    event: &Event<'_>,
    options: &Options,
    plan: &Plan,
    port: u8,
    begun: &Option<Played>,
    released: &Option<Played>,
    kept: &mut Kept,
) -> Result<(), Memory>
    requires small { AreSmall (zones_in plan.now port) }
    requires may { AllMayPut out.old (block_events
        (zones_setup options.now.range (zones_in plan.now port)) (begun_in kept.old port)
        (caused_by (options_of options.now) (zones_in plan.now port) (bend_in kept.old port)
        (either begun.now released.now) (view event.now).what) (view event.now)) }
    ensures put { OnOk result (out.new ≡ put_all out.old (block_events
        (zones_setup options.now.range (zones_in plan.now port)) (begun_in kept.old port)
        (caused_by (options_of options.now) (zones_in plan.now port) (bend_in kept.old port)
        (either begun.now released.now) (view event.now).what) (view event.now))) }
    ensures front { OnErr result (IsFront out.old (block_events
        (zones_setup options.now.range (zones_in plan.now port)) (begun_in kept.old port)
        (caused_by (options_of options.now) (zones_in plan.now port) (bend_in kept.old port)
        (either begun.now released.now) (view event.now).what) (view event.now)) out.new) }
    ensures begun { OnOk result (begun_in kept.new ≡ kept_for port
        (dump_next (begun_in kept.old port) (doing (view event.now).what))
        (begun_in kept.old)) }
    ensures bends { OnOk result ((z d : ℕ) → z < 256 → d < 16 → bend_in kept.new z d
        ≡ bends_after port (resets_all (view event.now).what) begun.now (bend_in kept.old) z d) }
{
    let note = either(begun, released);
    let caused = caused_by(options, plan, kept, port, note, &event.what);
    let came = kept.begun(port);
    put_block(out, event, options.range, plan, port, came, &caused)?;
    kept.take(port, &event.what);
    if let Some(note) = begun {
        kept.set_bend(port, note.channel, note.bend);
    }
    Ok(())
}

/// Puts all events of a stream as the MPE route has them, by a plan of the members of its zones: for each
/// port the setup of its zones right before its first channel message and right behind each later reset; the
/// messages of a part with a zone on the zone's master, its notes on the members that the plan gives them, at
/// their target keys and bends; nothing of a part without a note on; all else as it is. The plan is one that was
/// built of the same events, parts and layout, and the parts are those before any event. On `Memory` a front of
/// it was put, and the stream stands anywhere.
pub fn translate<'a, S: EventStream<'a>, T: Aims>(
    stream: &mut S,
    parts: &mut Parts<T>,
    plan: &Plan,
    out: &mut TrackSet,
) -> Result<(), Memory>
    requires route { (asked parts.old).route ≡ ByMpe }
    requires range { (asked parts.old).range ≤ 127 }
    requires start { Stands (T.table (table_in parts.old)) parts.old [] }
    requires asked { AreAsked (S.all stream.old) }
    requires plan { IsPlanOf (asked parts.old) (T.table (table_in parts.old)) (S.all stream.old)
        plan.now }
    requires may { AllMayPut out.old (zoned (asked parts.old) (T.table (table_in parts.old))
        (S.all stream.old) plan.now) }
    ensures all { S.all stream.new ≡ S.all stream.old }
    ensures put { OnOk result (out.new ≡ put_all out.old (zoned (asked parts.old)
        (T.table (table_in parts.old)) (S.all stream.old) plan.now)) }
    ensures front { OnErr result (IsFront out.old (zoned (asked parts.old)
        (T.table (table_in parts.old)) (S.all stream.old) plan.now) out.new) }
    ensures table { table_in parts.new ≡ table_in parts.old }
    ensures options { asked parts.new ≡ asked parts.old }
{
    passing_laws();
    stream.rewind();
    let options = parts.options();
    let mut kept = Kept::new();
    let mut position = 0;
    'events: while let Some(event) = stream.next() {
        let released = released(parts, plan, &event);
        position += 1;
        let change = match parts.step(position, &event) {
            Ok(change) => change,
            Err(StepFault::Memory) => return Err(Memory),
            Err(StepFault::Source(_)) => unreachable!(),
        };
        let begun = played_if(plan, &change.begun);
        pass_on(
            out,
            &event,
            &options,
            plan,
            change.port,
            &begun,
            &released,
            &mut kept,
        )?;
    }
    Ok(())
}
