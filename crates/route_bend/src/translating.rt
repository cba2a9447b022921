ghost use Rattle.std.specs.Prelude.{◌≡◌, ◌≤◌, ◌<◌, ℕ, Bool, List, [], length, OnOk, OnErr};
ghost use Rattle.std.specs.List.{AllByRecursion};
ghost use Rattle.mt_base.specs.Midi.{view, view_what};
ghost use Rattle.mt_base.specs.Valid.{IsValidEvent};
ghost use Rattle.midi_model.specs.Order.{AreInOrder};
ghost use Rattle.retune_model.specs.Options.{ByBend};
ghost use Rattle.retune_model.specs.SourceFaults.{IsFaultless};
ghost use Rattle.lifetimes.specs.Stands.{Stands, asked, table_in};
ghost use Rattle.channel_plan.specs.Planned.{IsPlan};
ghost use Rattle.lifetimes.specs.Views.{options_of};
ghost use Rattle.routes.specs.Putting.{AllMayPut, put_all, IsFront};
ghost use Rattle.route_bend.specs.Bent.{bent, IsPlanned};
ghost use Rattle.route_bend.specs.Putting.{is_of_part, block_events};

use crate::bending::Bending;
use crate::laws::turning;
use channel_plan::Plan;
use event_stream::{EventStream, TrackSet};
use key_pitch::Aims;
use lifetimes::{Options, Parts, StepFault};
use mt_base::{Event, Memory, Msg, What};
use retune_model::front_faults;
use routes::put_messages;
use std::alloc::Global;

/// Whether an event is a message of a retuned part.
fn is_of_part(options: &Options, what: &What<'_>) -> bool
    ensures { result ≡ is_of_part (options_of options.now) (view_what what.now) }
{
    match *what {
        What::Message(ref message) => options.retunes(message.channel()),
        What::Sysex { .. } | What::Meta { .. } => false,
    }
}

/// Puts what an event causes: these messages, where it is a message of a retuned part; else the event
/// itself. On `Memory` a front of that was put.
fn put_block(
    out: &mut TrackSet,
    event: &Event<'_>,
    options: &Options,
    messages: &[Msg],
) -> Result<(), Memory>
    requires { AllMayPut out.old
        (block_events (options_of options.now) (view event.now) messages.now) }
    ensures put { OnOk result (out.new ≡ put_all out.old
        (block_events (options_of options.now) (view event.now) messages.now)) }
    ensures front { OnErr result (IsFront out.old
        (block_events (options_of options.now) (view event.now) messages.now) out.new) }
{
    let spoken = is_of_part(options, &event.what);
    if spoken {
        put_messages(out, event, messages)
    } else {
        out.put(event)
    }
}

/// Puts the output of the bend route for all events of a stream, none of which has a fault: the notes of
/// each run on the channel that the plan gives them, behind the messages that bring the channel there; what
/// a part says goes to the channels that its runs hold. The parts are those before any event. On `Memory`
/// a front of it was put, and the stream stands anywhere.
pub fn translate<'a, S: EventStream<'a>, T: Aims>(
    alloc: Global,
    stream: &mut S,
    parts: &mut Parts<T>,
    plan: &Plan,
    out: &mut TrackSet,
) -> Result<(), Memory>
    requires route { (asked parts.old).route ≡ ByBend }
    requires start { Stands (T.table (table_in parts.old)) parts.old [] }
    requires valid { AllByRecursion IsValidEvent (S.all stream.old) }
    requires order { AreInOrder 0 (S.all stream.old) }
    requires tracks { AllByRecursion (λ e. e.track < 1024) (S.all stream.old) }
    requires few { length (S.all stream.old) ≤ 2097152 }
    requires faultless { IsFaultless (asked parts.old) (T.table (table_in parts.old))
        (S.all stream.old) }
    requires planned { IsPlanned (asked parts.old) (T.table (table_in parts.old))
        (S.all stream.old) plan.now out.old }
    ensures all { S.all stream.new ≡ S.all stream.old }
    ensures put { OnOk result ((allowed : ℕ → Bool) → IsPlan (asked parts.old) allowed
        (T.table (table_in parts.old)) (S.all stream.old) plan.now
        → out.new ≡ put_all out.old (bent (asked parts.old) allowed
        (T.table (table_in parts.old)) (S.all stream.old) plan.now)) }
    ensures front { OnErr result ((allowed : ℕ → Bool) → IsPlan (asked parts.old) allowed
        (T.table (table_in parts.old)) (S.all stream.old) plan.now
        → IsFront out.old (bent (asked parts.old) allowed
        (T.table (table_in parts.old)) (S.all stream.old) plan.now) out.new) }
    ensures table { table_in parts.new ≡ table_in parts.old }
    ensures options { asked parts.new ≡ asked parts.old }
{
    turning();
    front_faults();
    stream.rewind();
    let options = parts.options();
    let mut bending = Bending::new(alloc);
    let mut position = 0;
    'events: while let Some(event) = stream.next() {
        bending.prepare(parts, &event)?;
        position += 1;
        let change = match parts.step(position, &event) {
            Ok(change) => change,
            Err(StepFault::Memory) => return Err(Memory),
            Err(StepFault::Source(_)) => unreachable!(),
        };
        bending.take(parts, plan, &event, &change)?;
        put_block(out, &event, &options, bending.out.messages.as_slice())?;
    }
    Ok(())
}
