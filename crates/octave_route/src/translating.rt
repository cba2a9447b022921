ghost use Rattle.std.specs.Prelude.{◌≡◌, ◌≤◌, ◌<◌, List, [], length, not, ◌&&◌, nat_eq, OnOk, OnErr};
ghost use Rattle.std.specs.List.{AllByRecursion};
ghost use Rattle.mt_base.specs.Midi.{view, view_what};
ghost use Rattle.mt_base.specs.Valid.{IsValidEvent};
ghost use Rattle.midi_model.specs.Order.{AreInOrder};
ghost use Rattle.midi_model.specs.Sysex.{doing};
ghost use Rattle.retune_model.specs.PortOutput.{kept_for};
ghost use Rattle.retune_model.specs.Routes.{dump_next};
ghost use Rattle.retune_model.specs.SourceFaults.{IsFaultless};
ghost use Rattle.lifetimes.specs.Stands.{Stands, asked, table_in};
ghost use Rattle.lifetimes.specs.Noted.{IsNoted};
ghost use Rattle.routes.specs.Putting.{AllMayPut, put_all, IsFront};
ghost use Rattle.octave_route.specs.Messages.{IsOctaveValue};
ghost use Rattle.octave_route.specs.Output.{octaved};
ghost use Rattle.octave_route.specs.Putting.{setup_if, block_events, begun_in};

use crate::messages::message;
use event_stream::{EventStream, TrackSet};
use key_pitch::Aims;
use lifetimes::{Noted, Parts, StepFault};
use mt_base::{Event, Memory, What};
use retune_model::front_faults;
use routes::{is_again, is_first, is_message, put_sysex};

/// Whether a message is due, where it is wanted for the channels of a mask.
fn is_due(wanted: bool, channels: u16) -> bool
    ensures { result ≡ (wanted && not (nat_eq channels 0)) }
{
    wanted && channels != 0
}

/// Puts the message for the channels of a mask at an event's tick into its track, if it is wanted and
/// there is a channel. On `Memory` nothing was put.
fn put_setup(
    out: &mut TrackSet,
    at: &Event<'_>,
    channels: u16,
    values: &[u16; 12],
    wanted: bool,
) -> Result<(), Memory>
    requires values { AllByRecursion IsOctaveValue values.now }
    requires may { AllMayPut out.old (setup_if wanted channels values.now (view at.now)) }
    ensures put { OnOk result
        (out.new ≡ put_all out.old (setup_if wanted channels values.now (view at.now))) }
    ensures unchanged { OnErr result (out.new ≡ out.old) }
{
    let due = is_due(wanted, channels);
    if due {
        let bytes = message(channels, values);
        put_sysex(out, at, bytes.as_slice())
    } else {
        Ok(())
    }
}

/// Puts an event: before it the message, where it is the first channel message; behind it the message,
/// where it is a later reset. On `Memory` a front of that was put.
fn put_block(
    out: &mut TrackSet,
    event: &Event<'_>,
    channels: u16,
    values: &[u16; 12],
    begun: bool,
) -> Result<(), Memory>
    requires values { AllByRecursion IsOctaveValue values.now }
    requires may { AllMayPut out.old (block_events channels values.now begun (view event.now)) }
    ensures put { OnOk result
        (out.new ≡ put_all out.old (block_events channels values.now begun (view event.now))) }
    ensures front { OnErr result
        (IsFront out.old (block_events channels values.now begun (view event.now)) out.new) }
{
    let first = is_first(begun, &event.what);
    put_setup(out, event, channels, values, first)?;
    out.put(event)?;
    let again = is_again(begun, &event.what);
    put_setup(out, event, channels, values, again)
}

/// Whether a channel message of a port came.
fn has_begun(begun: &[bool; 256], port: u8) -> bool
    ensures { result ≡ begun_in begun.now port }
{
    begun[port as usize]
}

/// Keeps an event of a port in mind.
fn take(begun: &mut [bool; 256], port: u8, what: &What<'_>)
    ensures { begun_in begun.new ≡ kept_for port
        (dump_next (begun_in begun.old port) (doing (view_what what.now))) (begun_in begun.old) }
{
    if is_message(what) {
        begun[port as usize] = true;
    }
}

/// Puts an event of a port with what stands around it, and keeps it in mind. On `Memory` a front of
/// that was put.
fn pass_on(
    out: &mut TrackSet,
    event: &Event<'_>,
    channels: u16,
    values: &[u16; 12],
    port: u8,
    begun: &mut [bool; 256],
) -> Result<(), Memory>
    requires values { AllByRecursion IsOctaveValue values.now }
    requires may { AllMayPut out.old
        (block_events channels values.now (begun_in begun.old port) (view event.now)) }
    ensures put { OnOk result (out.new ≡ put_all out.old
        (block_events channels values.now (begun_in begun.old port) (view event.now))) }
    ensures front { OnErr result (IsFront out.old
        (block_events channels values.now (begun_in begun.old port) (view event.now)) out.new) }
    ensures kept { OnOk result (begun_in begun.new ≡ kept_for port
        (dump_next (begun_in begun.old port) (doing (view event.now).what))
        (begun_in begun.old)) }
{
    let came = has_begun(begun, port);
    put_block(out, event, channels, values, came)?;
    take(begun, port, &event.what);
    Ok(())
}

/// Puts all events of a stream with the octave tuning around them: for each port the message for its
/// retuned parts that have a note on, right before its first channel message and right behind each later
/// reset; a port without such a part gets none. The values are those of the twelve classes of keys, from C
/// on, at most 16,383. The parts are those before any event, and `noted` is that of all events. On
/// `Memory` a front of it was put, and the stream stands anywhere.
pub fn translate<'a, S: EventStream<'a>, T: Aims>(
    stream: &mut S,
    parts: &mut Parts<T>,
    noted: &Noted,
    values: &[u16; 12],
    out: &mut TrackSet,
) -> Result<(), Memory>
    requires start { Stands (T.table (table_in parts.old)) parts.old [] }
    requires valid { AllByRecursion IsValidEvent (S.all stream.old) }
    requires order { AreInOrder 0 (S.all stream.old) }
    requires tracks { AllByRecursion (λ e. e.track < 1024) (S.all stream.old) }
    requires few { length (S.all stream.old) ≤ 2097152 }
    requires faultless { IsFaultless (asked parts.old) (T.table (table_in parts.old))
        (S.all stream.old) }
    requires noted { IsNoted (asked parts.old) (S.all stream.old) noted.now }
    requires values { AllByRecursion IsOctaveValue values.now }
    requires may { AllMayPut out.old (octaved (asked parts.old) values.now (S.all stream.old)) }
    ensures all { S.all stream.new ≡ S.all stream.old }
    ensures put { OnOk result (out.new ≡ put_all out.old
        (octaved (asked parts.old) values.now (S.all stream.old))) }
    ensures front { OnErr result (IsFront out.old
        (octaved (asked parts.old) values.now (S.all stream.old)) out.new) }
    ensures table { table_in parts.new ≡ table_in parts.old }
    ensures options { asked parts.new ≡ asked parts.old }
{
    front_faults();
    stream.rewind();
    let mut begun = [false; 256];
    let mut position = 0;
    'events: while let Some(event) = stream.next() {
        position += 1;
        let change = match parts.step(position, &event) {
            Ok(change) => change,
            Err(StepFault::Memory) => return Err(Memory),
            Err(StepFault::Source(_)) => unreachable!(),
        };
        let channels = noted.parts(change.port);
        pass_on(out, &event, channels, values, change.port, &mut begun)?;
    }
    Ok(())
}
