ghost use Rattle.std.specs.Prelude.{◌≡◌, ◌≤◌, ◌<◌, ℕ, List, [], ◌∷◌, length, true, false, not, ◌&&◌, nat_eq, OnOk, OnErr, IfSome};
ghost use Rattle.std.specs.List.{AllByRecursion};
ghost use Rattle.mt_base.specs.Midi.{view, view_what};
ghost use Rattle.mt_base.specs.Valid.{IsValidEvent};
ghost use Rattle.midi_model.specs.Order.{AreInOrder};
ghost use Rattle.retune_model.specs.Options.{bends_notes};
ghost use Rattle.retune_model.specs.SourceFaults.{IsFaultless};
ghost use Rattle.lifetimes.specs.Stands.{Stands, asked, table_in};
ghost use Rattle.lifetimes.specs.Noted.{IsNoted};
ghost use Rattle.routes.specs.Putting.{AllMayPut, put_all, IsFront, sent_at};
ghost use Rattle.routes.specs.Routed.{routed};
ghost use Rattle.std.specs.Option.{option_map};
ghost use Rattle.midi_model.specs.Sysex.{doing};
ghost use Rattle.retune_model.specs.PortOutput.{kept_for};
ghost use Rattle.retune_model.specs.Routes.{Live, live_next};
ghost use Rattle.routes.specs.Kept.{told_in, key_begun, value_in, told_of, due_if};
ghost use Rattle.routes.specs.Device.{dumps_of, setup_if, changes_in, is_first, resets_all, block_events};

use crate::device::{Device, device_for, selections};
use crate::kept::{Kept, is_message, resets};
use crate::putting::{put_messages, put_sysex};
use event_stream::{EventStream, TrackSet};
use key_pitch::{Aim, Aims};
use lifetimes::{Noted, Parts, Tracks};
use mt_base::{Event, Memory, Msg, What};
use mts_msg::note_change;

/// Whether a dump is due in a setup.
fn is_dumped(live: bool, channels: u16) -> bool
    ensures { result ≡ (not live && not (nat_eq channels 0)) }
{
    !live && channels != 0
}

/// Puts the dump at an event's tick into its track, on dump, where a channel selects it. On `Memory`
/// nothing was put.
fn put_dump(
    out: &mut TrackSet,
    at: &Event<'_>,
    device: &Device,
    channels: u16,
) -> Result<(), Memory>
    requires { AllMayPut out.old (sent_at (view at.now) (dumps_of device.now channels)) }
    ensures put { OnOk result
        (out.new ≡ put_all out.old (sent_at (view at.now) (dumps_of device.now channels))) }
    ensures unchanged { OnErr result (out.new ≡ out.old) }
{
    let dumped = is_dumped(device.live, channels);
    if dumped {
        put_sysex(out, at, device.dump.as_slice())
    } else {
        Ok(())
    }
}

/// Puts the setup at an event's tick into its track: the dump, then the selections. On `Memory` a
/// front of it was put.
// It is seldom wanted, and its messages stand on its stack: a caller into which it were inlined would
// pay for that at each event.
#[inline(never)]
fn set_up(out: &mut TrackSet, at: &Event<'_>, device: &Device, channels: u16) -> Result<(), Memory>
    requires program { device.now.program ≤ 127 }
    requires may { AllMayPut out.old (setup_if true device.now channels (view at.now)) }
    ensures put { OnOk result
        (out.new ≡ put_all out.old (setup_if true device.now channels (view at.now))) }
    ensures front { OnErr result
        (IsFront out.old (setup_if true device.now channels (view at.now)) out.new) }
{
    put_dump(out, at, device, channels)?;
    let messages = selections(channels, device.program);
    put_messages(out, at, messages.as_slice())
}

/// The same, if it is wanted.
#[inline]
fn put_setup(
    out: &mut TrackSet,
    at: &Event<'_>,
    device: &Device,
    channels: u16,
    wanted: bool,
) -> Result<(), Memory>
    requires program { device.now.program ≤ 127 }
    requires may { AllMayPut out.old (setup_if wanted device.now channels (view at.now)) }
    ensures put { OnOk result
        (out.new ≡ put_all out.old (setup_if wanted device.now channels (view at.now))) }
    ensures front { OnErr result
        (IsFront out.old (setup_if wanted device.now channels (view at.now)) out.new) }
{
    if wanted {
        set_up(out, at, device, channels)
    } else {
        Ok(())
    }
}

/// Puts the change of a key to its value at an event's tick into its track, where one is due.
fn put_change(
    out: &mut TrackSet,
    at: &Event<'_>,
    program: u8,
    due: Option<(u8, u32)>,
) -> Result<(), Memory>
    requires program { program ≤ 127 }
    requires key { IfSome due (λ d. d.0 < 128) }
    requires value { IfSome due (λ d. d.1 ≤ 2097150) }
    requires may { AllMayPut out.old (sent_at (view at.now) (changes_in program due)) }
    ensures put { OnOk result
        (out.new ≡ put_all out.old (sent_at (view at.now) (changes_in program due))) }
    ensures unchanged { OnErr result (out.new ≡ out.old) }
{
    match due {
        Some(told) => {
            let change = note_change(program, told.0, told.1);
            put_sysex(out, at, change.as_slice())
        }
        None => Ok(()),
    }
}

/// Whether an event is the first channel message.
pub fn is_first(begun: bool, what: &What<'_>) -> bool
    ensures { result ≡ is_first begun (view_what what.now) }
{
    !begun && is_message(what)
}

/// Whether an event is a reset, once a channel message came.
pub fn is_again(begun: bool, what: &What<'_>) -> bool
    ensures { result ≡ (begun && resets_all (view_what what.now)) }
{
    begun && resets(what)
}

/// Puts an event: before it the setup, where it is the first channel message, and a change that is
/// due; behind it the setup, where it is a later reset. On `Memory` a front of it was put.
fn put_block(
    out: &mut TrackSet,
    event: &Event<'_>,
    device: &Device,
    channels: u16,
    begun: bool,
    due: Option<(u8, u32)>,
) -> Result<(), Memory>
    requires program { device.now.program ≤ 127 }
    requires key { IfSome due (λ d. d.0 < 128) }
    requires value { IfSome due (λ d. d.1 ≤ 2097150) }
    requires may { AllMayPut out.old
        (block_events device.now channels begun due (view event.now)) }
    ensures put { OnOk result (out.new
        ≡ put_all out.old (block_events device.now channels begun due (view event.now))) }
    ensures front { OnErr result (IsFront out.old
        (block_events device.now channels begun due (view event.now)) out.new) }
{
    let first = is_first(begun, &event.what);
    put_setup(out, event, device, channels, first)?;
    put_change(out, event, device.program, due)?;
    out.put(event)?;
    let again = is_again(begun, &event.what);
    put_setup(out, event, device, channels, again)
}

/// The value of a target that tells a device of a key, 0 where it has none.
fn value_of(target: Aim) -> u32
    ensures { result ≡ value_in target }
{
    match target {
        Aim::Mts { value } => value,
        Aim::Unmapped | Aim::OutOfDevice | Aim::Bend { .. } => 0,
    }
}

/// The key of a note on of a retuned part with the value of its target, where a device is told key by
/// key.
fn told_key<T: Aims>(live: bool, parts: &Parts<T>, event: &Event<'_>) -> Option<(u8, u32)>
    requires valid { IsValidEvent (view event.now) }
    requires one_table { (key onset : ℕ) → T.table (table_in parts.now) key onset
        ≡ T.table (table_in parts.now) key 0 }
    ensures { result ≡ told_of live (asked parts.now) (T.table (table_in parts.now))
        (view event.now).what }
{
    match event.what {
        What::Message(
            Msg::NoteOn {
                channel,
                key,
                velocity,
            },
        ) if live && velocity > 0 && parts.options().retunes(channel) => {
            Some((key, value_of(parts.table().mts_aim(key, event.tick))))
        }
        _ => None,
    }
}

/// Of a key and its value, whether a change is due on a port.
fn due(kept: &Kept, port: u8, told: Option<(u8, u32)>) -> Option<(u8, u32)>
    requires { IfSome told (λ x. x.0 < 128) }
    ensures { result ≡ due_if (told_in kept.now port).keys told }
{
    match told {
        Some((key, value)) if !kept.is_told(port, key) => Some((key, value)),
        Some(_) | None => None,
    }
}

/// The key alone.
fn key_of(told: Option<(u8, u32)>) -> Option<u8>
    ensures { result ≡ option_map (λ x. x.0) told }
{
    match told {
        Some(told) => Some(told.0),
        None => None,
    }
}

/// Puts an event of a port with what stands around it, and keeps it in mind. On `Memory` a front of
/// that was put.
fn pass_on(
    out: &mut TrackSet,
    event: &Event<'_>,
    device: &Device,
    channels: u16,
    port: u8,
    told: Option<(u8, u32)>,
    kept: &mut Kept,
) -> Result<(), Memory>
    requires program { device.now.program ≤ 127 }
    requires key { IfSome told (λ x. x.0 < 128) }
    requires value { IfSome told (λ x. x.1 ≤ 2097150) }
    requires may { AllMayPut out.old (block_events device.now channels
        (told_in kept.old port).begun (due_if (told_in kept.old port).keys told)
        (view event.now)) }
    ensures put { OnOk result (out.new ≡ put_all out.old (block_events device.now channels
        (told_in kept.old port).begun (due_if (told_in kept.old port).keys told)
        (view event.now))) }
    ensures front { OnErr result (IsFront out.old (block_events device.now channels
        (told_in kept.old port).begun (due_if (told_in kept.old port).keys told)
        (view event.now)) out.new) }
    ensures kept { OnOk result ((l : Live)
        → option_map (λ x. x.0) told ≡ key_begun l.is_retuned (view event.now).what
        → told_in kept.new ≡ kept_for port
        (live_next l (told_in kept.old port) (doing (view event.now).what))
        (told_in kept.old)) }
{
    let due = due(kept, port, told);
    let begun = kept.begun(port);
    put_block(out, event, device, channels, begun, due)?;
    kept.take(port, &event.what, key_of(told));
    Ok(())
}

/// Puts all events of a stream with what a device is told around them, on dump or live: for each
/// port the setup right before its first channel message and right behind each later reset, and on
/// live the change of a key right before the first note on of the key by a retuned part since the
/// start or the last reset. The parts are those before any event, over a table that holds
/// throughout, and `noted` is that of all events. On `Memory` a front of it was put, and the stream
/// stands anywhere.
pub fn translate<'a, S: EventStream<'a>, T: Aims>(
    stream: &mut S,
    parts: &mut Parts<T>,
    noted: &Noted,
    out: &mut TrackSet,
) -> Result<(), Memory>
    requires route { bends_notes (asked parts.old).route ≡ false }
    requires program { (asked parts.old).program ≤ 127 }
    requires start { Stands (T.table (table_in parts.old)) parts.old [] }
    requires valid { AllByRecursion IsValidEvent (S.all stream.old) }
    requires order { AreInOrder 0 (S.all stream.old) }
    requires tracks { AllByRecursion (λ e. e.track < 1024) (S.all stream.old) }
    requires few { length (S.all stream.old) ≤ 2097152 }
    requires faultless { IsFaultless (asked parts.old) (T.table (table_in parts.old))
        (S.all stream.old) }
    requires one_table { (key onset : ℕ) → T.table (table_in parts.old) key onset
        ≡ T.table (table_in parts.old) key 0 }
    requires noted { IsNoted (asked parts.old) (S.all stream.old) noted.now }
    requires may { AllMayPut out.old (routed (asked parts.old) (T.table (table_in parts.old))
        (S.all stream.old)) }
    ensures all { S.all stream.new ≡ S.all stream.old }
    ensures put { OnOk result (out.new ≡ put_all out.old (routed (asked parts.old)
        (T.table (table_in parts.old)) (S.all stream.old))) }
    ensures front { OnErr result (IsFront out.old (routed (asked parts.old)
        (T.table (table_in parts.old)) (S.all stream.old)) out.new) }
    ensures table { table_in parts.new ≡ table_in parts.old }
    ensures options { asked parts.new ≡ asked parts.old }
{
    stream.rewind();
    let device = device_for(parts);
    let mut kept = Kept::new();
    let mut tracks = Tracks::new();
    'events: while let Some(event) = stream.next() {
        let port = tracks.port_of(&event);
        tracks.take(&event);
        let told = told_key(device.live, parts, &event);
        let channels = noted.parts(port);
        pass_on(out, &event, &device, channels, port, told, &mut kept)?;
    }
    Ok(())
}
