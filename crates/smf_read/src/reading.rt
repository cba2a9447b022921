ghost use Rattle.std.specs.Prelude.{◌≡◌, ◌<◌, ◌≤◌, ◌^◌, ◌+◌, ◌-◌, ◌↔◌, length, IfOk, IsTrue};
ghost use Rattle.mt_base.specs.Midi.{view_what};
ghost use Rattle.mt_base.specs.Valid.{IsValidMsg, IsValidWhat};
ghost use Rattle.midi_model.specs.Reading.{Gives, Gives3, Within, Within3, room, IsLong, IsRunning};
ghost use Rattle.midi_model.specs.Reading.{quantity_from, quantity_at, data_at, short_msg};
ghost use Rattle.midi_model.specs.Reading.{bytes_at, content_at, says_at, meta_alone_at, body_at, event_at};
ghost use Rattle.smf_read.specs.Short.{IsSingle, msg_of};
ghost use Rattle.smf_read.specs.Views.{timed};

use crate::stop::stop;
use midi_model::{END_OF_TRACK, LAST_TICK, META, SmfKind, Stop};
use mt_base::{Channel, Msg, What};

/// What was read of an event.
#[derive(Clone, Copy, Debug)]
pub struct Found<'a> {
    pub tick: u32,
    pub what: What<'a>,
}

/// The channel of a status byte, where the first channel's is known.
#[inline(always)]
fn channel(status: u8, first: u8) -> Channel
    requires low { first ≤ status }
    requires high { status < first + 16 }
    ensures { result ≡ status - first }
{
    Channel::at(status - first)
}

/// What is read in at most so many bytes after the next one, where the bytes before say a number.
#[tactic(auto, unfolding(midi_model::specs::Reading::quantity_from))]
fn quantity_from(turns: u32, before: u32, bytes: &[u8]) -> Result<(u32, &[u8]), Stop>
    requires few { turns ≤ 3 }
    requires small { before < room turns }
    ensures gives { Gives (λ n. n) result (quantity_from turns before bytes.entry.now) }
    ensures within { Within result (length bytes.entry.now) }
    ensures small { IfOk result (λ x. x.0 < 2 ^ 28) }
{
    match bytes {
        [] => Err(stop(&[], SmfKind::Truncated)),
        [byte, rest @ ..] => {
            if *byte < 128 {
                Ok((before * 128 + *byte as u32, rest))
            } else if turns == 0 {
                Err(stop(bytes, SmfKind::BadDelta))
            } else {
                quantity_from(turns - 1, before * 128 + (*byte - 128) as u32, rest)
            }
        }
    }
}

/// A variable-length quantity, and the bytes behind it.
#[tactic(auto, unfolding(midi_model::specs::Reading::quantity_at))]
#[inline(always)]
pub fn quantity(bytes: &[u8]) -> Result<(u32, &[u8]), Stop>
    ensures gives { Gives (λ n. n) result (quantity_at bytes.entry.now) }
    ensures within { Within result (length bytes.entry.now) }
    ensures small { IfOk result (λ x. x.0 < 2 ^ 28) }
{
    match bytes {
        // Most quantities have one byte.
        [byte, rest @ ..] if *byte < 128 => Ok((*byte as u32, rest)),
        _ => quantity_from(3, 0, bytes),
    }
}

/// A data byte.
#[tactic(auto, unfolding(midi_model::specs::Reading::data_at))]
fn data(bytes: &[u8]) -> Result<(u8, &[u8]), Stop>
    ensures gives { Gives (λ n. n) result (data_at bytes.entry.now) }
    ensures within { Within result (length bytes.entry.now) }
    ensures small { IfOk result (λ x. x.0 < 128) }
{
    match bytes {
        [] => Err(stop(&[], SmfKind::Truncated)),
        [byte, rest @ ..] => {
            if *byte < 128 {
                Ok((*byte, rest))
            } else {
                Err(stop(bytes, SmfKind::BadData))
            }
        }
    }
}

/// The message of a status byte and its data bytes. Where it has only one, the second says nothing.
#[inline(always)]
pub fn msg_of(status: u8, d: u8, e: u8) -> Msg
    requires low { 128 ≤ status }
    requires high { status < 240 }
    requires d { d < 128 }
    requires e { e < 128 }
    ensures is { result ≡ msg_of status d e }
    ensures valid { IsValidMsg result }
{
    if status < 0x90 {
        Msg::NoteOff {
            channel: channel(status, 0x80),
            key: d,
            velocity: e,
        }
    } else if status < 0xa0 {
        Msg::NoteOn {
            channel: channel(status, 0x90),
            key: d,
            velocity: e,
        }
    } else if status < 0xb0 {
        Msg::KeyPressure {
            channel: channel(status, 0xa0),
            key: d,
            value: e,
        }
    } else if status < 0xc0 {
        Msg::Control {
            channel: channel(status, 0xb0),
            number: d,
            value: e,
        }
    } else if status < 0xe0 {
        short_msg(status, d)
    } else {
        Msg::Bend {
            channel: channel(status, 0xe0),
            value: d as u16 + 128 * e as u16,
        }
    }
}

/// The message of a status with one data byte.
#[inline(always)]
fn short_msg(status: u8, d: u8) -> Msg
    requires low { 192 ≤ status }
    requires high { status < 224 }
    requires d { d < 128 }
    ensures is { result ≡ short_msg status d }
    ensures valid { IsValidMsg result }
{
    if status < 0xd0 {
        Msg::Program {
            channel: channel(status, 0xc0),
            program: d,
        }
    } else {
        Msg::Pressure {
            channel: channel(status, 0xd0),
            value: d,
        }
    }
}

/// Whether a byte is the status byte of a message with two data bytes.
#[inline(always)]
pub fn is_long(status: u8) -> bool
    ensures { IsTrue result ↔ IsLong status }
{
    (status >= 0x80 && status < 0xc0) || (status >= 0xe0 && status < 0xf0)
}

/// Whether a byte is the status byte of a message with one data byte.
#[inline(always)]
pub fn is_single(status: u8) -> bool
    ensures { IsTrue result ↔ IsSingle status }
{
    status >= 0xc0 && status < 0xe0
}

/// The data bytes of a message whose status byte is known, as an event, and the running status after it.
#[tactic(auto, unfolding(midi_model::specs::Reading::message_at))]
fn message(status: u8, bytes: &[u8]) -> Result<(What<'_>, u8, &[u8]), Stop>
    requires low { 128 ≤ status }
    requires high { status < 240 }
    ensures valid { IfOk result (λ x. IsValidWhat (view_what x.0)) }
    ensures gives { Gives3 view_what result (says_at status bytes.entry.now) }
    ensures within { Within3 result (length bytes.entry.now) }
    ensures running { IfOk result (λ x. IsRunning x.1) }
{
    let (d, rest) = data(bytes)?;
    let (e, rest) = if is_single(status) {
        (0, rest)
    } else {
        data(rest)?
    };
    Ok((What::Message(msg_of(status, d, e)), status, rest))
}

/// So many bytes, and those behind them.
#[tactic(auto, unfolding(midi_model::specs::Reading::bytes_at))]
fn bytes_of(count: u32, bytes: &[u8]) -> Result<(&[u8], &[u8]), Stop>
    ensures count { IfOk result (λ x. length x.0.now ≡ count) }
    ensures gives { Gives (λ x. x.now) result (bytes_at count bytes.entry.now) }
    ensures within { Within result (length bytes.entry.now) }
{
    let count = count as usize;
    if bytes.len() < count {
        return Err(stop(&[], SmfKind::Truncated));
    }
    Ok(bytes.split_at(count))
}

/// A length, and that many bytes.
#[tactic(auto, unfolding(midi_model::specs::Reading::content_at))]
fn content(bytes: &[u8]) -> Result<(&[u8], &[u8]), Stop>
    ensures small { IfOk result (λ x. length x.0.now < 2 ^ 28) }
    ensures gives { Gives (λ x. x.now) result (content_at bytes.entry.now) }
    ensures within { Within result (length bytes.entry.now) }
{
    let (count, rest) = quantity(bytes)?;
    bytes_of(count, rest)
}

/// A meta event behind its status byte; no status runs on after it.
#[tactic(auto, unfolding(midi_model::specs::Reading::meta_at))]
fn meta(bytes: &[u8]) -> Result<(What<'_>, u8, &[u8]), Stop>
    ensures valid { IfOk result (λ x. IsValidWhat (view_what x.0)) }
    ensures gives { Gives3 view_what result (meta_alone_at bytes.entry.now) }
    ensures within { Within3 result (length bytes.entry.now) }
    ensures running { IfOk result (λ x. IsRunning x.1) }
{
    match bytes {
        [] => Err(stop(&[], SmfKind::Truncated)),
        [kind, rest @ ..] => {
            let (count, after) = quantity(rest)?;
            if *kind == END_OF_TRACK && count > 0 {
                return Err(stop(rest, SmfKind::BadData));
            }
            let (bytes, after) = bytes_of(count, after)?;
            Ok((What::Meta { kind: *kind, bytes }, 0, after))
        }
    }
}

/// An event behind its delta, and the running status after it.
#[tactic(auto, unfolding(midi_model::specs::Reading::body_at))]
fn body(running: u8, bytes: &[u8]) -> Result<(What<'_>, u8, &[u8]), Stop>
    requires { IsRunning running }
    ensures valid { IfOk result (λ x. IsValidWhat (view_what x.0)) }
    ensures gives { Gives3 view_what result (body_at running bytes.entry.now) }
    ensures within { Within3 result (length bytes.entry.now) }
    ensures running { IfOk result (λ x. IsRunning x.1) }
{
    match bytes {
        [] => Err(stop(&[], SmfKind::Truncated)),
        [byte, rest @ ..] => {
            let byte = *byte;
            if byte < 0x80 {
                if running == 0 {
                    return Err(stop(bytes, SmfKind::NoStatus));
                }
                message(running, bytes)
            } else if byte < 0xf0 {
                message(byte, rest)
            } else if byte == 0xf0 || byte == 0xf7 {
                let (bytes, rest) = content(rest)?;
                Ok((What::Sysex { lead: byte, bytes }, 0, rest))
            } else if byte == META {
                meta(rest)
            } else {
                Err(stop(bytes, SmfKind::BadStatus))
            }
        }
    }
}

/// An event, where those before it end at a tick, and the running status after it.
#[tactic(auto, unfolding(midi_model::specs::Reading::event_at))]
#[inline(always)]
pub fn event(running: u8, before: u32, bytes: &[u8]) -> Result<(Found<'_>, u8, &[u8]), Stop>
    requires running { IsRunning running }
    requires before { before < 2 ^ 28 }
    ensures gives { Gives3 timed result (event_at running before bytes.entry.now) }
    ensures within { Within3 result (length bytes.entry.now) }
    ensures running { IfOk result (λ x. IsRunning x.1) }
    ensures tick { IfOk result (λ x. x.0.tick < 2 ^ 28) }
    ensures valid { IfOk result (λ x. IsValidWhat (view_what x.0.what)) }
{
    let (delta, rest) = quantity(bytes)?;
    let tick = before + delta;
    if tick > LAST_TICK {
        return Err(stop(bytes, SmfKind::TrackTooLong));
    }
    match body(running, rest) {
        Err(stop) => Err(stop),
        Ok((what, running, rest)) => Ok((Found { tick, what }, running, rest)),
    }
}
