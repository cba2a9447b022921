ghost use Rattle.std.specs.Prelude.{◌≡◌, ◌<◌, ◌≤◌, ◌+◌, ◌^◌, ◌++◌, length, vec_len, vec_capacity};
ghost use Rattle.mt_base.specs.Midi.{view_what, is_end};
ghost use Rattle.mt_base.specs.Valid.{IsValidMsg, IsValidWhat};
ghost use Rattle.midi_model.specs.Writing.{quantity_bytes, status_of, data_of, running_after, body_bytes, most_bytes};
ghost use Rattle.smf_write.specs.Content.{content_of};

use midi_model::{END_OF_TRACK, META};
use mt_base::{Msg, What};

/// The most bytes of an event up to its content: a delta of four bytes, a meta event's first two, a length of four.
pub const HEAD_LEN: usize = 10;

/// Appends a quantity in its shortest spelling.
#[tactic(auto, unfolding(midi_model::specs::Writing::quantity_bytes))]
#[inline]
fn push_quantity(bytes: &mut Vec<u8>, quantity: u32)
    requires range { quantity < 2 ^ 28 }
    requires room { vec_len bytes.old + 4 ≤ vec_capacity bytes.old }
    ensures items { bytes.new.items ≡ bytes.old.items ++ quantity_bytes quantity }
    ensures grows { vec_len bytes.new ≤ vec_len bytes.old + 4 }
    ensures capacity { vec_capacity bytes.new ≡ vec_capacity bytes.old }
{
    if quantity < 128 {
        bytes.push_reserved(quantity as u8);
    } else if quantity < 16_384 {
        bytes.push_reserved(128 + (quantity / 128) as u8);
        bytes.push_reserved((quantity % 128) as u8);
    } else if quantity < 2_097_152 {
        bytes.push_reserved(128 + (quantity / 16_384) as u8);
        bytes.push_reserved(128 + (quantity / 128 % 128) as u8);
        bytes.push_reserved((quantity % 128) as u8);
    } else {
        bytes.push_reserved(128 + (quantity / 2_097_152) as u8);
        bytes.push_reserved(128 + (quantity / 16_384 % 128) as u8);
        bytes.push_reserved(128 + (quantity / 128 % 128) as u8);
        bytes.push_reserved((quantity % 128) as u8);
    }
}

/// The status byte of a message.
#[inline]
fn status(message: &Msg) -> u8
    requires { IsValidMsg message.now }
    ensures value { result ≡ status_of message.now }
    ensures range { 128 ≤ result }
{
    match *message {
        Msg::NoteOff { channel, .. } => 0x80 + channel.number(),
        Msg::NoteOn { channel, .. } => 0x90 + channel.number(),
        Msg::KeyPressure { channel, .. } => 0xa0 + channel.number(),
        Msg::Control { channel, .. } => 0xb0 + channel.number(),
        Msg::Program { channel, .. } => 0xc0 + channel.number(),
        Msg::Pressure { channel, .. } => 0xd0 + channel.number(),
        Msg::Bend { channel, .. } => 0xe0 + channel.number(),
    }
}

/// Appends the data bytes of a message.
#[inline]
fn push_data(bytes: &mut Vec<u8>, message: &Msg)
    requires valid { IsValidMsg message.now }
    requires room { vec_len bytes.old + 2 ≤ vec_capacity bytes.old }
    ensures items { bytes.new.items ≡ bytes.old.items ++ data_of message.now }
    ensures grows { vec_len bytes.new ≤ vec_len bytes.old + 2 }
    ensures capacity { vec_capacity bytes.new ≡ vec_capacity bytes.old }
{
    match *message {
        Msg::NoteOff { key, velocity, .. } | Msg::NoteOn { key, velocity, .. } => {
            bytes.push_reserved(key);
            bytes.push_reserved(velocity);
        }
        Msg::KeyPressure { key, value, .. } => {
            bytes.push_reserved(key);
            bytes.push_reserved(value);
        }
        Msg::Control { number, value, .. } => {
            bytes.push_reserved(number);
            bytes.push_reserved(value);
        }
        Msg::Program { program, .. } => bytes.push_reserved(program),
        Msg::Pressure { value, .. } => bytes.push_reserved(value),
        Msg::Bend { value, .. } => {
            bytes.push_reserved((value % 128) as u8);
            bytes.push_reserved((value / 128) as u8);
        }
    }
}

/// The running status behind an event: 0 is none.
#[inline]
pub fn running(what: &What<'_>) -> u8
    requires { IsValidWhat (view_what what.now) }
    ensures { result ≡ running_after (view_what what.now) }
{
    match what {
        What::Message(message) => status(message),
        What::Sysex { .. } | What::Meta { .. } => 0,
    }
}

/// Whether an event is the end of its track.
#[inline]
pub fn is_last(what: &What<'_>) -> bool
    ensures { result ≡ is_end (view_what what.now) }
{
    match what {
        What::Meta { kind, .. } => *kind == END_OF_TRACK,
        What::Message(_) | What::Sysex { .. } => false,
    }
}

/// The bytes of a system exclusive or meta event behind its length; of a message none.
#[inline]
pub fn content<'a>(what: &What<'a>) -> &'a [u8]
    ensures { result.now ≡ content_of (view_what what.now) }
{
    match *what {
        What::Message(_) => &[],
        What::Sysex { bytes, .. } | What::Meta { bytes, .. } => bytes,
    }
}

/// Appends a delta, and the event behind it up to its content, after a running status.
#[inline]
pub fn push_head(bytes: &mut Vec<u8>, delta: u32, running: u8, what: &What<'_>)
    requires range { delta < 2 ^ 28 }
    requires valid { IsValidWhat (view_what what.now) }
    requires room { vec_len bytes.old + 10 ≤ vec_capacity bytes.old }
    ensures bytes { bytes.new.items ++ content_of (view_what what.now)
        ≡ bytes.old.items ++ (quantity_bytes delta ++ body_bytes running (view_what what.now)) }
    ensures grows { vec_len bytes.new + length (content_of (view_what what.now))
        ≤ vec_len bytes.old + most_bytes (view_what what.now) }
    ensures capacity { vec_capacity bytes.new ≡ vec_capacity bytes.old }
{
    push_quantity(bytes, delta);
    match what {
        What::Message(message) => {
            let status = status(message);
            if status != running {
                bytes.push_reserved(status);
            }
            push_data(bytes, message);
        }
        What::Sysex {
            lead,
            bytes: content,
        } => {
            bytes.push_reserved(*lead);
            push_quantity(bytes, content.len() as u32);
        }
        What::Meta {
            kind,
            bytes: content,
        } => {
            bytes.push_reserved(META);
            bytes.push_reserved(*kind);
            push_quantity(bytes, content.len() as u32);
        }
    }
}
