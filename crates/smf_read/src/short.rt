ghost use Rattle.std.specs.Prelude.{IfSome};
ghost use Rattle.smf_read.specs.Short.{IsShort};

use crate::reading::{is_long, is_single, msg_of};
use mt_base::Msg;

/// A message whose delta has one byte or two, as most events are.
#[derive(Clone, Copy, Debug)]
pub struct Short {
    pub delta: u32,
    pub status: u8,
    pub first: u8,
    /// 0 where the message has one data byte.
    pub second: u8,
    /// How many bytes there are.
    pub len: usize,
}

/// The short message at the front, in running status or with its own status byte. None where there is another event, or a
/// fault: then the event is read byte by byte.
#[inline(always)]
pub fn read_short(running: u8, bytes: &[u8]) -> Option<Short>
    ensures { IfSome result (λ s. IsShort running bytes.now s) }
{
    match bytes {
        [delta, first, second, ..]
            if *delta < 128 && *first < 128 && *second < 128 && is_long(running) => {
            Some(Short {
                delta: *delta as u32,
                status: running,
                first: *first,
                second: *second,
                len: 3,
            })
        }
        [delta, status, first, second, ..]
            if *delta < 128 && is_long(*status) && *first < 128 && *second < 128 => {
            Some(Short {
                delta: *delta as u32,
                status: *status,
                first: *first,
                second: *second,
                len: 4,
            })
        }
        [high, low, first, second, ..]
            if *high >= 128 && *low < 128 && *first < 128 && *second < 128 && is_long(running) => {
            Some(Short {
                delta: (*high as u32 - 128) * 128 + *low as u32,
                status: running,
                first: *first,
                second: *second,
                len: 4,
            })
        }
        // Last, since most messages are notes.
        _ => read_single(running, bytes),
    }
}

/// The same of a message with one data byte, whose delta has one byte.
#[inline(always)]
fn read_single(running: u8, bytes: &[u8]) -> Option<Short>
    ensures { IfSome result (λ s. IsShort running bytes.now s) }
{
    match bytes {
        [delta, first, ..] if *delta < 128 && *first < 128 && is_single(running) => Some(Short {
            delta: *delta as u32,
            status: running,
            first: *first,
            second: 0,
            len: 2,
        }),
        [delta, status, first, ..] if *delta < 128 && is_single(*status) && *first < 128 => {
            Some(Short {
                delta: *delta as u32,
                status: *status,
                first: *first,
                second: 0,
                len: 3,
            })
        }
        _ => None,
    }
}

impl Short {
    ghost use Rattle.std.specs.Prelude.{◌≡◌, ◌<◌, ◌≤◌};
    ghost use Rattle.mt_base.specs.Valid.{IsValidMsg};
    ghost use Rattle.smf_read.specs.Short.{msg_of};

    /// The message.
    #[inline(always)]
    pub fn message(self) -> Msg
        requires low { 128 ≤ self.status }
        requires high { self.status < 240 }
        requires first { self.first < 128 }
        requires second { self.second < 128 }
        ensures is { result ≡ msg_of self.status self.first self.second }
        ensures valid { IsValidMsg result }
    {
        msg_of(self.status, self.first, self.second)
    }
}
