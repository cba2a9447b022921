ghost use Rattle.std.specs.Prelude.{◌≡◌, ◌<◌, ◌≤◌, ◌+◌, ◌^◌, List, [], ◌∷◌, ◌++◌, length, false, OnOk, OnErr};
ghost use Rattle.mt_base.specs.Midi.{view_what, is_end, Timed};
ghost use Rattle.mt_base.specs.Valid.{IsValidWhat};
ghost use Rattle.midi_model.specs.Writing.{quantity_bytes, body_bytes, written, with_event, most_bytes};
ghost use Rattle.smf_write.specs.Content.{timed};

use crate::event::{HEAD_LEN, content, is_last, push_head, running};
use midi_model::writing_laws;
use mt_base::{Memory, What};
use std::alloc::Global;
use std::marker::Model;

/// A track as bytes, to which events are appended.
#[derive(Drop)]
pub struct TrackText {
    bytes: Vec<u8>,
    tick: u32,
    running: u8,
    ended: bool,
}

impl Model for TrackText {
    ghost use Rattle.midi_model.specs.Writing.{Written};

    ghost Value = { Written };

    ghost view = { λ t. record { bytes = t.bytes.items; tick = t.tick; running = t.running; ended = t.ended } };

    ghost invariant = { λ t. Unit {0} };
}

impl TrackText {
    /// A track without events.
    pub fn new(alloc: Global) -> TrackText
        ensures stands { result ≡ written [] }
        ensures empty { result.bytes ≡ [] }
        ensures start { result.tick ≡ 0 }
        ensures open { result.ended ≡ false }
    {
        TrackText {
            bytes: Vec::new(alloc),
            tick: 0,
            running: 0,
            ended: false,
        }
    }

    /// How many bytes there are.
    pub fn len(&self) -> usize
        ensures { result ≡ length self.now.bytes }
    {
        self.bytes.len()
    }

    /// The tick of the last event, 0 before the first.
    pub fn last_tick(&self) -> u32
        ensures { result ≡ self.now.tick }
    {
        self.tick
    }

    /// Whether the last event is the end of the track.
    pub fn is_ended(&self) -> bool
        ensures { result ≡ self.now.ended }
    {
        self.ended
    }

    /// The content of the track's chunk.
    pub(crate) fn as_bytes(&self) -> &[u8]
        ensures { result.now ≡ self.now.bytes }
    {
        self.bytes.as_slice()
    }

    /// Appends an event: its delta, and its bytes after the running status. On `Memory` the track is unchanged.
    #[inline]
    pub fn put(&mut self, tick: u32, what: &What<'_>) -> Result<(), Memory>
        requires order { self.old.tick ≤ tick }
        requires range { tick < 2 ^ 28 }
        requires valid { IsValidWhat (view_what what.now) }
        requires open { self.old.ended ≡ false }
        ensures appended { OnOk result (self.new ≡ with_event self.old (timed tick what.now)) }
        ensures stands { (es : List Timed) → self.old ≡ written es
            → OnOk result (self.new ≡ written (es ++ timed tick what.now ∷ [])) }
        ensures last { OnOk result ((self.new.tick ≡ tick) × (self.new.ended ≡ is_end (view_what what.now))) }
        ensures grows { length self.new.bytes ≤ length self.old.bytes + most_bytes (view_what what.now) }
        ensures unchanged { OnErr result (self.new ≡ self.old) }
    {
        writing_laws();
        append(&mut self.bytes, tick - self.tick, self.running, what)?;
        self.tick = tick;
        self.running = running(what);
        self.ended = is_last(what);
        Ok(())
    }
}

/// Appends an event behind a delta, after a running status. On `Memory` the bytes are unchanged.
#[inline]
fn append(bytes: &mut Vec<u8>, delta: u32, running: u8, what: &What<'_>) -> Result<(), Memory>
    requires range { delta < 2 ^ 28 }
    requires valid { IsValidWhat (view_what what.now) }
    ensures appended { OnOk result (bytes.new.items
        ≡ bytes.old.items ++ (quantity_bytes delta ++ body_bytes running (view_what what.now))) }
    ensures grows { length bytes.new.items ≤ length bytes.old.items + most_bytes (view_what what.now) }
    ensures unchanged { OnErr result (bytes.new.items ≡ bytes.old.items) }
{
    let content = content(what);
    bytes.reserve(HEAD_LEN + content.len())?;
    push_head(bytes, delta, running, what);
    if !content.is_empty() {
        bytes.extend_from_slice(content)?;
    }
    Ok(())
}
