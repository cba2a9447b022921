ghost use Rattle.std.specs.Prelude.{◌≡◌, ◌<◌, ◌≤◌, ◌^◌, true, IsTrue, ◌↔◌, IfSome, IfNone, [], ◌∷◌, length, map};
ghost use Rattle.mt_base.specs.Midi.{view, view_what, is_end, placed};
ghost use Rattle.mt_base.specs.Valid.{IsValidEvent};
ghost use Rattle.midi_model.specs.Reading.{IsRunning, track_in};
ghost use Rattle.smf_read.specs.Sound.{IsSound};

use crate::reading::{event, quantity};
use crate::short::read_short;
use crate::stop::stop;
use midi_model::{END_OF_TRACK, LAST_TICK, SmfKind, Stop, reading_laws};
use mt_base::{Event, What};

/// Whether the track ends here.
fn is_end(what: &What<'_>) -> bool
    ensures { result ≡ is_end (view_what what.now) }
{
    match what {
        What::Meta { kind, .. } => *kind == END_OF_TRACK,
        _ => false,
    }
}

/// What is wrong with the content of a track chunk.
pub fn fault_in(bytes: &[u8]) -> Option<Stop>
    ensures exact { result ≡ (track_in bytes.now).fault }
    ensures within { IfSome result (λ s. s.left ≤ length bytes.now) }
{
    reading_laws();
    let mut running = 0u8;
    let mut tick = 0u32;
    let mut rest = bytes;
    'events: while !rest.is_empty() {
        if let Some(short) = read_short(running, rest)
            && tick + short.delta <= LAST_TICK
        {
            running = short.status;
            tick += short.delta;
            rest = &rest[short.len..];
            continue;
        }
        match event(running, tick, rest) {
            Err(stop) => return Some(stop),
            Ok((found, status, after)) => {
                if is_end(&found.what) {
                    return None;
                }
                running = status;
                tick = found.tick;
                rest = after;
            }
        }
    }
    Some(stop(&[], SmfKind::MissingEnd))
}

/// A place in a track: it decodes the track's events one by one, and takes no memory.
#[derive(Clone, Copy, Debug)]
pub struct Cursor<'a> {
    track: u16,
    bytes: &'a [u8],
    rest: &'a [u8],
    tick: u32,
    running: u8,
    pub ghost in_time: { tick < 2 ^ 28 },
    pub ghost status: { IsRunning running },
    pub ghost sound: { IsSound running tick rest.now },
    pub ghost all_sound: { IsSound 0 0 bytes.now },
}

impl Default for Cursor<'_> {
    ghost use Rattle.smf_read.specs.Remaining.{remaining, all_of};

    /// A cursor without events.
    #[tactic(auto, using(crate::proofs::Runs::nothing_left))]
    fn default() -> Self
        ensures rest { remaining result ≡ [] }
        ensures all { all_of result ≡ [] }
    {
        Cursor {
            track: 0,
            bytes: &[],
            rest: &[],
            tick: 0,
            running: 0,
        }
    }
}

impl<'a> Cursor<'a> {
    ghost use Rattle.smf_read.specs.Remaining.{remaining, all_of};
    ghost use Rattle.midi_model.specs.Merged.{first_tick};

    /// At the start of a track's content.
    pub(crate) fn new(track: u16, bytes: &'a [u8]) -> Cursor<'a>
        requires { IsSound 0 0 bytes.now }
        ensures rest { remaining result ≡ map (placed track) (track_in bytes.entry.now).events }
        ensures all { all_of result ≡ map (placed track) (track_in bytes.entry.now).events }
    {
        Cursor {
            track,
            bytes,
            rest: bytes,
            tick: 0,
            running: 0,
        }
    }

    /// The tick of the next event. None exactly where no event is left.
    pub fn tick(&self) -> Option<u32>
        ensures { result ≡ first_tick (remaining self.now) }
    {
        reading_laws();
        match quantity(self.rest) {
            Err(_) => None,
            Ok((delta, _)) => Some(self.tick + delta),
        }
    }

    /// The next event, the end of the track last. None exactly after it.
    #[inline]
    pub fn next(&mut self) -> Option<Event<'a>>
        ensures valid { IfSome result (λ e. IsValidEvent (view e)) }
        ensures some { IfSome result (λ e. remaining self.old ≡ view e ∷ remaining self.new) }
        ensures none { IfNone result ((remaining self.old ≡ []) × (remaining self.new ≡ [])) }
        ensures all { all_of self.new ≡ all_of self.old }
    {
        reading_laws();
        if let Some(short) = read_short(self.running, self.rest)
            && self.tick + short.delta <= LAST_TICK
        {
            self.running = short.status;
            self.tick += short.delta;
            self.rest = &self.rest[short.len..];
            return Some(Event {
                tick: self.tick,
                track: self.track,
                what: What::Message(short.message()),
            });
        }
        self.any_next()
    }

    /// The same, read byte by byte.
    fn any_next(&mut self) -> Option<Event<'a>>
        ensures valid { IfSome result (λ e. IsValidEvent (view e)) }
        ensures some { IfSome result (λ e. remaining self.old ≡ view e ∷ remaining self.new) }
        ensures none { IfNone result ((remaining self.old ≡ []) × (remaining self.new ≡ [])) }
        ensures all { all_of self.new ≡ all_of self.old }
    {
        reading_laws();
        if self.rest.is_empty() {
            return None;
        }
        match event(self.running, self.tick, self.rest) {
            Err(_) => {
                self.rest = &[];
                None
            }
            Ok((found, status, after)) => {
                if is_end(&found.what) {
                    self.rest = &[];
                    return Some(Event {
                        tick: found.tick,
                        track: self.track,
                        what: found.what,
                    });
                }
                self.rest = after;
                self.tick = found.tick;
                self.running = status;
                Some(Event {
                    tick: found.tick,
                    track: self.track,
                    what: found.what,
                })
            }
        }
    }

    /// Makes it give all events again.
    pub fn restart(&mut self)
        ensures rest { remaining self.new ≡ all_of self.old }
        ensures all { all_of self.new ≡ all_of self.old }
    {
        self.rest = self.bytes;
        self.tick = 0;
        self.running = 0;
    }
}
