ghost use Rattle.std.specs.Prelude.{◌≡◌, ◌≤◌};
ghost use Rattle.lifetimes.specs.Stands.{position_of, tick_of};

use super::dice::{Dice, KEYS};
use super::ear::is_valid;
use super::pitches::steps_of;
use super::writing::Track;
use key_pitch::KeyTable;
use lifetimes::{Options, Parts, StepFault};
use mt_base::{Channel, Event, Msg, Pair, Part, What};
use std::alloc::Global;
use std::test::Fail;

/// The tracks of a source. The second is of port 1, the others of port 0.
pub const TRACKS: u16 = 3;

/// The port of a track.
pub fn port_of(track: u16) -> u8 {
    (track % 2) as u8
}

/// A source so far: none of its events has a fault.
#[derive(Drop)]
struct Draft {
    parts: Parts<KeyTable>,
    position: u32,
    tick: u32,
    tracks: [Track; TRACKS as usize],
    ghost next: { position_of parts ≡ position },
    ghost time: { tick_of parts ≡ tick },
}

impl Draft {
    fn new(alloc: Global, table: KeyTable, options: Options) -> Draft
        requires some { 1 ≤ options.range }
        requires high { options.range ≤ 96 }
        requires program { options.program ≤ 127 }
    {
        Draft {
            parts: Parts::new(alloc, table, options),
            position: 0,
            tick: 0,
            tracks: [Track::new(alloc), Track::new(alloc), Track::new(alloc)],
        }
    }

    /// The pair of a note, where a channel is brought to its bend.
    fn pair(&self, port: u8, channel: Channel, key: u8) -> Option<Pair> {
        let options = self.parts.options();
        let steps = steps_of(self.parts.table(), &options, key)?;
        Some(Pair {
            part: Part { port, channel },
            steps,
        })
    }

    /// Whether an event begins a note of a pair that finds no room: on each part few pairs hold at once, though many come.
    fn is_crowded(&self, event: &Event<'_>) -> bool {
        let What::Message(Msg::NoteOn { channel, key, .. }) = event.what else {
            return false;
        };
        let port = port_of(event.track);
        match self.pair(port, channel, key) {
            Some(pair) if !self.parts.holds(&pair) => {
                let mut held = 0u32;
                for other in KEYS {
                    if let Some(pair) = self.pair(port, channel, other) {
                        held = held.saturating_add(self.parts.holds(&pair) as u32);
                    }
                }
                held >= if channel.number() == 0 { 6 } else { 3 }
            }
            _ => false,
        }
    }

    /// Takes an event, unless it has a fault or finds no room.
    fn take(&mut self, event: &Event<'_>) -> Result<(), Fail> {
        let may_come = is_valid(&event.what) && event.track < TRACKS && self.tick <= event.tick;
        if !may_come
            || self.is_crowded(event)
            || event.tick >= 0x1000_0000
            || self.position == u32::MAX
        {
            return Ok(());
        }
        match self.parts.step(self.position + 1, event) {
            Ok(_) => {
                self.position += 1;
                self.tick = event.tick;
                self.tracks[event.track as usize].put(event.tick, &event.what)
            }
            Err(StepFault::Source(_)) => Ok(()),
            Err(StepFault::Memory) => Err("memory".into()),
        }
    }

    /// The bytes of the file.
    fn finish(&mut self, alloc: Global) -> Result<Vec<u8>, Fail> {
        let mut file = Vec::new(alloc);
        file.extend_from_slice(b"MThd\x00\x00\x00\x06\x00\x01\x00")?;
        file.extend_from_slice(&[TRACKS as u8, 0x01, 0xe0])?;
        for track in 0..TRACKS as usize {
            self.tracks[track].push_chunk(&mut file)?;
        }
        Ok(file)
    }
}

/// A source of so many random events that have no fault, each at a tick of its own.
pub fn source(
    alloc: Global,
    table: KeyTable,
    options: Options,
    seed: u64,
    count: u32,
) -> Result<Vec<u8>, Fail>
    requires some { 1 ≤ options.range }
    requires high { options.range ≤ 96 }
    requires program { options.program ≤ 127 }
{
    let mut dice = Dice { state: seed };
    let mut draft = Draft::new(alloc, table, options);
    for track in 0..TRACKS {
        let bytes: &[u8] = if port_of(track) == 0 {
            b"\x00"
        } else {
            b"\x01"
        };
        let what = What::Meta { kind: 0x21, bytes };
        draft.take(&Event {
            tick: 0,
            track,
            what,
        })?;
    }
    for _ in 0..20_000u32 {
        if draft.position >= count {
            break;
        }
        let tick = draft.tick.saturating_add(dice.wait());
        let track = dice.roll(TRACKS);
        let what = dice.what();
        draft.take(&Event { tick, track, what })?;
    }
    draft.finish(alloc)
}
