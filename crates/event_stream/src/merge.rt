ghost use Rattle.std.specs.Prelude.{◌≡◌, ◌<◌, ◌≤◌, ◌+◌, ◌*◌, ◌%◌, ◌≢◌, ℕ, List, [], ◌∷◌, map, slice_set, length, IfSome, IfNone};
ghost use Rattle.mt_base.specs.Midi.{MidiEvent, view};
ghost use Rattle.midi_model.specs.Merged.{merged, IsPlayable, timed};
ghost use Rattle.smf_read.specs.Remaining.{remaining, all_of};
ghost use Rattle.event_stream.specs.Keys.{key_of, keys_of};
ghost use Rattle.event_stream.specs.Merges.{left_at, untracked, parts_left, merged_left, merged_whole, IsMerge};

use crate::least::Least;
use crate::stream::EventStream;
use midi_model::{MOST_EVENTS, MOST_TRACKS, merged_order};
use mt_base::Event;
use smf_read::{Cursor, Smf};
use std::marker::Model;

/// A cursor for each track that a file may have.
const PLACES: usize = MOST_TRACKS as usize;

/// How many keys there are for a tick: more than there are tracks.
const KEYS_PER_TICK: u64 = 0x1_0000;

/// The events of all tracks of a file, in the order of tick and track. It goes through the tracks side
/// by side, and takes no memory.
#[derive(Drop)]
pub struct Merge<'a> {
    cursors: [Cursor<'a>; PLACES],
    keys: Least,
    first: u64,
    tracks: u16,
}

impl<'a> Model for Merge<'a> {
    ghost use Rattle.event_stream.specs.Meaning.{Stream};
    ghost use Rattle.event_stream.specs.Merges.{merged_left, merged_whole, IsMerge};

    ghost Value = { Stream };

    ghost view = { λ m. record { all = merged_whole m.tracks m.cursors; rest = merged_left m.tracks m.cursors } };

    ghost invariant = { λ m. IsMerge m.tracks m.cursors m.keys m.first };
}

impl<'a> Merge<'a> {
    /// At the first event of a file. Its events are playable for the file's number of tracks, and at
    /// most 2,097,152.
    pub fn new(smf: &Smf<'a>) -> Merge<'a>
        ensures all { result.all ≡ merged smf.now }
        ensures rest { result.rest ≡ merged smf.now }
        ensures playable { IsPlayable (length smf.now.tracks) result.all }
        ensures few { length result.all ≤ MOST_EVENTS }
    {
        let tracks = smf.tracks();
        let mut cursors = [Cursor::default(); PLACES];
        for track in 0..tracks {
            cursors[track as usize] = smf.cursor(track);
        }
        let keys = keys_of(&cursors, tracks);
        let first = keys.first();
        Merge {
            cursors,
            keys,
            first,
            tracks,
        }
    }
}

impl<'a> EventStream<'a> for Merge<'a> {
    ghost all = { λ m. m.all };

    ghost rest = { λ m. m.rest };

    fn next(&mut self) -> Option<Event<'a>> {
        merged_order();
        match track_of(self.first) {
            None => None,
            Some(track) => {
                let (event, key) = take_next(&mut self.cursors, track);
                self.first = self.keys.set(track as usize, key);
                event
            }
        }
    }

    fn rewind(&mut self) {
        let tracks = self.tracks;
        let keys = restart_all(&mut self.cursors, tracks);
        self.first = keys.first();
        self.keys = keys;
    }
}

/// The track of a key. None for the greatest key, which is of no event.
fn track_of(key: u64) -> Option<u16>
    ensures some { IfSome result (λ t. (t ≡ key % 65536) × (key ≢ u64.MAX)) }
    ensures none { IfNone result (key ≡ u64.MAX) }
{
    if key == u64::MAX {
        None
    } else {
        Some((key % KEYS_PER_TICK) as u16)
    }
}

/// The key of a track's next event: earlier events have lesser keys, and a track without events has
/// the greatest.
fn key_at(cursors: &[Cursor<'_>], track: u16) -> u64
    requires { track < length cursors.now }
    ensures { result ≡ key_of track (map timed (left_at track cursors.now)) }
{
    match cursors[track as usize].tick() {
        Some(tick) => u64::from(tick) * KEYS_PER_TICK + u64::from(track),
        None => u64::MAX,
    }
}

/// The keys of the first so many cursors.
fn keys_of(cursors: &[Cursor<'_>], tracks: u16) -> Least
    requires some { 0 < tracks }
    requires few { tracks ≤ MOST_TRACKS }
    requires size { length cursors.now ≡ 1024 }
    ensures { result ≡ keys_of 0 (untracked (parts_left tracks cursors.now)) }
{
    let mut keys = Least::new(tracks as usize);
    for track in 0..tracks {
        keys.set(track as usize, key_at(cursors, track));
    }
    keys
}

/// Takes the next event of a track, and gives the key of what is left of it.
fn take_next<'a>(cursors: &mut [Cursor<'a>], track: u16) -> (Option<Event<'a>>, u64)
    requires { track < length cursors.old }
    ensures some { IfSome result.0 (λ e. left_at track cursors.old ≡ view e ∷ left_at track cursors.new) }
    ensures none { IfNone result.0 (left_at track cursors.old ≡ []) }
    ensures key { result.1 ≡ key_of track (map timed (left_at track cursors.new)) }
    ensures others { map remaining cursors.new
        ≡ slice_set (map remaining cursors.old) track (left_at track cursors.new) }
    ensures all { map all_of cursors.new ≡ map all_of cursors.old }
{
    let event = cursors[track as usize].next();
    (event, key_at(cursors, track))
}

/// Makes each cursor give all its events again, and gives the keys of the first so many.
fn restart_all(cursors: &mut [Cursor<'_>], tracks: u16) -> Least
    requires some { 0 < tracks }
    requires few { tracks ≤ MOST_TRACKS }
    requires size { length cursors.old ≡ 1024 }
    ensures keys { result ≡ keys_of 0 (untracked (parts_left tracks cursors.new)) }
    ensures rest { map remaining cursors.new ≡ map all_of cursors.old }
    ensures all { map all_of cursors.new ≡ map all_of cursors.old }
{
    for place in 0..cursors.len() {
        cursors[place].restart();
    }
    keys_of(cursors, tracks)
}
