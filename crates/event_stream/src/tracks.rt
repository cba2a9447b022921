ghost use Rattle.std.specs.Prelude.{◌≡◌, ◌<◌, ◌≤◌, ◌+◌, ℕ, List, [], ◌∷◌, ◌++◌, length, true, false, All, IfOk, OnOk, OnErr};
ghost use Rattle.mt_base.specs.Midi.{MidiEvent, view};
ghost use Rattle.mt_base.specs.Valid.{IsValidEvent};
ghost use Rattle.midi_model.specs.Merged.{IsPlayable};
ghost use Rattle.midi_model.specs.Writing.{Written, most_bytes};
ghost use Rattle.event_stream.specs.Distributed.{StandFor, text_at, put_into, all_bytes};
ghost use Rattle.event_stream.specs.PutLaws.{PlayableIsMerged};

use midi_model::merged_order;
use mt_base::{Event, Memory};
use smf_write::TrackText;
use std::alloc::Global;
use std::marker::Model;

/// The tracks of a file to be, into which events are put.
#[derive(Drop)]
pub struct TrackSet {
    tracks: Vec<TrackText>,
}

impl Model for TrackSet {
    ghost use Rattle.std.specs.Prelude.{List};
    ghost use Rattle.midi_model.specs.Writing.{Written};

    ghost Value = { List Written };

    ghost view = { λ s. s.tracks.items };

    ghost invariant = { λ s. Unit {0} };
}

impl TrackSet {
    /// So many tracks without events.
    pub fn new(alloc: Global, tracks: u16) -> Result<TrackSet, Memory>
        ensures stands { IfOk result (λ set. StandFor set tracks []) }
        ensures count { IfOk result (λ set. length set ≡ tracks) }
        ensures empty { IfOk result (λ set. all_bytes set ≡ 0) }
    {
        let mut texts = Vec::new(alloc);
        for _ in 0..tracks {
            texts.push(TrackText::new(alloc))?;
        }
        Ok(TrackSet { tracks: texts })
    }

    /// Appends an event to its track. The set then stands for the list that it stood for before, with
    /// the event at its end. On `Memory` the set is unchanged.
    pub fn put(&mut self, event: &Event<'_>) -> Result<(), Memory>
        requires valid { IsValidEvent (view event.now) }
        requires exists { event.now.track < length self.old }
        requires open { (text_at self.old event.now.track).ended ≡ false }
        requires order { (text_at self.old event.now.track).tick ≤ event.now.tick }
        ensures appended { OnOk result (self.new ≡ put_into self.old (view event.now)) }
        ensures stands { (tracks : ℕ) (es : List MidiEvent) → StandFor self.old tracks es
            → OnOk result (StandFor self.new tracks (es ++ view event.now ∷ [])) }
        ensures grows { all_bytes self.new ≤ all_bytes self.old + most_bytes (view event.now).what }
        ensures unchanged { OnErr result (self.new ≡ self.old) }
    {
        self.tracks[event.track as usize].put(event.tick, &event.what)
    }

    /// The tracks, in their order. Where the set stands for a playable list, each is ended, and merged
    /// they are the list again.
    pub fn into_tracks(self) -> Vec<TrackText>
        ensures tracks { result.items ≡ self }
        ensures ended { (tracks : ℕ) (es : List MidiEvent) → StandFor self tracks es → IsPlayable tracks es
            → All (λ (t : Written). t.ended ≡ true) result.items }
        ensures short { All (λ (t : Written). length t.bytes ≤ all_bytes self) result.items }
        ensures merged_again { PlayableIsMerged }
    {
        merged_order();
        self.tracks
    }
}
