use crate::cursor::Cursor;
use midi_model::{MOST_EVENTS, MOST_TRACKS, merged_order, reading_laws};
use std::marker::Model;

/// A file that was read: 1 to 1,024 tracks with at most 2,097,152 events together.
#[derive(Debug, Drop)]
pub struct Smf<'a> {
    format: u16,
    division: u16,
    contents: Vec<&'a [u8]>,
}

impl<'a> Model for Smf<'a> {
    ghost use Rattle.midi_model.specs.FileText.{MidiFile, made};
    ghost use Rattle.smf_read.specs.Views.{contents_of};
    ghost use Rattle.smf_read.specs.Sound.{AreChecked};

    ghost Value = { MidiFile };

    ghost view = { λ f. made f.format f.division (contents_of f.contents.items) };

    ghost invariant = { λ f. AreChecked (contents_of f.contents.items) };
}

impl<'a> Smf<'a> {
    ghost use Rattle.std.specs.Prelude.{◌≡◌, ◌<◌, ◌≤◌, [], length, get_or, map};
    ghost use Rattle.mt_base.specs.Midi.{placed};
    ghost use Rattle.midi_model.specs.FileText.{made};
    ghost use Rattle.midi_model.specs.Merged.{merged, AreTracksOf, IsTrackOf, IsPlayable};
    ghost use Rattle.smf_read.specs.Views.{contents_of};
    ghost use Rattle.smf_read.specs.Sound.{AreChecked};
    ghost use Rattle.smf_read.specs.Remaining.{remaining, all_of};

    pub(crate) fn new(format: u16, division: u16, contents: Vec<&'a [u8]>) -> Smf<'a>
        requires { AreChecked (contents_of contents.items) }
        ensures { result ≡ made format division (contents_of contents.entry.items) }
    {
        Smf {
            format,
            division,
            contents,
        }
    }

    /// The format, 0 or 1.
    pub fn format(&self) -> u16
        ensures { result ≡ self.now.format }
    {
        self.format
    }

    /// The division, as the header has it.
    pub fn division(&self) -> u16
        ensures { result ≡ self.now.division }
    {
        self.division
    }

    /// The number of tracks, 1 to 1,024. All their events together, at most 2,097,152, are playable.
    pub fn tracks(&self) -> u16
        ensures value { result ≡ length self.now.tracks }
        ensures some { 0 < result }
        ensures few { result ≤ MOST_TRACKS }
        ensures in_all { length (merged self.now) ≤ MOST_EVENTS }
        ensures each { AreTracksOf 0 self.now.tracks }
        ensures playable { IsPlayable (length self.now.tracks) (merged self.now) }
    {
        merged_order();
        reading_laws();
        self.contents.len() as u16
    }

    /// A cursor at the first event of a track, counted from 0.
    pub fn cursor(&self, track: u16) -> Cursor<'a>
        requires { track < length self.now.tracks }
        ensures rest { remaining result ≡ map (placed track) (get_or self.now.tracks track []) }
        ensures all { all_of result ≡ map (placed track) (get_or self.now.tracks track []) }
        ensures track_of { IsTrackOf track (all_of result) }
    {
        reading_laws();
        Cursor::new(track, self.contents[track as usize])
    }
}
