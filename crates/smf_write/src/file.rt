ghost use Rattle.std.specs.Prelude.{◌≡◌, ◌<◌, ◌≤◌, ◌^◌, ◌⊎◌, List, ◌++◌, length, map, true, All, IfOk, OnOk};
ghost use Rattle.mt_base.specs.Midi.{Timed};
ghost use Rattle.midi_model.specs.Spelling.{Spells};
ghost use Rattle.midi_model.specs.Writing.{Written, written, header_bytes, chunk_bytes, file_bytes, IsWritable};
ghost use Rattle.smf_write.specs.Content.{file_of};

use crate::text::TrackText;
use midi_model::{MOST_TRACKS, MTHD, MTRK, writing_laws};
use mt_base::Memory;
use std::alloc::Global;

/// The bytes before the tracks: the header chunk.
const HEADER_LEN: usize = 14;

/// The bytes of a chunk before its content.
const CHUNK_HEAD_LEN: usize = 8;

/// A file of these tracks: a header chunk of six bytes and the track chunks.
pub fn finish(
    alloc: Global,
    format: u16,
    division: u16,
    tracks: Vec<TrackText>,
) -> Result<Vec<u8>, Memory>
    requires one_or_more { 0 < length tracks.items }
    requires few { length tracks.items ≤ MOST_TRACKS }
    requires ended { All (λ (t : Written). t.ended ≡ true) tracks.items }
    requires short { All (λ (t : Written). length t.bytes < 2 ^ 32) tracks.items }
    requires formats { ((format ≡ 0) × (length tracks.items ≡ 1)) ⊎ (format ≡ 1) }
    ensures bytes { (ts : List (List Timed)) → tracks.items ≡ map written ts
        → IfOk result (λ v. v.items ≡ file_bytes (file_of format division ts)) }
    ensures spells { (ts : List (List Timed)) → tracks.items ≡ map written ts → All (IsWritable 0) ts
        → IfOk result (λ v. Spells v.items (file_of format division ts)) }
{
    writing_laws();
    let mut out = Vec::with_capacity(alloc, file_len(&tracks))?;
    push_header(&mut out, format, tracks.len() as u16, division)?;
    for track in &tracks {
        push_chunk(&mut out, track)?;
    }
    Ok(out)
}

/// How many bytes a file of these tracks has.
fn file_len(tracks: &Vec<TrackText>) -> usize
    requires few { length tracks.now.items ≤ MOST_TRACKS }
    requires short { All (λ (t : Written). length t.bytes < 2 ^ 32) tracks.now.items }
{
    let mut len = HEADER_LEN;
    for track in tracks {
        len += CHUNK_HEAD_LEN + track.len();
    }
    len
}

/// Appends the header chunk.
fn push_header(out: &mut Vec<u8>, format: u16, tracks: u16, division: u16) -> Result<(), Memory>
    ensures { OnOk result (out.new.items ≡ out.old.items ++ header_bytes format tracks division) }
{
    out.extend_from_slice(&MTHD.to_be_bytes())?;
    out.extend_from_slice(&6u32.to_be_bytes())?;
    out.extend_from_slice(&format.to_be_bytes())?;
    out.extend_from_slice(&tracks.to_be_bytes())?;
    out.extend_from_slice(&division.to_be_bytes())?;
    Ok(())
}

/// Appends a track chunk.
fn push_chunk(out: &mut Vec<u8>, track: &TrackText) -> Result<(), Memory>
    requires { length track.now.bytes < 2 ^ 32 }
    ensures { OnOk result (out.new.items ≡ out.old.items ++ chunk_bytes track.now.bytes) }
{
    out.extend_from_slice(&MTRK.to_be_bytes())?;
    out.extend_from_slice(&(track.len() as u32).to_be_bytes())?;
    out.extend_from_slice(track.as_bytes())?;
    Ok(())
}
