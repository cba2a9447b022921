ghost use Rattle.std.specs.Prelude.{◌≡◌, ◌<◌, ◌≤◌, ◌^◌, ◌+◌, length, take, drop, IfOk};
ghost use Rattle.std.specs.Int.{w16, w32};
ghost use Rattle.midi_model.specs.Reading.{Gives, Within};
ghost use Rattle.midi_model.specs.FileText.{number, header_at, fields_at, chunk_at, next_content};
ghost use Rattle.smf_read.specs.Views.{view_header, view_chunk, parts_len};

use crate::stop::stop;
use midi_model::{MOST_TRACKS, MTHD, MTRK, SmfKind, Stop, reading_laws};

/// What a header says.
#[derive(Clone, Copy, Debug)]
pub struct Header {
    pub format: u16,
    pub tracks: u16,
    pub division: u16,
}

/// A chunk: its type as a number, and its content.
#[derive(Clone, Copy, Debug)]
struct Chunk<'a> {
    name: u32,
    content: &'a [u8],
}

fn number32(bytes: &[u8]) -> u32
    requires { 4 ≤ length bytes.now }
    ensures { result ≡ number w32 bytes.now }
{
    u32::from_be_bytes([bytes[0], bytes[1], bytes[2], bytes[3]])
}

fn number16(bytes: &[u8]) -> u16
    requires { 2 ≤ length bytes.now }
    ensures { result ≡ number w16 bytes.now }
{
    u16::from_be_bytes([bytes[0], bytes[1]])
}

/// The content of a header.
#[tactic(auto, unfolding(midi_model::specs::FileText::fields_at))]
fn fields(size: u32, bytes: &[u8]) -> Result<(Header, &[u8]), Stop>
    requires long { size ≤ length bytes.now }
    requires six { 6 ≤ size }
    ensures gives { Gives view_header result (fields_at size bytes.entry.now) }
    ensures some { IfOk result (λ x. 0 < x.0.tracks) }
    ensures few { IfOk result (λ x. x.0.tracks ≤ MOST_TRACKS) }
    ensures within { Within result (length bytes.entry.now) }
{
    let format = number16(bytes);
    let behind = &bytes[2..];
    let tracks = number16(behind);
    if format == 2 {
        return Err(stop(bytes, SmfKind::Format2));
    }
    if format > 2 {
        return Err(stop(bytes, SmfKind::FormatNumber));
    }
    if tracks == 0 || (format == 0 && tracks != 1) {
        return Err(stop(behind, SmfKind::BadHeader));
    }
    if tracks > MOST_TRACKS {
        return Err(stop(behind, SmfKind::TooManyTracks));
    }
    let division = number16(&behind[2..]);
    Ok((
        Header {
            format,
            tracks,
            division,
        },
        &bytes[size as usize..],
    ))
}

/// The header.
#[tactic(auto, unfolding(midi_model::specs::FileText::header_at))]
pub fn read_header(bytes: &[u8]) -> Result<(Header, &[u8]), Stop>
    ensures gives { Gives view_header result (header_at bytes.entry.now) }
    ensures some { IfOk result (λ x. 0 < x.0.tracks) }
    ensures few { IfOk result (λ x. x.0.tracks ≤ MOST_TRACKS) }
    ensures within { Within result (length bytes.entry.now) }
{
    if bytes.len() < 4 {
        return Err(stop(bytes, SmfKind::NotMidi));
    }
    if number32(bytes) != MTHD {
        return Err(stop(bytes, SmfKind::NotMidi));
    }
    if bytes.len() < 8 {
        return Err(stop(&[], SmfKind::Truncated));
    }
    let behind = &bytes[4..];
    let size = number32(behind);
    if size < 6 {
        return Err(stop(behind, SmfKind::BadHeader));
    }
    let content = &behind[4..];
    if content.len() < size as usize {
        return Err(stop(&[], SmfKind::Truncated));
    }
    fields(size, content)
}

/// The chunk at the front.
#[tactic(auto, unfolding(midi_model::specs::FileText::chunk_at))]
fn read_chunk(bytes: &[u8]) -> Result<(Chunk<'_>, &[u8]), Stop>
    ensures gives { Gives view_chunk result (chunk_at bytes.entry.now) }
    ensures within { Within result (length bytes.entry.now) }
    ensures part { IfOk result (λ x. parts_len x.0.content.now x.1.now + 8 ≡ length bytes.entry.now) }
{
    if bytes.len() < 8 {
        return Err(stop(bytes, SmfKind::MissingTrack));
    }
    let name = number32(bytes);
    let behind = &bytes[4..];
    let size = number32(behind) as usize;
    let rest = &behind[4..];
    if rest.len() < size {
        return Err(stop(&[], SmfKind::Truncated));
    }
    let (content, rest) = rest.split_at(size);
    Ok((Chunk { name, content }, rest))
}

/// The content of the next track chunk.
pub fn next_content(bytes: &[u8]) -> Result<(&[u8], &[u8]), Stop>
    ensures gives { Gives (λ x. x.now) result (next_content bytes.entry.now) }
    ensures within { Within result (length bytes.entry.now) }
    ensures part { IfOk result (λ x. parts_len x.0.now x.1.now ≤ length bytes.entry.now) }
{
    reading_laws();
    let mut rest = bytes;
    'chunks: loop {
        let (found, after) = read_chunk(rest)?;
        if found.name == MTRK {
            return Ok((found.content, after));
        }
        rest = after;
    }
}
