ghost use Rattle.std.specs.Prelude.{◌≡◌, ◌*◌, ◌≤◌, length, IfOk, IfErr, Ok};
ghost use Rattle.midi_model.specs.Reading.{Gives, Within};
ghost use Rattle.midi_model.specs.FileText.{MidiFile, track_at, tracks_at, all_at, file_at};
ghost use Rattle.midi_model.specs.Spelling.{Spells};
ghost use Rattle.smf_read.specs.Views.{content_of, contents_of};
ghost use Rattle.smf_read.specs.Files.{Finds, Reads, IsFirst};
ghost use Rattle.smf_read.specs.Sound.{AreSound, count_events};

use crate::chunk::{next_content, read_header};
use crate::cursor::fault_in;
use crate::fault::{Halt, SmfFault};
use crate::smf::Smf;
use midi_model::{MOST_BYTES, Stop, file_laws, reading_laws};
use std::alloc::Global;

/// The content of the next track chunk that has no fault in it, and the bytes behind it.
#[tactic(auto, unfolding(midi_model::specs::FileText::track_at))]
fn track(bytes: &[u8]) -> Result<(&[u8], &[u8]), Stop>
    ensures gives { Gives content_of result (track_at bytes.entry.now) }
    ensures within { Within result (length bytes.entry.now) }
{
    let (content, rest) = next_content(bytes)?;
    match fault_in(content) {
        None => Ok((content, rest)),
        Some(inside) => Err(Stop {
            left: inside.left + rest.len(),
            kind: inside.kind,
        }),
    }
}

/// The contents of so many track chunks, and the bytes behind them.
fn tracks<'a>(alloc: Global, count: u16, bytes: &'a [u8]) -> Result<(Vec<&'a [u8]>, &'a [u8]), Halt>
    ensures gives { Finds (λ x. (contents_of x.0.items, x.1.now)) result (tracks_at count bytes.entry.now) }
    ensures count { IfOk result (λ x. length x.0.items ≡ count) }
    ensures sound { length bytes.entry.now ≤ MOST_BYTES → IfOk result (λ x. AreSound (contents_of x.0.items)) }
    ensures together { IfOk result (λ x. 2 * count_events (contents_of x.0.items) ≤ length bytes.entry.now) }
{
    reading_laws();
    let mut contents = Vec::new(alloc);
    let mut rest = bytes;
    for _ in 0..count {
        let (content, after) = track(rest)?;
        contents.push(content)?;
        rest = after;
    }
    Ok((contents, rest))
}

#[tactic(auto, unfolding(midi_model::specs::FileText::all_at))]
fn all(alloc: Global, bytes: &[u8]) -> Result<Smf<'_>, Halt>
    requires { length bytes.now ≤ MOST_BYTES }
    ensures { Finds (λ f. f) result (all_at bytes.entry.now) }
{
    let (header, rest) = read_header(bytes)?;
    let (contents, _) = tracks(alloc, header.tracks, rest)?;
    Ok(Smf::new(header.format, header.division, contents))
}

#[tactic(auto, unfolding(midi_model::specs::FileText::file_at))]
fn exact(alloc: Global, bytes: &[u8]) -> Result<Smf<'_>, SmfFault>
    requires { length bytes.now ≤ MOST_BYTES }
    ensures { Reads result (file_at bytes.entry.now) }
{
    match all(alloc, bytes) {
        Ok(smf) => Ok(smf),
        Err(Halt::Memory) => Err(SmfFault::Memory),
        Err(Halt::At(stop)) => Err(SmfFault::At {
            offset: bytes.len().saturating_sub(stop.left) as u32,
            kind: stop.kind,
        }),
    }
}

/// Reads a Standard MIDI File of at most 4,194,304 bytes: the file that the bytes spell, or their
/// first fault.
pub fn read_smf(alloc: Global, bytes: &[u8]) -> Result<Smf<'_>, SmfFault>
    requires { length bytes.now ≤ MOST_BYTES }
    // What is read is what the bytes spell.
    ensures found { IfOk result (λ f. Spells bytes.entry.now (f)) }
    // What the bytes spell is read, unless memory runs out.
    ensures only { (file : MidiFile) → Spells bytes.entry.now file → Reads result (Ok file) }
    // Otherwise the answer is the bytes' first fault: what is wrong after the longest prefix that
    // breaks no rule.
    ensures fault { IfErr result (λ e. IsFirst bytes.entry.now e) }
    // The same, by reading from left to right.
    ensures exact { Reads result (file_at bytes.entry.now) }
{
    file_laws();
    exact(alloc, bytes)
}
