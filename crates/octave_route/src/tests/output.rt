ghost use Rattle.std.specs.Prelude.{◌≡◌, ◌<◌, ◌≤◌, ◌^◌, List, [], length, All, IsTrue, IfSome};
ghost use Rattle.std.specs.List.{AllByRecursion};
ghost use Rattle.mt_base.specs.Valid.{IsValidEvent};
ghost use Rattle.midi_model.specs.Order.{AreInOrder};
ghost use Rattle.midi_model.specs.Writing.{Written};
ghost use Rattle.retune_model.specs.SourceFaults.{IsFaultless};
ghost use Rattle.lifetimes.specs.Noted.{IsNoted};
ghost use Rattle.lifetimes.specs.Stands.{Stands, asked, table_in};
ghost use Rattle.octave_route.specs.Messages.{IsOctaveValue};

use super::{A440, are_mapped, set_of, table};
use crate::{classes, octaved_is_playable, octaved_is_short, octaved_plays_the_same, translate};
use event_stream::{EventStream, Merge, TrackSet};
use key_pitch::{Aims, KeyTable};
use lifetimes::{Noted, Options, Parts, Route};
use mt_base::Memory;
use retune_model::playable_in_order;
use routes::puts_are_dealt;
use smf_read::{Smf, read_smf};
use smf_write::{TrackText, finish};
use std::alloc::Global;
use std::test::Fail;

/// Drums are kept.
const OPTIONS: Options = Options {
    route: Route::Dump,
    range: 2,
    keep_drums: true,
    program: 0,
    tail: 0,
};

/// Which parts of a source have a note on; none where an event has a fault.
fn look<'a, S: EventStream<'a>, T: Aims>(stream: &mut S, parts: &mut Parts<T>) -> Option<Noted>
    requires start { Stands (T.table (table_in parts.old)) parts.old [] }
    requires valid { AllByRecursion IsValidEvent (S.all stream.old) }
    requires order { AreInOrder 0 (S.all stream.old) }
    requires tracks { AllByRecursion (λ e. e.track < 1024) (S.all stream.old) }
    requires few { length (S.all stream.old) ≤ 2097152 }
    ensures table { table_in parts.new ≡ table_in parts.old }
    ensures options { asked parts.new ≡ asked parts.old }
    ensures noted { IfSome result (IsNoted (asked parts.old) (S.all stream.old)) }
    ensures faultless { IfSome result (λ n. IsFaultless (asked parts.old)
        (T.table (table_in parts.old)) (S.all stream.old)) }
{
    stream.rewind();
    let mut noted = Noted::new();
    let mut position = 0;
    'events: while let Some(event) = stream.next() {
        position += 1;
        match parts.step(position, &event) {
            Ok(change) => noted.take(&change),
            Err(_) => return None,
        }
    }
    Some(noted)
}

fn are_short(tracks: &Vec<TrackText>) -> bool
    ensures { IsTrue result → All (λ (t : Written). length t.bytes < 2 ^ 32) tracks.now.items }
{
    for track in tracks {
        if track.len() >= 0x1_0000_0000 {
            return false;
        }
    }
    true
}

/// The bytes of a file on the octave route; none where an event has a fault.
fn output(
    alloc: Global,
    table: &KeyTable,
    smf: &Smf<'_>,
    values: &[u16; 12],
) -> Result<Option<Vec<u8>>, Memory>
    requires { AllByRecursion IsOctaveValue values.now }
{
    playable_in_order();
    puts_are_dealt();
    octaved_is_playable();
    let count = smf.tracks();
    let mut parts = Parts::new(alloc, table, OPTIONS);
    match look(&mut Merge::new(smf), &mut parts) {
        Some(noted) => {
            parts.restart();
            let mut out = TrackSet::new(alloc, count)?;
            translate(&mut Merge::new(smf), &mut parts, &noted, values, &mut out)?;
            let tracks = out.into_tracks();
            if tracks.is_empty() || tracks.len() > 1024 || !are_short(&tracks) {
                return Ok(None);
            }
            let format = if tracks.len() == 1 { 0 } else { 1 };
            Ok(Some(finish(alloc, format, smf.division(), tracks)?))
        }
        None => Ok(None),
    }
}

/// The same by a scale of one note and the keys that are used.
fn retuned(
    alloc: Global,
    scale: &[u8],
    keys: &[u8],
    bytes: &[u8],
) -> Result<Option<Vec<u8>>, Fail> {
    let table = table(alloc, scale, A440).ok_or("no table")?;
    let used = set_of(keys);
    if !are_mapped(&table, used) || bytes.len() > 4_194_304 {
        return Ok(None);
    }
    let smf = read_smf(alloc, bytes).ok().ok_or("not read")?;
    match classes(&table, used) {
        Ok(values) => Ok(output(alloc, &table, &smf, &values).ok().ok_or("memory")?),
        Err(_) => Ok(None),
    }
}

const LEVEL: &[u8] = b"one\n1\n100.0\n";

/// A header chunk with a division of 480, and a track chunk of each content.
fn file(alloc: Global, contents: &[&[u8]]) -> Result<Vec<u8>, Fail> {
    let mut bytes = Vec::new(alloc);
    let many = contents.len() > 1;
    bytes.extend_from_slice(b"MThd\x00\x00\x00\x06\x00")?;
    bytes.push(many as u8)?;
    bytes.push(0)?;
    bytes.push((contents.len() % 256) as u8)?;
    bytes.extend_from_slice(b"\x01\xe0")?;
    for content in contents {
        bytes.extend_from_slice(b"MTrk\x00\x00\x00")?;
        bytes.push((content.len() % 256) as u8)?;
        bytes.extend_from_slice(content)?;
    }
    Ok(bytes)
}

/// Level classes for the channels whose last two bytes are given.
fn message(second: u8, last: u8) -> [u8; 35] {
    let mut bytes = *b"\x00\xf0\x20\x7e\x7f\x08\x09\x00\x00\x00\
\x40\x00\x40\x00\x40\x00\x40\x00\x40\x00\x40\x00\x40\x00\x40\x00\x40\x00\x40\x00\x40\x00\x40\x00\xf7";
    bytes[8] = second;
    bytes[9] = last;
    bytes
}

#[test]
fn one_note_on_the_octave_route(rt: HostRuntime) -> Result<(), Fail> {
    octaved_is_short();
    octaved_plays_the_same();
    let alloc = rt.alloc();
    let note: &[u8] = b"\x00\x90\x45\x40\x83\x60\x80\x45\x40\x00\xff\x2f\x00";
    let input = file(alloc, &[note])?;
    let mut track = Vec::new(alloc);
    track.extend_from_slice(&message(0, 1))?;
    track.extend_from_slice(note)?;
    assert_eq!(rt; track.len(), 48);
    let output = file(alloc, &[track.as_slice()])?;
    let found = retuned(alloc, LEVEL, &[69], input.as_slice())?.ok_or("not retuned")?;
    assert!(rt; found.as_slice() == output.as_slice());
    Ok(())
}

const DRUMS: &[u8] = b"\x00\xc0\x05\x00\x99\x24\x40\x60\x24\x00\x00\xff\x2f\x00";

/// Port 1, and a reset before any channel message.
const BEGIN: &[u8] = b"\x00\xff\x21\x01\x01\x00\xf0\x05\x7e\x7f\x09\x01\xf7";

/// Channels 2 and 9, and a reset.
const NOTES: &[u8] =
    b"\x00\xc1\x05\x00\x91\x45\x40\x10\x98\x45\x40\x10\xf0\x05\x7e\x7f\x09\x01\xf7";

const END: &[u8] = b"\x00\xff\x2f\x00";

/// The second track with the message after the beginning and after the notes.
fn with(alloc: Global, message: &[u8]) -> Result<Vec<u8>, Fail> {
    let mut track = Vec::new(alloc);
    for part in [BEGIN, message, NOTES, message, END] {
        track.extend_from_slice(part)?;
    }
    Ok(track)
}

#[test]
fn ports_and_resets_on_the_octave_route(rt: HostRuntime) -> Result<(), Fail> {
    let alloc = rt.alloc();
    let source = with(alloc, &[])?;
    let input = file(alloc, &[DRUMS, source.as_slice()])?;
    let track = with(alloc, &message(2, 2))?;
    let output = file(alloc, &[DRUMS, track.as_slice()])?;
    let found = retuned(alloc, LEVEL, &[69], input.as_slice())?.ok_or("not retuned")?;
    assert!(rt; found.as_slice() == output.as_slice());
    // no part has a note on; and a key that doesn't fit
    let alone = file(alloc, &[DRUMS])?;
    let found = retuned(alloc, LEVEL, &[], alone.as_slice())?.ok_or("not retuned")?;
    assert!(rt; found.as_slice() == alone.as_slice());
    assert!(rt; retuned(alloc, b"one\n1\n100.1\n", &[69, 81], alone.as_slice())?.is_none());
    Ok(())
}
