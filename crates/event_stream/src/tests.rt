ghost use Rattle.std.specs.Prelude.{◌≡◌, ◌<◌, ◌≤◌, ◌^◌, ℕ, [], map, length, take, All, IsTrue, OnOk};
ghost use Rattle.midi_model.specs.Merged.{IsPlayable};
ghost use Rattle.midi_model.specs.Writing.{Written, written};
ghost use Rattle.event_stream.specs.Distributed.{distributed};

use super::*;
use mt_base::{Event, Memory, What};
use smf_read::{Smf, read_smf};
use smf_write::{TrackText, finish};
use std::alloc::Global;
use std::test::*;

/// Puts all events of a stream into a new set.
fn put_all<'a, S: EventStream<'a>>(stream: &mut S, set: &mut TrackSet) -> Result<(), Memory>
    requires playable { IsPlayable (length set.old) (S.all stream.old) }
    requires new { set.old ≡ map written (distributed (length set.old) []) }
    ensures { OnOk result (set.new ≡ map written (distributed (length set.old) (S.all stream.old))) }
{
    stream.rewind();
    while let Some(event) = stream.next() {
        set.put(&event)?;
    }
    Ok(())
}

fn are_short(tracks: &Vec<TrackText>) -> bool
    ensures { IsTrue result → All (λ (t : Written). length t.bytes < 2 ^ 32) tracks.now.items }
{
    for track in tracks {
        if track.len() >= 0x1_0000_0000 {
            return false;
        }
    }
    true
}

/// The file, read, merged, dealt out and written again. None where it is not one that can be read.
fn copy_of(alloc: Global, bytes: &[u8]) -> Result<Option<Vec<u8>>, Memory>
    requires { length bytes.now ≤ 4194304 }
{
    match read_smf(alloc, bytes) {
        Err(_) => Ok(None),
        Ok(smf) => {
            let mut merge = Merge::new(&smf);
            let mut set = TrackSet::new(alloc, smf.tracks())?;
            put_all(&mut merge, &mut set)?;
            let tracks = set.into_tracks();
            let format = if smf.tracks() == 1 { 0 } else { 1 };
            if tracks.len() > 1024 || !are_short(&tracks) {
                return Ok(None);
            }
            Ok(Some(finish(alloc, format, smf.division(), tracks)?))
        }
    }
}

/// Tick, track and place in the track of each event, track by track, and then sorted.
fn sorted(alloc: Global, smf: &Smf<'_>) -> Result<Vec<(u32, u16, u32)>, Fail> {
    let mut list = Vec::new(alloc);
    for track in 0..smf.tracks() {
        let mut cursor = smf.cursor(track);
        let mut place = 0u32;
        while let Some(event) = cursor.next() {
            list.push((event.tick, event.track, place))?;
            place = place.wrapping_add(1);
        }
    }
    list.sort()?;
    Ok(list)
}

/// The same of the merge.
fn merged(alloc: Global, smf: &Smf<'_>) -> Result<Vec<(u32, u16, u32)>, Fail> {
    let mut list = Vec::new(alloc);
    let mut places = [0u32; 1024];
    let mut merge = Merge::new(smf);
    while let Some(event) = merge.next() {
        if let Some(place) = places.get_mut(event.track as usize) {
            list.push((event.tick, event.track, *place))?;
            *place = place.wrapping_add(1);
        }
    }
    Ok(list)
}

/// Three tracks that have events at the same ticks.
const THREE_TRACKS: [u8; 81] = *b"MThd\x00\x00\x00\x06\x00\x01\x00\x03\x00\x60\
MTrk\x00\x00\x00\x0e\x00\x90\x45\x40\x05\x47\x40\x05\x45\x00\x00\xff\x2f\x00\
MTrk\x00\x00\x00\x13\x00\xb1\x07\x40\x00\x0a\x40\x05\x91\x45\x40\x03\x81\x45\x40\x02\xff\x2f\x00\
MTrk\x00\x00\x00\x0a\x05\xff\x01\x02hi\x00\xff\x2f\x00";

/// So many tracks, each of two events at ticks that are mixed.
fn with_tracks(alloc: Global, count: u16) -> Result<Vec<u8>, Fail> {
    let mut bytes = Vec::new(alloc);
    let [high, low] = count.to_be_bytes();
    bytes.extend_from_slice(&[0x4d, 0x54, 0x68, 0x64, 0, 0, 0, 6, 0, 1, high, low, 0, 0x60])?;
    for track in 0..count {
        let first = (track % 7) as u8;
        let second = (track % 13) as u8;
        bytes.extend_from_slice(&[0x4d, 0x54, 0x72, 0x6b, 0, 0, 0, 8])?;
        bytes.extend_from_slice(&[first, 0xff, 1, 0, second, 0xff, 0x2f, 0])?;
    }
    Ok(bytes)
}

#[test]
fn merges(rt: HostRuntime) -> Result<(), Fail> {
    let most = with_tracks(rt.alloc(), 1024)?;
    let files: [&[u8]; 2] = [&THREE_TRACKS, most.as_slice()];
    for bytes in files {
        if bytes.len() <= 4_194_304 {
            let smf = read_smf(rt.alloc(), bytes).ok().ok_or("not read")?;
            let expected = sorted(rt.alloc(), &smf)?;
            let found = merged(rt.alloc(), &smf)?;
            assert!(rt; !expected.is_empty());
            assert!(rt; expected == found);
        }
    }
    Ok(())
}

#[test]
fn copies(rt: HostRuntime) -> Result<(), Fail> {
    let files: [&[u8]; 4] = [
        b"MThd\x00\x00\x00\x06\x00\x00\x00\x01\x01\xe0MTrk\x00\x00\x00\x0d\x00\x90\x45\x40\x83\x60\x80\x45\x40\x00\xff\x2f\x00",
        b"MThd\x00\x00\x00\x06\x00\x00\x00\x01\x00\x60MTrk\x00\x00\x00\x04\x00\xff\x2f\x00",
        b"MThd\x00\x00\x00\x06\x00\x00\x00\x01\x00\x60MTrk\x00\x00\x00\x07\xff\xff\xff\x7f\xff\x2f\x00",
        b"MThd\x00\x00\x00\x06\x00\x00\x00\x01\x01\xe0MTrk\x00\x00\x00\x11\x00\x99\x24\x40\x00\x24\x40\x60\x24\x00\x00\x24\x00\x00\xff\x2f\x00",
    ];
    for bytes in files {
        let copy = copy_of(rt.alloc(), bytes)
            .ok()
            .ok_or("memory")?
            .ok_or("not read")?;
        assert!(rt; copy.as_slice() == bytes);
    }
    let copy = copy_of(rt.alloc(), &THREE_TRACKS)
        .ok()
        .ok_or("memory")?
        .ok_or("not read")?;
    assert!(rt; copy.as_slice() == THREE_TRACKS.as_slice());
    Ok(())
}

#[test]
fn lists(rt: HostRuntime) -> Result<(), Fail> {
    distribution();
    playable_is_put();
    let events = [Event {
        tick: 7,
        track: 0,
        what: What::Meta {
            kind: 0x2f,
            bytes: &[],
        },
    }];
    let mut stream = ListStream::new(&events);
    assert!(rt; stream.next().is_some());
    assert!(rt; stream.next().is_none());
    stream.rewind();
    assert!(rt; stream.next().is_some());
    let smf = read_smf(rt.alloc(), &THREE_TRACKS).ok().ok_or("not read")?;
    if smf.tracks() == 3 {
        let mut cursor = smf.cursor(1);
        assert!(rt; EventStream::next(&mut cursor).is_some());
        EventStream::rewind(&mut cursor);
        assert_eq!(rt; cursor.tick(), Some(0));
    }
    Ok(())
}
