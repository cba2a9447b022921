ghost use Rattle.std.specs.Prelude.{◌≡◌, ◌<◌, length, true};
ghost use Rattle.mt_base.specs.Midi.{view_what, end_of_track};

use super::*;
use mt_base::{Channel, Memory, Msg, What};
use std::alloc::Global;
use std::test::*;

/// A file of format 0.
fn one_track(alloc: Global, division: u16, track: TrackText) -> Result<Vec<u8>, Memory>
    requires ended { track.ended ≡ true }
    requires short { length track.bytes < 1000 }
{
    let mut tracks = Vec::new(alloc);
    tracks.push(track)?;
    finish(alloc, 0, division, tracks)
}

fn end() -> What<'static>
    ensures { view_what result ≡ end_of_track }
{
    What::Meta {
        kind: 0x2f,
        bytes: &[],
    }
}

/// Drums: two strokes, and two note ons of velocity 0 that end them.
fn drums(alloc: Global) -> Result<Vec<u8>, Memory> {
    let channel = Channel::new(9).unwrap_or_default();
    let stroke = What::Message(Msg::NoteOn {
        channel,
        key: 36,
        velocity: 64,
    });
    let silence = What::Message(Msg::NoteOn {
        channel,
        key: 36,
        velocity: 0,
    });
    let mut track = TrackText::new(alloc);
    track.put(0, &stroke)?;
    track.put(0, &stroke)?;
    track.put(96, &silence)?;
    track.put(96, &silence)?;
    track.put(96, &end())?;
    one_track(alloc, 480, track)
}

/// A tuning of one key, and a note of that key.
fn tuned(alloc: Global) -> Result<Vec<u8>, Memory> {
    let channel = Channel::default();
    let high = What::Message(Msg::Control {
        channel,
        number: 101,
        value: 0,
    });
    let low = What::Message(Msg::Control {
        channel,
        number: 100,
        value: 3,
    });
    let tuning = What::Sysex {
        lead: 0xf0,
        bytes: &[
            0x7f, 0x7f, 0x08, 0x02, 0x00, 0x01, 0x45, 0x45, 0x00, 0x00, 0xf7,
        ],
    };
    let on = What::Message(Msg::NoteOn {
        channel,
        key: 69,
        velocity: 64,
    });
    let off = What::Message(Msg::NoteOff {
        channel,
        key: 69,
        velocity: 64,
    });
    let mut track = TrackText::new(alloc);
    track.put(0, &high)?;
    track.put(0, &low)?;
    track.put(0, &tuning)?;
    track.put(0, &on)?;
    track.put(480, &off)?;
    track.put(480, &end())?;
    one_track(alloc, 480, track)
}

fn nothing(alloc: Global, tick: u32) -> Result<Vec<u8>, Memory>
    requires { tick < 268435456 }
{
    let mut track = TrackText::new(alloc);
    track.put(tick, &end())?;
    one_track(alloc, 96, track)
}

#[test]
fn files(rt: HostRuntime) -> Result<(), Fail> {
    let bytes = drums(rt.alloc()).ok().ok_or("memory")?;
    assert!(rt;
        bytes.as_slice()
            == b"MThd\x00\x00\x00\x06\x00\x00\x00\x01\x01\xe0MTrk\x00\x00\x00\x11\x00\x99\x24\x40\x00\x24\x40\x60\x24\x00\x00\x24\x00\x00\xff\x2f\x00".as_slice()
    );
    let bytes = tuned(rt.alloc()).ok().ok_or("memory")?;
    assert!(rt;
        bytes.as_slice()
            == b"MThd\x00\x00\x00\x06\x00\x00\x00\x01\x01\xe0MTrk\x00\x00\x00\x22\x00\xb0\x65\x00\x00\x64\x03\x00\xf0\x0b\x7f\x7f\x08\x02\x00\x01\x45\x45\x00\x00\xf7\x00\x90\x45\x40\x83\x60\x80\x45\x40\x00\xff\x2f\x00".as_slice()
    );
    let bytes = nothing(rt.alloc(), 0).ok().ok_or("memory")?;
    assert!(rt;
        bytes.as_slice()
            == b"MThd\x00\x00\x00\x06\x00\x00\x00\x01\x00\x60MTrk\x00\x00\x00\x04\x00\xff\x2f\x00".as_slice()
    );
    let bytes = nothing(rt.alloc(), 268_435_455).ok().ok_or("memory")?;
    assert!(rt;
        bytes.as_slice()
            == b"MThd\x00\x00\x00\x06\x00\x00\x00\x01\x00\x60MTrk\x00\x00\x00\x07\xff\xff\xff\x7f\xff\x2f\x00".as_slice()
    );
    written_is_read();
    let track = TrackText::new(rt.alloc());
    assert_eq!(rt; track.len(), 0);
    assert_eq!(rt; track.last_tick(), 0);
    assert!(rt; !track.is_ended());
    Ok(())
}
