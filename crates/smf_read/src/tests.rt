use super::*;
use mt_base::{Channel, Event, Msg, What};
use std::alloc::Global;
use std::test::*;

const ONE_TRACK: [u8; 18] = [
    0x4d, 0x54, 0x68, 0x64, 0, 0, 0, 6, 0, 0, 0, 1, 0, 0x60, 0x4d, 0x54, 0x72, 0x6b,
];

const NOTE: [u8; 35] = [
    0x4d, 0x54, 0x68, 0x64, 0, 0, 0, 6, 0, 0, 0, 1, 1, 0xe0, 0x4d, 0x54, 0x72, 0x6b, 0, 0, 0, 0x0d,
    0, 0x90, 0x45, 0x40, 0x83, 0x60, 0x80, 0x45, 0x40, 0, 0xff, 0x2f, 0,
];

/// Two tracks, with unknown chunks before, between and after them, two bytes more in the header, and
/// bytes after the last track.
const TWO_TRACKS: [u8; 63] = [
    0x4d, 0x54, 0x68, 0x64, 0, 0, 0, 8, 0, 1, 0, 2, 0, 0x60, 9, 9, 0x58, 0x46, 0x49, 0x48, 0, 0, 0,
    1, 0xff, 0x4d, 0x54, 0x72, 0x6b, 0, 0, 0, 4, 0, 0xff, 0x2f, 0, 0x58, 0x46, 0x49, 0x48, 0, 0, 0,
    0, 0x4d, 0x54, 0x72, 0x6b, 0, 0, 0, 4, 0x10, 0xff, 0x2f, 0, 0x58, 0x46, 0x49, 0x48, 0, 0,
];

/// The offset and number of the fault; 0 and 0 where there is none.
fn answer(alloc: Global, bytes: &[u8]) -> (u32, u8) {
    if bytes.len() > midi_model::MOST_BYTES {
        return (u32::MAX, 0);
    }
    match read_smf(alloc, bytes) {
        Ok(_) => (0, 0),
        Err(SmfFault::At { offset, kind }) => (offset, kind.number()),
        Err(SmfFault::Memory) => (u32::MAX, 1),
    }
}

fn with_content(alloc: Global, content: &[u8]) -> Result<Vec<u8>, Fail> {
    let mut bytes = Vec::new(alloc);
    bytes.extend_from_slice(&ONE_TRACK)?;
    bytes.extend_from_slice(&[0, 0, 0, content.len().min(255) as u8])?;
    bytes.extend_from_slice(content)?;
    Ok(bytes)
}

fn with_tracks(alloc: Global, count: u16) -> Result<Vec<u8>, Fail> {
    let mut bytes = Vec::new(alloc);
    let [high, low] = count.to_be_bytes();
    bytes.extend_from_slice(&[0x4d, 0x54, 0x68, 0x64, 0, 0, 0, 6, 0, 1, high, low, 0, 0x60])?;
    for _ in 0..count {
        bytes.extend_from_slice(&[0x4d, 0x54, 0x72, 0x6b, 0, 0, 0, 4, 0, 0xff, 0x2f, 0])?;
    }
    Ok(bytes)
}

/// Contents of a track, with the offset and kind of their first fault; 0 and 0 for none.
const CONTENTS: [(&[u8], u32, u8); 20] = [
    (&[0x80, 0x80, 0, 0xff, 0x2f, 0], 0, 0),
    (&[0x81, 0x82, 0x83, 0x84, 5], 25, 7),
    (
        &[
            0, 0x90, 0x45, 0x40, 0, 0xff, 1, 0, 0, 0x45, 0, 0, 0xff, 0x2f, 0,
        ],
        31,
        8,
    ),
    (&[0, 0xf0, 5, 0x7e, 0x7f], 27, 5),
    (&[0xff, 0xff, 0xff, 0x7f, 0xff, 0x2f, 0], 0, 0),
    (
        &[1, 0xff, 1, 0, 0xff, 0xff, 0xff, 0x7f, 0xff, 0x2f, 0],
        26,
        12,
    ),
    (
        &[
            0, 0x99, 0x24, 0x40, 0, 0x24, 0x40, 0x60, 0x24, 0, 0, 0x24, 0, 0, 0xff, 0x2f, 0,
        ],
        0,
        0,
    ),
    (&[0, 0xf0, 0xff, 0xff, 0xff, 0xff], 27, 7),
    (&[0, 0xf8], 23, 9),
    (&[0, 0x90, 0x80, 0x40, 0, 0xff, 0x2f, 0], 24, 10),
    (&[0, 0xff, 0x2f, 1, 0], 25, 10),
    (&[], 22, 11),
    (&[0, 0x90, 0x45, 0x40], 26, 11),
    (&[0, 0x90, 0x45, 0x40, 0, 0xf7, 1, 0xf7, 0, 0x45, 0], 31, 8),
    (&[0, 0xff, 0x2f, 0, 0xff, 0xff], 0, 0),
    // Short messages: the last tick and the one after it, a delta of two bytes, a data byte too high.
    (
        &[
            0xff, 0xff, 0xff, 0x7e, 0x90, 0x45, 0x40, 1, 0x45, 0x40, 1, 0x45, 0,
        ],
        32,
        12,
    ),
    (
        &[
            0, 0x90, 0x45, 0x40, 0x81, 0, 0x45, 0, 1, 0x80, 0x45, 0x40, 0, 0xff, 0x2f, 0,
        ],
        0,
        0,
    ),
    (&[0, 0x90, 0x45, 0x40, 0x81, 0, 0x45, 0x80, 0], 29, 10),
    // The same with one data byte.
    (
        &[
            0, 0xc0, 5, 1, 6, 2, 0xd1, 0x40, 3, 0x41, 0x81, 0, 0x42, 0, 0xff, 0x2f, 0,
        ],
        0,
        0,
    ),
    (&[0, 0xdf, 0x40, 1, 0xcf, 0x80, 0], 27, 10),
];

#[test]
fn contents_and_their_faults(rt: HostRuntime) -> Result<(), Fail> {
    for (content, offset, kind) in CONTENTS {
        let bytes = with_content(rt.alloc(), content)?;
        let found = answer(rt.alloc(), &bytes);
        assert_eq!(rt; found, (offset, kind), "{content:?}");
    }
    Ok(())
}

#[test]
fn files_and_their_faults(rt: HostRuntime) -> Result<(), Fail> {
    let cases: [(&[u8], u32, u8); 7] = [
        (&[], 0, 1),
        (&[0x4d, 0x54, 0x68, 0x64, 0, 0, 0, 5, 0, 0, 0, 1, 0], 4, 2),
        (
            &[0x4d, 0x54, 0x68, 0x64, 0, 0, 0, 6, 0, 1, 0, 0, 0, 0x60],
            10,
            2,
        ),
        (
            &[0x4d, 0x54, 0x68, 0x64, 0, 0, 0, 6, 0, 2, 0, 1, 0, 0x60],
            8,
            3,
        ),
        (
            &[0x4d, 0x54, 0x68, 0x64, 0, 0, 0, 6, 0, 3, 0, 1, 0, 0x60],
            8,
            4,
        ),
        (&TWO_TRACKS, 0, 0),
        (&NOTE, 0, 0),
    ];
    for (bytes, offset, kind) in cases {
        assert_eq!(rt; answer(rt.alloc(), bytes), (offset, kind), "{bytes:?}");
    }
    for n in 0..35usize {
        let cut = answer(rt.alloc(), &NOTE[..n]);
        let wanted = match n {
            0..=3 => (0, 1),
            14..=21 => (14, 6),
            _ => (n as u32, 5),
        };
        assert_eq!(rt; cut, wanted, "cut to {n}");
    }
    let most = with_tracks(rt.alloc(), 1024)?;
    assert_eq!(rt; answer(rt.alloc(), &most), (0, 0));
    let more = with_tracks(rt.alloc(), 1025)?;
    assert_eq!(rt; answer(rt.alloc(), &more), (10, 13));
    Ok(())
}

fn is_message(event: &Option<Event<'_>>, tick: u32, wanted: &Msg) -> bool {
    match event {
        Some(event) => match &event.what {
            What::Message(msg) => event.tick == tick && event.track == 0 && msg == wanted,
            _ => false,
        },
        None => false,
    }
}

fn is_end(event: &Option<Event<'_>>, tick: u32) -> bool {
    match event {
        Some(event) => match &event.what {
            What::Meta { kind, bytes } => {
                event.tick == tick && event.track == 0 && *kind == 0x2f && bytes.is_empty()
            }
            _ => false,
        },
        None => false,
    }
}

#[test]
fn cursors_are_copied_and_restarted(rt: HostRuntime) -> Result<(), Fail> {
    let smf = read_smf(rt.alloc(), &NOTE).ok().ok_or("a file")?;
    assert_eq!(rt; (smf.format(), smf.division(), smf.tracks()), (0, 480, 1));
    let mut cursor = smf.cursor(0);
    drop(smf);
    let on = Msg::NoteOn {
        channel: Channel::default(),
        key: 69,
        velocity: 64,
    };
    let off = Msg::NoteOff {
        channel: Channel::default(),
        key: 69,
        velocity: 64,
    };
    assert_eq!(rt; cursor.tick(), Some(0));
    let first = cursor.next();
    assert!(rt; is_message(&first, 0, &on));
    let mut copy = cursor;
    assert_eq!(rt; cursor.tick(), Some(480));
    let second = cursor.next();
    assert!(rt; is_message(&second, 480, &off));
    let last = cursor.next();
    assert!(rt; is_end(&last, 480));
    assert!(rt; cursor.next().is_none());
    assert_eq!(rt; cursor.tick(), None);
    let second = copy.next();
    assert!(rt; is_message(&second, 480, &off));
    cursor.restart();
    let first = cursor.next();
    assert!(rt; is_message(&first, 0, &on));
    assert!(rt; Cursor::default().next().is_none());
    Ok(())
}
