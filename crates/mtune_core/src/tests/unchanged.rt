//! Sources without a retuned note, which stay as they are on every route.
use super::{E12, check, file_divided, files};
use crate::run;
use std::alloc::Global;
use std::process::Abort;
use std::test::Fail;

/// Each route, and what is said of a source without a retuned note.
const ROUTES: [(&str, &str); 4] = [
    ("dump", "route dump\nnotes 0\nchannels 0\nerror none\n"),
    ("live", "route live\nnotes 0\nchannels 0\nerror none\n"),
    (
        "bend",
        "route bend\nnotes 0\nchannels 0\nneed 0 tick 0 position 0\nerror none\n",
    ),
    ("mpe", "route mpe\nnotes 0\nchannels 0\nerror none\n"),
];

/// A division, what is in the track, and what becomes of it.
const ROWS: [([u8; 2], &[u8], &[u8]); 6] = [
    // an end of track alone, with a division of 96
    ([0x00, 0x60], b"\x00\xff\x2f\x00", b"\x00\xff\x2f\x00"),
    // notes of the drums
    (
        [0x01, 0xe0],
        b"\x00\x99\x24\x40\x00\x24\x40\x60\x24\x00\x00\x24\x00\x00\xff\x2f\x00",
        b"\x00\x99\x24\x40\x00\x24\x40\x60\x24\x00\x00\x24\x00\x00\xff\x2f\x00",
    ),
    // a delta time in more bytes than it needs
    (
        [0x01, 0xe0],
        b"\x80\x80\x00\xff\x2f\x00",
        b"\x00\xff\x2f\x00",
    ),
    // the last tick
    (
        [0x01, 0xe0],
        b"\xff\xff\xff\x7f\xff\x2f\x00",
        b"\xff\xff\xff\x7f\xff\x2f\x00",
    ),
    // a port
    (
        [0x01, 0xe0],
        b"\x00\xff\x21\x01\x01\x00\xff\x2f\x00",
        b"\x00\xff\x21\x01\x01\x00\xff\x2f\x00",
    ),
    // a port of the drums
    (
        [0x01, 0xe0],
        b"\x00\xff\x21\x01\x01\x00\x99\x24\x40\x00\xff\x2f\x00",
        b"\x00\xff\x21\x01\x01\x00\x99\x24\x40\x00\xff\x2f\x00",
    ),
];

/// Checks a row on a route.
fn check_on(
    rt: &impl Abort,
    alloc: Global,
    route: (&str, &str),
    row: ([u8; 2], &[u8], &[u8]),
) -> Result<(), Fail> {
    let (division, content, wanted) = row;
    let input = file_divided(alloc, 0, 1, division, &[content])?;
    let mut files = files(alloc, E12, input.as_slice())?;
    let words = [
        "--scale", "e12.scl", "--a440", "--route", route.0, "--out", "out.mid", "in.mid",
    ];
    let outcome = run(alloc, words.as_slice(), &mut files);
    let output = file_divided(alloc, 0, 1, division, &[wanted])?;
    check(
        rt,
        &files,
        outcome,
        None,
        0,
        route.1,
        Some(output.as_slice()),
    );
    Ok(())
}

#[test]
fn pieces_without_retuned_notes_stay(rt: HostRuntime) -> Result<(), Fail> {
    for route in ROUTES {
        for row in ROWS {
            check_on(&rt, rt.alloc(), route, row)?;
        }
    }
    Ok(())
}
