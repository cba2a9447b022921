//! What is refused of a source on the bend and the MPE route, and what the fault keeps.
use super::E12;
use super::pieces::{At, Call, J12, Piece};
use crate::{Fault, Outcome};
use std::process::Abort;
use std::test::Fail;

const ALONE: [(Call<'static>, &str); 4] = [
    // two keys of one pitch at once
    (
        Call {
            scale: "two\n2\n0.0\n1200.0\n",
            words: &["--a440"],
            tracks: &[&[At(0, b"\x90\x45\x40"), At(0, b"\x90\x46\x40")]],
        },
        "mtune: input event 2 tick 0 track 0 kind 3",
    ),
    // a bend of the part beyond the range
    (
        Call {
            scale: E12,
            words: &["--a440", "--range", "1"],
            tracks: &[&[At(0, b"\xe0\x00\x60"), At(0, b"\x90\x45\x40")]],
        },
        "mtune: input event 2 tick 0 track 0 kind 4 q 0 r 8192",
    ),
    // the same while the channel rests
    (
        Call {
            scale: E12,
            words: &["--a440", "--range", "1", "--tail", "100"],
            tracks: &[&[
                At(0, b"\x90\x45\x40"),
                At(480, b"\x80\x45\x40"),
                At(490, b"\xe0\x00\x60"),
            ]],
        },
        "mtune: input event 3 tick 490 track 0 kind 4 q 0 r 8192",
    ),
    // key pressure where notes have members of a zone
    (
        Call {
            scale: E12,
            words: &["--a440", "--route", "mpe"],
            tracks: &[&[At(0, b"\x90\x45\x40"), At(0, b"\xa0\x45\x40")]],
        },
        "mtune: input event 2 tick 0 track 0 kind 11",
    ),
];

#[test]
fn what_has_no_bend_is_refused(rt: HostRuntime) -> Result<(), Fail> {
    for (call, said) in ALONE {
        call.is_refused(&rt, rt.alloc(), said)?;
    }
    Ok(())
}

/// Three messages that set a parameter of a synthesizer's own.
fn parameter(low: u8) -> [[u8; 3]; 3] {
    [[0xb0, 99, 1], [0xb0, 98, low], [0xb0, 6, 1]]
}

#[test]
fn a_seventeenth_parameter_is_refused(rt: HostRuntime) -> Result<(), Fail> {
    let alloc = rt.alloc();
    let mut messages = Vec::new(alloc);
    for low in 0..17u8 {
        messages.extend_from_slice(&parameter(low))?;
    }
    let mut pieces = Vec::new(alloc);
    for message in &messages {
        pieces.push(At(0, message.as_slice()))?;
    }
    for words in [
        ["--a440", "--route", "bend"],
        ["--a440", "--route", "mpe"],
        ["--a440", "--route", "dump"],
        ["--a440", "--route", "live"],
    ] {
        let call = Call {
            scale: E12,
            words: &words,
            tracks: &[pieces.as_slice()],
        };
        call.is_refused(&rt, alloc, "mtune: input event 51 tick 0 track 0 kind 10")?;
    }
    Ok(())
}

/// A triad on the first channel.
const TRIAD: [Piece<'static>; 3] = [
    At(0, b"\x90\x3c\x40"),
    At(0, b"\x90\x40\x40"),
    At(0, b"\x90\x43\x40"),
];

/// The same behind a port of the track's own.
const TRIAD_OF_PORT_7: [Piece<'static>; 4] = [
    At(0, b"\xff\x21\x01\x07"),
    At(0, b"\x90\x3c\x40"),
    At(0, b"\x90\x40\x40"),
    At(0, b"\x90\x43\x40"),
];

/// Checks the port, the part and the steps of each pair that a fault keeps.
fn check_pairs(rt: &impl Abort, outcome: &Outcome, wanted: &[(u8, u8, i32)]) {
    let Some(Fault::TooManyChannels(fault)) = &outcome.fault else {
        assert!(rt; false, "it isn't refused for its channels");
        return;
    };
    assert_eq!(rt; fault.pairs.len(), wanted.len());
    for (pair, (port, channel, steps)) in fault.pairs.iter().zip(wanted) {
        assert_eq!(rt; pair.part.port, *port);
        assert_eq!(rt; pair.part.channel.number(), *channel);
        assert_eq!(rt; pair.steps, *steps);
    }
}

/// The channels that are allowed, the track, what is said, and the pairs that the fault keeps.
type TooFew<'a> = (&'a str, &'a [Piece<'a>], &'a str, &'a [(u8, u8, i32)]);

#[test]
fn too_few_channels_are_refused(rt: HostRuntime) -> Result<(), Fail> {
    let rows: [TooFew<'_>; 3] = [
        (
            "1-2",
            &TRIAD,
            "mtune: needs 3 channels of 2 at tick 0 position 3",
            &[(0, 0, -93), (0, 0, 0), (0, 0, 13)],
        ),
        // drums are kept on channel 10
        (
            "10",
            &TRIAD,
            "mtune: needs 3 channels of 0 at tick 0 position 3",
            &[(0, 0, -93)],
        ),
        (
            "1-2",
            &TRIAD_OF_PORT_7,
            "mtune: needs 3 channels of 2 on port 7 at tick 0 position 4",
            &[(7, 0, -93), (7, 0, 0), (7, 0, 13)],
        ),
    ];
    for (channels, track, said, pairs) in rows {
        let call = Call {
            scale: J12,
            words: &["--channels", channels],
            tracks: &[track],
        };
        let outcome = call.is_refused(&rt, rt.alloc(), said)?;
        check_pairs(&rt, &outcome, pairs);
    }
    Ok(())
}
