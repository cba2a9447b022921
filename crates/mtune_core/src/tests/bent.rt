//! The bend route: which channels notes are given, and what these have.
use super::E12;
use super::pieces::{At, Call, EXACT, J12, KEY_69, Piece, Registered, Row, Setup, check_rows};
use std::test::Fail;

/// A note of key 69 on the first channel from tick 0 to 480.
const NOTE: [Piece<'static>; 2] = [At(0, b"\x90\x45\x40"), At(480, b"\x80\x45\x40")];

/// A triad on the first channel from tick 0 to 480.
const TRIAD: [Piece<'static>; 6] = [
    At(0, b"\x90\x3c\x40"),
    At(0, b"\x90\x40\x40"),
    At(0, b"\x90\x43\x40"),
    At(480, b"\x80\x3c\x40"),
    At(480, b"\x80\x40\x40"),
    At(480, b"\x80\x43\x40"),
];

// 261.6255653 hertz aren't just middle C: the bounds of key 60 stand on both sides of its pitch.
const TRIAD_SAID: [&str; 11] = [
    "route bend",
    "key 60 to 60 bend 0 error -0.001 to 0.001",
    "key 64 to 64 bend -93 error 0.063 to 0.064",
    "key 67 to 67 bend 13 error -0.051 to -0.050",
    "notes 3",
    "channels 3",
    "need 3 tick 0 position 3",
    "pair 1 -93",
    "pair 1 0",
    "pair 1 13",
    "error -0.051 to 0.064",
];

/// Each bend has a channel of its own: the lowest ones that are allowed. Channel 10 is that of the drums.
const TRIADS: [Row<'static>; 2] = [
    Row {
        call: Call {
            scale: J12,
            words: &[],
            tracks: &[&TRIAD],
        },
        output: &[&[
            Setup(0, 0),
            At(0, b"\x90\x3c\x40"),
            Setup(0, 1),
            At(0, b"\xe1\x23\x3f"),
            At(0, b"\x91\x40\x40"),
            Setup(0, 2),
            At(0, b"\xe2\x0d\x40"),
            At(0, b"\x92\x43\x40"),
            At(480, b"\x80\x3c\x40"),
            At(480, b"\x81\x40\x40"),
            At(480, b"\x82\x43\x40"),
        ]],
        said: &TRIAD_SAID,
    },
    Row {
        call: Call {
            scale: J12,
            words: &["--channels", "3,5-6,10"],
            tracks: &[&TRIAD],
        },
        output: &[&[
            Setup(0, 2),
            At(0, b"\x92\x3c\x40"),
            Setup(0, 4),
            At(0, b"\xe4\x23\x3f"),
            At(0, b"\x94\x40\x40"),
            Setup(0, 5),
            At(0, b"\xe5\x0d\x40"),
            At(0, b"\x95\x43\x40"),
            At(480, b"\x82\x3c\x40"),
            At(480, b"\x84\x40\x40"),
            At(480, b"\x85\x43\x40"),
        ]],
        said: &TRIAD_SAID,
    },
];

/// Notes of one part and one bend share a channel.
const SHARED: [Row<'static>; 5] = [
    Row {
        call: Call {
            scale: E12,
            words: &["--a440"],
            tracks: &[&NOTE],
        },
        output: &[&[
            Setup(0, 0),
            At(0, b"\x90\x45\x40"),
            At(480, b"\x80\x45\x40"),
        ]],
        said: &[
            "route bend",
            KEY_69,
            "notes 1",
            "channels 1",
            "need 1 tick 0 position 1",
            "pair 1 0",
            EXACT,
        ],
    },
    // an octave
    Row {
        call: Call {
            scale: J12,
            words: &[],
            tracks: &[&[
                At(0, b"\x90\x3c\x40"),
                At(0, b"\x90\x48\x40"),
                At(480, b"\x80\x3c\x40"),
                At(480, b"\x80\x48\x40"),
            ]],
        },
        output: &[&[
            Setup(0, 0),
            At(0, b"\x90\x3c\x40"),
            At(0, b"\x90\x48\x40"),
            At(480, b"\x80\x3c\x40"),
            At(480, b"\x80\x48\x40"),
        ]],
        said: &[
            "route bend",
            "key 60 to 60 bend 0 error -0.001 to 0.001",
            "key 72 to 72 bend 0 error -0.001 to 0.001",
            "notes 2",
            "channels 1",
            "need 1 tick 0 position 1",
            "pair 1 0",
            "error -0.001 to 0.001",
        ],
    },
    // the same key of two parts
    Row {
        call: Call {
            scale: E12,
            words: &["--a440"],
            tracks: &[&[
                At(0, b"\x90\x45\x40"),
                At(0, b"\x91\x45\x40"),
                At(480, b"\x80\x45\x40"),
                At(480, b"\x81\x45\x40"),
            ]],
        },
        output: &[&[
            Setup(0, 0),
            At(0, b"\x90\x45\x40"),
            Setup(0, 1),
            At(0, b"\x91\x45\x40"),
            At(480, b"\x80\x45\x40"),
            At(480, b"\x81\x45\x40"),
        ]],
        said: &[
            "route bend",
            KEY_69,
            "notes 2",
            "channels 2",
            "need 2 tick 0 position 2",
            "pair 1 0",
            "pair 2 0",
            EXACT,
        ],
    },
    // midway between two keys
    Row {
        call: Call {
            scale: "two\n2\n50.0\n1200.0\n",
            words: &["--a440"],
            tracks: &[&[At(0, b"\x90\x46\x40"), At(480, b"\x80\x46\x40")]],
        },
        output: &[&[
            Setup(0, 0),
            At(0, b"\xe0\x2b\x3d"),
            At(0, b"\x90\x46\x40"),
            At(480, b"\x80\x46\x40"),
        ]],
        said: &[
            "route bend",
            "key 70 to 70 bend -341 error 0.048 to 0.049",
            "notes 1",
            "channels 1",
            "need 1 tick 0 position 1",
            "pair 1 -341",
            "error 0.048 to 0.049",
        ],
    },
    // a third of 5/4
    Row {
        call: Call {
            scale: J12,
            words: &[],
            tracks: &[&[At(0, b"\x90\x40\x40"), At(480, b"\x80\x40\x40")]],
        },
        output: &[&[
            Setup(0, 0),
            At(0, b"\xe0\x23\x3f"),
            At(0, b"\x90\x40\x40"),
            At(480, b"\x80\x40\x40"),
        ]],
        said: &[
            "route bend",
            "key 64 to 64 bend -93 error 0.063 to 0.064",
            "notes 1",
            "channels 1",
            "need 1 tick 0 position 1",
            "pair 1 -93",
            "error 0.063 to 0.064",
        ],
    },
];

/// Channels have what their parts have.
const BROUGHT: [Row<'static>; 3] = [
    // a bend of the part
    Row {
        call: Call {
            scale: E12,
            words: &["--a440"],
            tracks: &[&[
                At(0, b"\xe0\x7f\x7f"),
                At(0, b"\x90\x45\x40"),
                At(480, b"\x80\x45\x40"),
            ]],
        },
        output: &[&[
            Setup(0, 0),
            At(0, b"\xe0\x55\x4a"),
            At(0, b"\x90\x45\x40"),
            At(480, b"\x80\x45\x40"),
        ]],
        said: &[
            "route bend",
            KEY_69,
            "notes 1",
            "channels 1",
            "need 1 tick 0 position 2",
            "pair 1 0",
            EXACT,
        ],
    },
    // two parts in turn on one channel
    Row {
        call: Call {
            scale: E12,
            words: &["--a440", "--channels", "1"],
            tracks: &[&[
                At(0, b"\xc0\x05"),
                At(0, b"\xb0\x07\x50"),
                At(0, b"\x90\x45\x40"),
                At(480, b"\x80\x45\x40"),
                At(480, b"\x91\x45\x40"),
                At(960, b"\x81\x45\x40"),
            ]],
        },
        output: &[&[
            At(0, b"\xc0\x05"),
            At(0, b"\xb0\x07\x50"),
            Setup(0, 0),
            At(0, b"\x90\x45\x40"),
            At(480, b"\x80\x45\x40"),
            At(480, b"\xc0\x00"),
            At(480, b"\xb0\x07\x64"),
            At(480, b"\x90\x45\x40"),
            At(960, b"\x80\x45\x40"),
        ]],
        said: &[
            "route bend",
            KEY_69,
            "notes 2",
            "channels 1",
            "need 1 tick 0 position 3",
            "pair 1 0",
            EXACT,
        ],
    },
    // a registered parameter
    Row {
        call: Call {
            scale: E12,
            words: &["--a440"],
            tracks: &[&[
                At(0, b"\xb0\x65\x00"),
                At(0, b"\xb0\x64\x01"),
                At(0, b"\xb0\x06\x41"),
                At(0, b"\x90\x45\x40"),
                At(480, b"\x80\x45\x40"),
            ]],
        },
        output: &[&[
            At(0, b"\xb0\x65\x00"),
            At(0, b"\xb0\x64\x00"),
            At(0, b"\xb0\x06\x0c"),
            Registered(0, 0, 1, 65),
            At(0, b"\x90\x45\x40"),
            At(480, b"\x80\x45\x40"),
        ]],
        said: &[
            "route bend",
            KEY_69,
            "notes 1",
            "channels 1",
            "need 1 tick 0 position 4",
            "pair 1 0",
            EXACT,
        ],
    },
];

#[test]
fn each_bend_has_a_channel_of_its_own(rt: HostRuntime) -> Result<(), Fail> {
    check_rows(&rt, rt.alloc(), &TRIADS)
}

#[test]
fn notes_of_one_bend_share_a_channel(rt: HostRuntime) -> Result<(), Fail> {
    check_rows(&rt, rt.alloc(), &SHARED)
}

#[test]
fn channels_have_what_their_parts_have(rt: HostRuntime) -> Result<(), Fail> {
    check_rows(&rt, rt.alloc(), &BROUGHT)
}
