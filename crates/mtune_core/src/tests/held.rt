//! Notes that pedals hold, and channels that rest, on the bend route.
use super::E12;
use super::pieces::{At, Call, EXACT, End, KEY_69, Piece, Registered, Row, Setup, check_rows};
use std::test::Fail;

/// What is said of so many notes of key 69 that share a channel.
const ONE_NOTE: [&str; 7] = [
    "route bend",
    KEY_69,
    "notes 1",
    "channels 1",
    "need 1 tick 0 position 1",
    "pair 1 0",
    EXACT,
];

const IN_TURN: [&str; 7] = [
    "route bend",
    KEY_69,
    "notes 2",
    "channels 1",
    "need 1 tick 0 position 1",
    "pair 1 0",
    EXACT,
];

const STRUCK_AGAIN: [&str; 7] = [
    "route bend",
    KEY_69,
    "notes 2",
    "channels 1",
    "need 1 tick 0 position 2",
    "pair 1 0",
    EXACT,
];

/// A pedal holds a note from 480 to 960, so the second part can't have its channel.
const PEDAL: Row<'static> = Row {
    call: Call {
        scale: E12,
        words: &["--a440"],
        tracks: &[&[
            At(0, b"\xb0\x40\x7f"),
            At(0, b"\x90\x45\x40"),
            At(480, b"\x80\x45\x40"),
            At(480, b"\x91\x45\x40"),
            At(720, b"\x81\x45\x40"),
            At(960, b"\xb0\x40\x00"),
            At(960, b"\x91\x47\x40"),
            At(1440, b"\x81\x47\x40"),
        ]],
    },
    output: &[&[
        At(0, b"\xb0\x40\x7f"),
        Setup(0, 0),
        At(0, b"\x90\x45\x40"),
        At(480, b"\x80\x45\x40"),
        Setup(480, 1),
        At(480, b"\x91\x45\x40"),
        At(720, b"\x81\x45\x40"),
        At(960, b"\xb0\x40\x00"),
        At(960, b"\x91\x47\x40"),
        At(1440, b"\x81\x47\x40"),
    ]],
    said: &[
        "route bend",
        KEY_69,
        "key 71 to 71 bend 0 error 0.000 to 0.000",
        "notes 3",
        "channels 2",
        "need 2 tick 480 position 4",
        "pair 1 0",
        "pair 2 0",
        EXACT,
    ],
};

/// Notes of a key that is struck again while a pedal holds it, with a note off in between and without it.
const AGAIN: [Row<'static>; 2] = [
    Row {
        call: Call {
            scale: E12,
            words: &["--a440"],
            tracks: &[&[
                At(0, b"\xb0\x40\x7f"),
                At(0, b"\x90\x45\x40"),
                At(480, b"\x80\x45\x40"),
                At(600, b"\x90\x45\x40"),
                At(960, b"\x80\x45\x40"),
                At(1200, b"\xb0\x40\x00"),
            ]],
        },
        output: &[&[
            At(0, b"\xb0\x40\x7f"),
            Setup(0, 0),
            At(0, b"\x90\x45\x40"),
            At(480, b"\x80\x45\x40"),
            At(600, b"\x90\x45\x40"),
            At(960, b"\x80\x45\x40"),
            At(1200, b"\xb0\x40\x00"),
        ]],
        said: &STRUCK_AGAIN,
    },
    Row {
        call: Call {
            scale: E12,
            words: &["--a440"],
            tracks: &[&[
                At(0, b"\xb0\x40\x7f"),
                At(0, b"\x90\x45\x40"),
                At(600, b"\x90\x45\x40"),
                At(960, b"\x80\x45\x40"),
                At(1200, b"\xb0\x40\x00"),
            ]],
        },
        output: &[&[
            At(0, b"\xb0\x40\x7f"),
            Setup(0, 0),
            At(0, b"\x90\x45\x40"),
            At(600, b"\x90\x45\x40"),
            At(960, b"\x80\x45\x40"),
            At(1200, b"\xb0\x40\x00"),
        ]],
        said: &STRUCK_AGAIN,
    },
];

/// The same key of two parts, one right behind the other; and the second a tick later.
const AT_ONCE: [Piece<'static>; 4] = [
    At(0, b"\x90\x45\x40"),
    At(480, b"\x80\x45\x40"),
    At(480, b"\x91\x45\x40"),
    At(960, b"\x81\x45\x40"),
];

const LATER: [Piece<'static>; 4] = [
    At(0, b"\x90\x45\x40"),
    At(480, b"\x80\x45\x40"),
    At(481, b"\x91\x45\x40"),
    At(960, b"\x81\x45\x40"),
];

const TAILS: [Row<'static>; 4] = [
    Row {
        call: Call {
            scale: E12,
            words: &["--a440"],
            tracks: &[&AT_ONCE],
        },
        output: &[&[
            Setup(0, 0),
            At(0, b"\x90\x45\x40"),
            At(480, b"\x80\x45\x40"),
            At(480, b"\x90\x45\x40"),
            At(960, b"\x80\x45\x40"),
        ]],
        said: &IN_TURN,
    },
    Row {
        call: Call {
            scale: E12,
            words: &["--a440", "--tail", "1"],
            tracks: &[&AT_ONCE],
        },
        output: &[&[
            Setup(0, 0),
            At(0, b"\x90\x45\x40"),
            At(480, b"\x80\x45\x40"),
            Setup(480, 1),
            At(480, b"\x91\x45\x40"),
            At(960, b"\x81\x45\x40"),
        ]],
        said: &[
            "route bend",
            KEY_69,
            "notes 2",
            "channels 2",
            "need 2 tick 480 position 3",
            "pair 1 0",
            "pair 2 0",
            EXACT,
        ],
    },
    Row {
        call: Call {
            scale: E12,
            words: &["--a440", "--tail", "1"],
            tracks: &[&LATER],
        },
        output: &[&[
            Setup(0, 0),
            At(0, b"\x90\x45\x40"),
            At(480, b"\x80\x45\x40"),
            At(481, b"\x90\x45\x40"),
            At(960, b"\x80\x45\x40"),
        ]],
        said: &IN_TURN,
    },
    // a bend beyond the range, when the channel has had its rest
    Row {
        call: Call {
            scale: E12,
            words: &["--a440", "--range", "1", "--tail", "10"],
            tracks: &[&[
                At(0, b"\x90\x45\x40"),
                At(480, b"\x80\x45\x40"),
                At(490, b"\xe0\x00\x60"),
            ]],
        },
        output: &[&[
            Registered(0, 0, 0, 1),
            At(0, b"\x90\x45\x40"),
            At(480, b"\x80\x45\x40"),
            End(490),
        ]],
        said: &ONE_NOTE,
    },
];

/// The second part's next note takes the channel that has what it needs, and no other.
const KEPT: Row<'static> = Row {
    call: Call {
        scale: E12,
        words: &["--a440"],
        tracks: &[&[
            At(0, b"\xc0\x05"),
            At(0, b"\x90\x45\x40"),
            At(0, b"\x91\x45\x40"),
            At(480, b"\x80\x45\x40"),
            At(480, b"\x81\x45\x40"),
            At(480, b"\x91\x47\x40"),
            At(960, b"\x81\x47\x40"),
        ]],
    },
    output: &[&[
        At(0, b"\xc0\x05"),
        Setup(0, 0),
        At(0, b"\x90\x45\x40"),
        Setup(0, 1),
        At(0, b"\x91\x45\x40"),
        At(480, b"\x80\x45\x40"),
        At(480, b"\x81\x45\x40"),
        At(480, b"\x91\x47\x40"),
        At(960, b"\x81\x47\x40"),
    ]],
    said: &[
        "route bend",
        KEY_69,
        "key 71 to 71 bend 0 error 0.000 to 0.000",
        "notes 3",
        "channels 2",
        "need 2 tick 0 position 3",
        "pair 1 0",
        "pair 2 0",
        EXACT,
    ],
};

#[test]
fn pedals_hold_channels(rt: HostRuntime) -> Result<(), Fail> {
    check_rows(&rt, rt.alloc(), &[PEDAL])
}

#[test]
fn notes_that_are_struck_again_stay_on_their_channel(rt: HostRuntime) -> Result<(), Fail> {
    check_rows(&rt, rt.alloc(), &AGAIN)
}

#[test]
fn channels_rest_behind_their_notes(rt: HostRuntime) -> Result<(), Fail> {
    check_rows(&rt, rt.alloc(), &TAILS)
}

#[test]
fn channels_are_kept_for_what_stands_on_them(rt: HostRuntime) -> Result<(), Fail> {
    check_rows(&rt, rt.alloc(), &[KEPT])
}
