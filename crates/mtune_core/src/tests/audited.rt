//! The audit of a source: when each retuned note begins and ends, where it is played, and its error.
use super::E12;
use super::pieces::{At, Call, EXACT, KEY_69, Piece, Registered, Row, Setup, check_rows};
use std::test::Fail;

/// A pedal holds key 69, which is struck again at 600 and ends at 1,200.
const AGAIN_SAID: [&str; 9] = [
    "route bend",
    KEY_69,
    "note 1 part 1 key 69 channel 1 tick 0 to 600 velocity 64 error 0.000 to 0.000",
    "note 2 part 1 key 69 channel 1 tick 600 to 1200 velocity 64 error 0.000 to 0.000",
    "notes 2",
    "channels 1",
    "need 1 tick 0 position 2",
    "pair 1 0",
    EXACT,
];

/// With a note off before the second note on, and without it.
const AGAIN: [Row<'static>; 2] = [
    Row {
        call: Call {
            scale: E12,
            words: &["--a440", "--audit"],
            tracks: &[&[
                At(0, b"\xb0\x40\x7f"),
                At(0, b"\x90\x45\x40"),
                At(480, b"\x80\x45\x40"),
                At(600, b"\x90\x45\x40"),
                At(960, b"\x80\x45\x40"),
                At(1200, b"\xb0\x40\x00"),
            ]],
        },
        output: &[&[
            At(0, b"\xb0\x40\x7f"),
            Setup(0, 0),
            At(0, b"\x90\x45\x40"),
            At(480, b"\x80\x45\x40"),
            At(600, b"\x90\x45\x40"),
            At(960, b"\x80\x45\x40"),
            At(1200, b"\xb0\x40\x00"),
        ]],
        said: &AGAIN_SAID,
    },
    Row {
        call: Call {
            scale: E12,
            words: &["--a440", "--audit"],
            tracks: &[&[
                At(0, b"\xb0\x40\x7f"),
                At(0, b"\x90\x45\x40"),
                At(600, b"\x90\x45\x40"),
                At(960, b"\x80\x45\x40"),
                At(1200, b"\xb0\x40\x00"),
            ]],
        },
        output: &[&[
            At(0, b"\xb0\x40\x7f"),
            Setup(0, 0),
            At(0, b"\x90\x45\x40"),
            At(600, b"\x90\x45\x40"),
            At(960, b"\x80\x45\x40"),
            At(1200, b"\xb0\x40\x00"),
        ]],
        said: &AGAIN_SAID,
    },
];

/// A note of port 1 from tick 0 to 480; and two notes that are still held at the end, of key 69 with velocity 100.
const SHORT: [Piece<'static>; 3] = [
    At(0, b"\xff\x21\x01\x01"),
    At(0, b"\x90\x45\x40"),
    At(480, b"\x80\x45\x40"),
];

const HELD: [Piece<'static>; 2] = [At(0, b"\x92\x45\x64"), At(0, b"\x93\x45\x64")];

/// On live each note has its own channel, on MPE a member of its part's zone.
const ROUTES: [Row<'static>; 2] = [
    Row {
        call: Call {
            scale: E12,
            words: &["--a440", "--route", "live", "--audit"],
            tracks: &[&HELD],
        },
        output: &[&[
            Registered(0, 2, 3, 0),
            Registered(0, 3, 3, 0),
            At(0, b"\xf0\x0b\x7f\x7f\x08\x02\x00\x01\x45\x45\x00\x00\xf7"),
            At(0, b"\x92\x45\x64"),
            At(0, b"\x93\x45\x64"),
        ]],
        said: &[
            "route live",
            "key 69 to 45 00 00 error 0.000 to 0.000",
            "note 1 part 3 key 69 channel 3 tick 0 to none velocity 100 error 0.000 to 0.000",
            "note 2 part 4 key 69 channel 4 tick 0 to none velocity 100 error 0.000 to 0.000",
            "notes 2",
            "channels 2",
            EXACT,
        ],
    },
    Row {
        call: Call {
            scale: E12,
            words: &["--a440", "--route", "mpe", "--audit"],
            tracks: &[&HELD, &SHORT],
        },
        output: &[
            &[
                Registered(0, 0, 6, 1),
                Registered(0, 15, 6, 1),
                At(0, b"\x91\x45\x64"),
                At(0, b"\x9e\x45\x64"),
            ],
            &[
                At(0, b"\xff\x21\x01\x01"),
                Registered(0, 0, 6, 1),
                At(0, b"\x91\x45\x40"),
                At(480, b"\x81\x45\x40"),
            ],
        ],
        said: &[
            "route mpe",
            KEY_69,
            "note 1 part 3 port 0 key 69 channel 2 tick 0 to none velocity 100 error 0.000 to 0.000",
            "note 2 part 4 port 0 key 69 channel 15 tick 0 to none velocity 100 error 0.000 to 0.000",
            "note 3 part 1 port 1 key 69 channel 2 tick 0 to 480 velocity 64 error 0.000 to 0.000",
            "notes 3",
            "channels 3",
            "port 0",
            "zone lower part 3 need 1 tick 0 position 1",
            "pair 3 0",
            "zone upper part 4 need 1 tick 0 position 2",
            "pair 4 0",
            "port 1",
            "zone lower part 1 need 1 tick 0 position 5",
            "pair 1 0",
            EXACT,
        ],
    },
];

#[test]
fn notes_that_are_struck_again_end_there(rt: HostRuntime) -> Result<(), Fail> {
    check_rows(&rt, rt.alloc(), &AGAIN)
}

#[test]
fn notes_are_told_with_their_channels(rt: HostRuntime) -> Result<(), Fail> {
    check_rows(&rt, rt.alloc(), &ROUTES)
}
