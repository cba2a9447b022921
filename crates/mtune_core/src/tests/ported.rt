//! Sources of several ports on the bend and the MPE route.
use super::E12;
use super::pieces::{At, Call, EXACT, KEY_69, Piece, Registered, Row, Setup, check_rows};
use std::test::Fail;

/// A note of key 69 on the first channel of a port from tick 0 to 480.
const FIRST: [Piece<'static>; 3] = [
    At(0, b"\xff\x21\x01\x00"),
    At(0, b"\x90\x45\x40"),
    At(480, b"\x80\x45\x40"),
];

const SECOND: [Piece<'static>; 3] = [
    At(0, b"\xff\x21\x01\x01"),
    At(0, b"\x90\x45\x40"),
    At(480, b"\x80\x45\x40"),
];

const PORTS: [Row<'static>; 2] = [
    Row {
        call: Call {
            scale: E12,
            words: &["--a440"],
            tracks: &[&FIRST, &SECOND],
        },
        output: &[
            &[
                At(0, b"\xff\x21\x01\x00"),
                Setup(0, 0),
                At(0, b"\x90\x45\x40"),
                At(480, b"\x80\x45\x40"),
            ],
            &[
                At(0, b"\xff\x21\x01\x01"),
                Setup(0, 0),
                At(0, b"\x90\x45\x40"),
                At(480, b"\x80\x45\x40"),
            ],
        ],
        said: &[
            "route bend",
            KEY_69,
            "notes 2",
            "channels 2",
            "port 0",
            "need 1 tick 0 position 2",
            "pair 1 0",
            "port 1",
            "need 1 tick 0 position 4",
            "pair 1 0",
            EXACT,
        ],
    },
    Row {
        call: Call {
            scale: E12,
            words: &["--a440", "--route", "mpe"],
            tracks: &[&FIRST, &SECOND],
        },
        output: &[
            &[
                At(0, b"\xff\x21\x01\x00"),
                Registered(0, 0, 6, 1),
                At(0, b"\x91\x45\x40"),
                At(480, b"\x81\x45\x40"),
            ],
            &[
                At(0, b"\xff\x21\x01\x01"),
                Registered(0, 0, 6, 1),
                At(0, b"\x91\x45\x40"),
                At(480, b"\x81\x45\x40"),
            ],
        ],
        said: &[
            "route mpe",
            KEY_69,
            "notes 2",
            "channels 2",
            "port 0",
            "zone lower part 1 need 1 tick 0 position 2",
            "pair 1 0",
            "port 1",
            "zone lower part 1 need 1 tick 0 position 4",
            "pair 1 0",
            EXACT,
        ],
    },
];

#[test]
fn each_port_has_channels_of_its_own(rt: HostRuntime) -> Result<(), Fail> {
    check_rows(&rt, rt.alloc(), &PORTS)
}

/// Notes of three parts of port 3 at once.
const THREE_PARTS: [Piece<'static>; 4] = [
    At(0, b"\xff\x21\x01\x03"),
    At(0, b"\x90\x45\x40"),
    At(0, b"\x91\x45\x40"),
    At(0, b"\x9f\x45\x40"),
];

#[test]
fn third_parts_of_a_port_are_refused_on_mpe(rt: HostRuntime) -> Result<(), Fail> {
    let call = Call {
        scale: E12,
        words: &["--a440", "--route", "mpe"],
        tracks: &[&FIRST, &THREE_PARTS],
    };
    call.is_refused(&rt, rt.alloc(), "mtune: 3 parts on mpe on port 3")?;
    Ok(())
}
