//! Resets on the bend route.
use super::E12;
use super::pieces::{At, Call, EXACT, KEY_69, Row, Setup, check_rows};
use std::test::Fail;

const RESETS: [Row<'static>; 2] = [
    // of the device: the first note ends at 480
    Row {
        call: Call {
            scale: E12,
            words: &["--a440"],
            tracks: &[&[
                At(0, b"\x90\x45\x40"),
                At(480, b"\xf0\x05\x7e\x7f\x09\x01\xf7"),
                At(960, b"\x90\x45\x40"),
                At(1440, b"\x80\x45\x40"),
            ]],
        },
        output: &[&[
            Setup(0, 0),
            At(0, b"\x90\x45\x40"),
            At(480, b"\xf0\x05\x7e\x7f\x09\x01\xf7"),
            Setup(960, 0),
            At(960, b"\x90\x45\x40"),
            At(1440, b"\x80\x45\x40"),
        ]],
        said: &[
            "route bend",
            KEY_69,
            "notes 2",
            "channels 1",
            "need 1 tick 0 position 1",
            "pair 1 0",
            EXACT,
        ],
    },
    // of the controllers
    Row {
        call: Call {
            scale: E12,
            words: &["--a440"],
            tracks: &[&[
                At(0, b"\x90\x45\x40"),
                At(240, b"\xb0\x01\x64"),
                At(480, b"\xb0\x79\x00"),
                At(960, b"\x80\x45\x40"),
            ]],
        },
        output: &[&[
            Setup(0, 0),
            At(0, b"\x90\x45\x40"),
            At(240, b"\xb0\x01\x64"),
            At(480, b"\xb0\x01\x00"),
            At(960, b"\x80\x45\x40"),
        ]],
        said: &[
            "route bend",
            KEY_69,
            "notes 1",
            "channels 1",
            "need 1 tick 0 position 1",
            "pair 1 0",
            EXACT,
        ],
    },
];

#[test]
fn resets_reach_the_channels(rt: HostRuntime) -> Result<(), Fail> {
    check_rows(&rt, rt.alloc(), &RESETS)
}
