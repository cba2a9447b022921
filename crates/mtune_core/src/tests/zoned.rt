//! The MPE route: zones, and which members notes are given.
use super::E12;
use super::pieces::{At, Call, EXACT, J12, KEY_69, Piece, Registered, Row, check_rows};
use std::test::Fail;

/// One note, on a member; the range of members is 48, where none is asked for, and isn't told then.
const ONE_ZONE: [Row<'static>; 2] = [
    Row {
        call: Call {
            scale: E12,
            words: &["--a440", "--route", "mpe"],
            tracks: &[&[At(0, b"\x90\x45\x40"), At(480, b"\x80\x45\x40")]],
        },
        output: &[&[
            Registered(0, 0, 6, 1),
            At(0, b"\x91\x45\x40"),
            At(480, b"\x81\x45\x40"),
        ]],
        said: &[
            "route mpe",
            KEY_69,
            "notes 1",
            "channels 1",
            "zone lower part 1 need 1 tick 0 position 1",
            "pair 1 0",
            EXACT,
        ],
    },
    Row {
        call: Call {
            scale: E12,
            words: &["--a440", "--route", "mpe", "--range", "24"],
            tracks: &[&[At(0, b"\x92\x45\x40"), At(480, b"\x82\x45\x40")]],
        },
        output: &[&[
            Registered(0, 0, 6, 1),
            Registered(0, 1, 0, 24),
            At(0, b"\x91\x45\x40"),
            At(480, b"\x81\x45\x40"),
        ]],
        said: &[
            "route mpe",
            KEY_69,
            "notes 1",
            "channels 1",
            "zone lower part 3 need 1 tick 0 position 1",
            "pair 3 0",
            EXACT,
        ],
    },
];

/// Nine keys from 60 on of the first channel, and five of the second one, at once.
const TWO_PARTS: [Piece<'static>; 14] = [
    At(0, b"\x90\x3c\x40"),
    At(0, b"\x90\x3d\x40"),
    At(0, b"\x90\x3e\x40"),
    At(0, b"\x90\x3f\x40"),
    At(0, b"\x90\x40\x40"),
    At(0, b"\x90\x41\x40"),
    At(0, b"\x90\x42\x40"),
    At(0, b"\x90\x43\x40"),
    At(0, b"\x90\x44\x40"),
    At(0, b"\x91\x3c\x40"),
    At(0, b"\x91\x3d\x40"),
    At(0, b"\x91\x3e\x40"),
    At(0, b"\x91\x3f\x40"),
    At(0, b"\x91\x40\x40"),
];

/// The part that needs more takes the lower zone. Members count from the master outward.
const TWO_ZONES: Row<'static> = Row {
    call: Call {
        scale: J12,
        words: &["--route", "mpe"],
        tracks: &[&TWO_PARTS],
    },
    output: &[&[
        Registered(0, 0, 6, 9),
        Registered(0, 15, 6, 5),
        At(0, b"\x91\x3c\x40"),
        At(0, b"\xe2\x14\x40"),
        At(0, b"\x92\x3d\x40"),
        At(0, b"\xe3\x07\x40"),
        At(0, b"\x93\x3e\x40"),
        At(0, b"\xe4\x1b\x40"),
        At(0, b"\x94\x3f\x40"),
        At(0, b"\xe5\x69\x3f"),
        At(0, b"\x95\x40\x40"),
        At(0, b"\xe6\x7d\x3f"),
        At(0, b"\x96\x41\x40"),
        At(0, b"\xe7\x6f\x3f"),
        At(0, b"\x97\x42\x40"),
        At(0, b"\xe8\x03\x40"),
        At(0, b"\x98\x43\x40"),
        At(0, b"\xe9\x17\x40"),
        At(0, b"\x99\x44\x40"),
        At(0, b"\x9e\x3c\x40"),
        At(0, b"\xed\x14\x40"),
        At(0, b"\x9d\x3d\x40"),
        At(0, b"\xec\x07\x40"),
        At(0, b"\x9c\x3e\x40"),
        At(0, b"\xeb\x1b\x40"),
        At(0, b"\x9b\x3f\x40"),
        At(0, b"\xea\x69\x3f"),
        At(0, b"\x9a\x40\x40"),
    ]],
    said: &[
        "route mpe",
        "key 60 to 60 bend 0 error -0.001 to 0.001",
        "key 61 to 61 bend 20 error -0.013 to -0.012",
        "key 62 to 62 bend 7 error 0.191 to 0.192",
        "key 63 to 63 bend 27 error 0.179 to 0.180",
        "key 64 to 64 bend -23 error 0.209 to 0.210",
        "key 65 to 65 bend -3 error 0.197 to 0.198",
        "key 66 to 66 bend -17 error -0.185 to -0.184",
        "key 67 to 67 bend 3 error -0.198 to -0.197",
        "key 68 to 68 bend 23 error -0.210 to -0.209",
        "notes 14",
        "channels 14",
        "zone lower part 1 need 9 tick 0 position 9",
        "pair 1 -23",
        "pair 1 -17",
        "pair 1 -3",
        "pair 1 0",
        "pair 1 3",
        "pair 1 7",
        "pair 1 20",
        "pair 1 23",
        "pair 1 27",
        "zone upper part 2 need 5 tick 0 position 14",
        "pair 2 -23",
        "pair 2 0",
        "pair 2 7",
        "pair 2 20",
        "pair 2 27",
        "error -0.210 to 0.210",
    ],
};

/// A note of the drums, a third part's note, and key pressure.
const WITH_DRUMS: &[Piece<'static>] = &[At(0, b"\x99\x24\x40")];

const WITH_A_THIRD: &[Piece<'static>] = &[At(0, b"\x92\x3c\x40")];

const WITH_PRESSURE: &[Piece<'static>] = &[At(0, b"\xa0\x3c\x40")];

#[test]
fn notes_are_on_members(rt: HostRuntime) -> Result<(), Fail> {
    check_rows(&rt, rt.alloc(), &ONE_ZONE)
}

#[test]
fn two_parts_have_a_zone_each(rt: HostRuntime) -> Result<(), Fail> {
    check_rows(&rt, rt.alloc(), &[TWO_ZONES])
}

#[test]
fn zones_are_refused(rt: HostRuntime) -> Result<(), Fail> {
    let rows: [(&[Piece<'_>], &str); 3] = [
        // drums leave eight channels to the lower zone
        (
            WITH_DRUMS,
            "mtune: needs 9 channels of 8 at tick 0 position 9",
        ),
        (WITH_A_THIRD, "mtune: 3 parts on mpe"),
        (
            WITH_PRESSURE,
            "mtune: input event 16 tick 0 track 1 kind 11",
        ),
    ];
    for (more, said) in rows {
        // the second track's events come behind those of the first
        let call = Call {
            scale: J12,
            words: &["--route", "mpe"],
            tracks: &[&TWO_PARTS, more],
        };
        call.is_refused(&rt, rt.alloc(), said)?;
    }
    Ok(())
}
