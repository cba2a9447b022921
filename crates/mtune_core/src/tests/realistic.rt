//! A piece as sequencers write it: a reset, nine tracks, a pedal, a bend and drums, in quarter-comma meantone on bend.
use super::pieces::{At, Call, End, Piece, Row, Setup, check_rows};
use std::test::Fail;

const MEANTONE: &str =
    "! meantone\nquarter comma\n12\n76.04900\n193.15686\n310.26471\n5/4\n503.42157\n\
579.47057\n696.57843\n25/16\n889.73529\n1006.84314\n1082.89214\n2/1\n";

/// The tempo and the reset.
const SOURCE_0: &[Piece<'static>] = &[
    At(0, b"\xff\x51\x03\x07\xa1\x20"),
    At(0, b"\xf0\x05\x7e\x7f\x09\x01\xf7"),
    End(3840),
];

/// A held triad.
const SOURCE_1: &[Piece<'static>] = &[
    At(0, b"\xff\x21\x01\x00"),
    At(0, b"\xc0\x0a"),
    At(0, b"\xb0\x07\x5b"),
    At(0, b"\xb0\x0a\x3d"),
    At(480, b"\xb0\x40\x7f"),
    At(480, b"\x90\x3c\x40"),
    At(480, b"\x90\x40\x40"),
    At(480, b"\x90\x43\x40"),
    At(960, b"\x80\x3c\x40"),
    At(960, b"\x80\x40\x40"),
    At(960, b"\x80\x43\x40"),
    At(1920, b"\xb0\x40\x00"),
    End(3840),
];

/// A bend.
const SOURCE_2: &[Piece<'static>] = &[
    At(0, b"\xff\x21\x01\x00"),
    At(0, b"\xc1\x14"),
    At(0, b"\xb1\x07\x5c"),
    At(0, b"\xb1\x0a\x3e"),
    At(480, b"\x91\x30\x40"),
    At(720, b"\xe1\x00\x50"),
    At(1200, b"\xe1\x00\x40"),
    At(1440, b"\x81\x30\x40"),
    End(3840),
];

const SOURCE_3: &[Piece<'static>] = &[
    At(0, b"\xff\x21\x01\x00"),
    At(0, b"\xc2\x1e"),
    At(0, b"\xb2\x07\x5d"),
    At(0, b"\xb2\x0a\x3f"),
    At(480, b"\x92\x37\x40"),
    At(1440, b"\x82\x37\x40"),
    End(3840),
];

const SOURCE_4: &[Piece<'static>] = &[
    At(0, b"\xff\x21\x01\x00"),
    At(0, b"\xc3\x28"),
    At(0, b"\xb3\x07\x5e"),
    At(0, b"\xb3\x0a\x40"),
    At(480, b"\x93\x48\x40"),
    At(1440, b"\x83\x48\x40"),
    End(3840),
];

const SOURCE_5: &[Piece<'static>] = &[
    At(0, b"\xff\x21\x01\x00"),
    At(0, b"\xc4\x32"),
    At(0, b"\xb4\x07\x5f"),
    At(0, b"\xb4\x0a\x41"),
    At(480, b"\x94\x4c\x40"),
    At(1440, b"\x84\x4c\x40"),
    End(3840),
];

const SOURCE_6: &[Piece<'static>] = &[
    At(0, b"\xff\x21\x01\x00"),
    At(0, b"\xc5\x3c"),
    At(0, b"\xb5\x07\x60"),
    At(0, b"\xb5\x0a\x42"),
    At(480, b"\x95\x4f\x40"),
    At(1440, b"\x85\x4f\x40"),
    End(3840),
];

const SOURCE_7: &[Piece<'static>] = &[
    At(0, b"\xff\x21\x01\x00"),
    At(0, b"\xc6\x46"),
    At(0, b"\xb6\x07\x61"),
    At(0, b"\xb6\x0a\x43"),
    At(480, b"\x96\x24\x40"),
    At(1440, b"\x86\x24\x40"),
    End(3840),
];

/// Drums.
const SOURCE_8: &[Piece<'static>] = &[
    At(480, b"\x99\x24\x40"),
    At(600, b"\x89\x24\x40"),
    End(3840),
];

/// The notes are on channels 1, 2 and 3.
const OUTPUT_1: &[Piece<'static>] = &[
    At(0, b"\xff\x21\x01\x00"),
    At(480, b"\xc0\x0a"),
    At(480, b"\xb0\x07\x5b"),
    At(480, b"\xb0\x0a\x3d"),
    At(480, b"\xb0\x40\x7f"),
    Setup(480, 0),
    At(480, b"\x90\x3c\x40"),
    At(480, b"\xc1\x0a"),
    At(480, b"\xb1\x07\x5b"),
    At(480, b"\xb1\x0a\x3d"),
    At(480, b"\xb1\x40\x7f"),
    Setup(480, 1),
    At(480, b"\xe1\x23\x3f"),
    At(480, b"\x91\x40\x40"),
    At(480, b"\xc2\x0a"),
    At(480, b"\xb2\x07\x5b"),
    At(480, b"\xb2\x0a\x3d"),
    At(480, b"\xb2\x40\x7f"),
    Setup(480, 2),
    At(480, b"\xe2\x69\x3f"),
    At(480, b"\x92\x43\x40"),
    At(960, b"\x80\x3c\x40"),
    At(960, b"\x81\x40\x40"),
    At(960, b"\x82\x43\x40"),
    At(1920, b"\xb0\x40\x00"),
    At(1920, b"\xb1\x40\x00"),
    At(1920, b"\xb2\x40\x00"),
    End(3840),
];

/// The bend is that of the part, at the output's range.
const OUTPUT_2: &[Piece<'static>] = &[
    At(0, b"\xff\x21\x01\x00"),
    At(480, b"\xc3\x14"),
    At(480, b"\xb3\x07\x5c"),
    At(480, b"\xb3\x0a\x3e"),
    Setup(480, 3),
    At(480, b"\x93\x30\x40"),
    At(720, b"\xe3\x55\x42"),
    At(1200, b"\xe3\x00\x40"),
    At(1440, b"\x83\x30\x40"),
    End(3840),
];

const OUTPUT_3: &[Piece<'static>] = &[
    At(0, b"\xff\x21\x01\x00"),
    At(480, b"\xc4\x1e"),
    At(480, b"\xb4\x07\x5d"),
    At(480, b"\xb4\x0a\x3f"),
    Setup(480, 4),
    At(480, b"\xe4\x69\x3f"),
    At(480, b"\x94\x37\x40"),
    At(1440, b"\x84\x37\x40"),
    End(3840),
];

const OUTPUT_4: &[Piece<'static>] = &[
    At(0, b"\xff\x21\x01\x00"),
    At(480, b"\xc5\x28"),
    At(480, b"\xb5\x07\x5e"),
    Setup(480, 5),
    At(480, b"\x95\x48\x40"),
    At(1440, b"\x85\x48\x40"),
    End(3840),
];

const OUTPUT_5: &[Piece<'static>] = &[
    At(0, b"\xff\x21\x01\x00"),
    At(480, b"\xc6\x32"),
    At(480, b"\xb6\x07\x5f"),
    At(480, b"\xb6\x0a\x41"),
    Setup(480, 6),
    At(480, b"\xe6\x23\x3f"),
    At(480, b"\x96\x4c\x40"),
    At(1440, b"\x86\x4c\x40"),
    End(3840),
];

const OUTPUT_6: &[Piece<'static>] = &[
    At(0, b"\xff\x21\x01\x00"),
    At(480, b"\xc7\x3c"),
    At(480, b"\xb7\x07\x60"),
    At(480, b"\xb7\x0a\x42"),
    Setup(480, 7),
    At(480, b"\xe7\x69\x3f"),
    At(480, b"\x97\x4f\x40"),
    At(1440, b"\x87\x4f\x40"),
    End(3840),
];

const OUTPUT_7: &[Piece<'static>] = &[
    At(0, b"\xff\x21\x01\x00"),
    At(480, b"\xc8\x46"),
    At(480, b"\xb8\x07\x61"),
    At(480, b"\xb8\x0a\x43"),
    Setup(480, 8),
    At(480, b"\x98\x24\x40"),
    At(1440, b"\x88\x24\x40"),
    End(3840),
];

const PIECE: Row<'static> = Row {
    call: Call {
        scale: MEANTONE,
        words: &[],
        tracks: &[
            SOURCE_0, SOURCE_1, SOURCE_2, SOURCE_3, SOURCE_4, SOURCE_5, SOURCE_6, SOURCE_7,
            SOURCE_8,
        ],
    },
    output: &[
        SOURCE_0, OUTPUT_1, OUTPUT_2, OUTPUT_3, OUTPUT_4, OUTPUT_5, OUTPUT_6, OUTPUT_7, SOURCE_8,
    ],
    said: &[
        "route bend",
        "key 36 to 36 bend 0 error -0.001 to 0.001",
        "key 48 to 48 bend 0 error -0.001 to 0.001",
        "key 55 to 55 bend -23 error 0.052 to 0.053",
        "key 60 to 60 bend 0 error -0.001 to 0.001",
        "key 64 to 64 bend -93 error 0.063 to 0.064",
        "key 67 to 67 bend -23 error 0.052 to 0.053",
        "key 72 to 72 bend 0 error -0.001 to 0.001",
        "key 76 to 76 bend -93 error 0.063 to 0.064",
        "key 79 to 79 bend -23 error 0.052 to 0.053",
        "notes 9",
        "channels 9",
        "need 9 tick 480 position 40",
        "pair 1 -93",
        "pair 1 -23",
        "pair 1 0",
        "pair 2 0",
        "pair 3 -23",
        "pair 4 0",
        "pair 5 -93",
        "pair 6 -23",
        "pair 7 0",
        "error -0.001 to 0.064",
    ],
};

#[test]
fn a_piece_of_seven_parts_has_nine_channels(rt: HostRuntime) -> Result<(), Fail> {
    check_rows(&rt, rt.alloc(), &[PIECE])
}
