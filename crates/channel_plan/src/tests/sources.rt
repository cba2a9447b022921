//! Scales and sources of the tests.

use super::*;
use Said::{Meta, Off, On, Program, Sysex, Turn as Controller, Wheel};

pub const EQUAL: &[u8] =
    b"equal\n12\n100.0\n200.0\n300.0\n400.0\n500.0\n600.0\n700.0\n800.0\n900.0\n1000.0\n1100.0\n1200.0\n";

pub const JUST: &[u8] =
    b"just\n12\n16/15\n9/8\n6/5\n5/4\n4/3\n45/32\n3/2\n8/5\n5/3\n9/5\n15/8\n2/1\n";

/// Each second key has the pitch of the one before it.
pub const DOUBLED: &[u8] = b"doubled\n2\n0.0\n1200.0\n";

/// Quarter-comma meantone.
pub const MEANTONE: &[u8] =
    b"quarter comma\n12\n76.04900\n193.15686\n310.26471\n5/4\n503.42157\n579.47057\n696.57843\n25/16\n889.73529\n1006.84314\n1082.89214\n2/1\n";

/// General MIDI on.
pub const RESET: &[u8] = b"\x7e\x7f\x09\x01\xf7";

pub const CHORD: &[Turn] = &[
    (0, 0, On(0, 60)),
    (0, 0, On(0, 64)),
    (0, 0, On(0, 67)),
    (480, 0, Off(0, 60)),
    (480, 0, Off(0, 64)),
    (480, 0, Off(0, 67)),
];

pub const CHORD_PAIRS: &[(u8, i32)] = &[(1, -93), (1, 0), (1, 13)];

pub const REALISTIC: &[Turn] = &[
    (0, 0, Meta(0x51, b"\x07\xa1\x20")),
    (0, 0, Sysex(RESET)),
    (0, 1, Meta(0x21, b"\x00")),
    (0, 1, Program(0, 10)),
    (0, 1, Controller(0, 7, 91)),
    (0, 1, Controller(0, 10, 61)),
    (0, 2, Meta(0x21, b"\x00")),
    (0, 2, Program(1, 20)),
    (0, 2, Controller(1, 7, 92)),
    (0, 2, Controller(1, 10, 62)),
    (0, 3, Meta(0x21, b"\x00")),
    (0, 3, Program(2, 30)),
    (0, 3, Controller(2, 7, 93)),
    (0, 3, Controller(2, 10, 63)),
    (0, 4, Meta(0x21, b"\x00")),
    (0, 4, Program(3, 40)),
    (0, 4, Controller(3, 7, 94)),
    (0, 4, Controller(3, 10, 64)),
    (0, 5, Meta(0x21, b"\x00")),
    (0, 5, Program(4, 50)),
    (0, 5, Controller(4, 7, 95)),
    (0, 5, Controller(4, 10, 65)),
    (0, 6, Meta(0x21, b"\x00")),
    (0, 6, Program(5, 60)),
    (0, 6, Controller(5, 7, 96)),
    (0, 6, Controller(5, 10, 66)),
    (0, 7, Meta(0x21, b"\x00")),
    (0, 7, Program(6, 70)),
    (0, 7, Controller(6, 7, 97)),
    (0, 7, Controller(6, 10, 67)),
    (480, 1, Controller(0, 64, 127)),
    (480, 1, On(0, 60)),
    (480, 1, On(0, 64)),
    (480, 1, On(0, 67)),
    (480, 2, On(1, 48)),
    (480, 3, On(2, 55)),
    (480, 4, On(3, 72)),
    (480, 5, On(4, 76)),
    (480, 6, On(5, 79)),
    (480, 7, On(6, 36)),
    (480, 8, On(9, 36)),
    (600, 8, Off(9, 36)),
    (720, 2, Wheel(1, 10240)),
    (960, 1, Off(0, 60)),
    (960, 1, Off(0, 64)),
    (960, 1, Off(0, 67)),
    (1200, 2, Wheel(1, 8192)),
    (1440, 2, Off(1, 48)),
    (1440, 3, Off(2, 55)),
    (1440, 4, Off(3, 72)),
    (1440, 5, Off(4, 76)),
    (1440, 6, Off(5, 79)),
    (1440, 7, Off(6, 36)),
    (1920, 1, Controller(0, 64, 0)),
];

/// Part 2 follows part 1, on the same key.
pub const FOLLOWED: &[Turn] = &[
    (0, 0, On(0, 69)),
    (480, 0, Off(0, 69)),
    (480, 0, On(1, 69)),
    (960, 0, Off(1, 69)),
];
