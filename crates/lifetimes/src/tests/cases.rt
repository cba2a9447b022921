use super::*;
use Answer::{Begins, Ends, Fails};
use Said::{Meta, Off, On, Press, Sysex, Turn as Controller, Wheel};
use kbm_text::{Mapping, read_kbm};
use key_pitch::TablesByTick;
use scl_text::read_scl;

const EQUAL: &[u8] =
    b"equal\n12\n100.0\n200.0\n300.0\n400.0\n500.0\n600.0\n700.0\n800.0\n900.0\n1000.0\n1100.0\n1200.0\n";

/// Each second key has the pitch of the one before it.
const DOUBLED: &[u8] = b"doubled\n2\n0.0\n1200.0\n";

const WIDER: &[u8] = b"wider\n1\n110.0\n";

/// Key 61 has no pitch.
const HOLED: &[u8] = b"12\n0\n127\n60\n69\n440.0\n12\n0\nx\n2\n3\n4\n5\n6\n7\n8\n9\n10\n11\n";

/// General MIDI on.
const RESET: &[u8] = b"\x7e\x7f\x09\x01\xf7";

/// A list of events, by the scale and what is asked for.
struct Case {
    name: &'static str,
    scale: &'static [u8],
    options: Options,
    turns: &'static [Turn],
}

const BEND: Options = Options {
    route: Route::Bend,
    range: 12,
    keep_drums: true,
    program: 0,
    tail: 0,
};

const NARROW: Options = Options { range: 1, ..BEND };

const LIVE: Options = Options {
    route: Route::Live,
    ..BEND
};

const MPE: Options = Options {
    route: Route::Mpe,
    ..BEND
};

const CASES: [Case; 14] = [
    Case {
        name: "the sostenuto pedal keeps one key of two",
        scale: EQUAL,
        options: LIVE,
        turns: &[
            (0, 0, On(0, 69), Begins(1, 0, &[])),
            (240, 0, Controller(0, 66, 127), Ends(&[])),
            (480, 0, Off(0, 69), Ends(&[])),
            (480, 0, On(0, 71), Begins(2, 0, &[])),
            (960, 0, Off(0, 71), Ends(&[(0, 71)])),
            (1440, 0, Controller(0, 66, 0), Ends(&[(0, 69)])),
        ],
    },
    Case {
        name: "data entry and modes",
        scale: EQUAL,
        options: BEND,
        turns: &[
            (0, 0, Controller(0, 126, 0), Fails(SourceKind::ModeMessage)),
            (0, 0, Controller(0, 96, 0), Fails(SourceKind::DataStep)),
            (0, 0, Controller(0, 101, 0), Ends(&[])),
            (0, 0, Controller(0, 100, 6), Ends(&[])),
            (0, 0, Controller(0, 6, 1), Fails(SourceKind::MpeSource)),
            (0, 0, Controller(0, 100, 3), Ends(&[])),
            (0, 0, Controller(0, 6, 1), Fails(SourceKind::TuningInSource)),
            (
                0,
                0,
                Sysex(b"\x7f\x00\x08\x02\x00\x00\xf7"),
                Fails(SourceKind::TuningInSource),
            ),
            (0, 0, Controller(9, 126, 0), Ends(&[])),
        ],
    },
    Case {
        name: "a port at first",
        scale: EQUAL,
        options: BEND,
        turns: &[
            (0, 0, Meta(0x21, b"\x01"), Ends(&[])),
            (0, 0, On(0, 69), Begins(1, 0, &[])),
        ],
    },
    Case {
        name: "another port later",
        scale: EQUAL,
        options: BEND,
        turns: &[
            (0, 0, Meta(0x21, b"\x00"), Ends(&[])),
            (0, 0, Meta(0x21, b"\x01"), Fails(SourceKind::Port)),
        ],
    },
    Case {
        name: "a fifth port",
        scale: EQUAL,
        options: BEND,
        turns: &[
            (0, 0, Meta(0x21, b"\x00"), Ends(&[])),
            (0, 0, On(0, 69), Begins(1, 0, &[])),
            (0, 1, Meta(0x21, b"\x01"), Ends(&[])),
            (0, 1, On(0, 69), Begins(2, 0, &[])),
            (0, 2, Meta(0x21, b"\x02"), Ends(&[])),
            (0, 2, On(0, 69), Begins(3, 0, &[])),
            (0, 3, Meta(0x21, b"\x03"), Ends(&[])),
            (0, 3, On(0, 69), Begins(4, 0, &[])),
            (0, 4, Meta(0x21, b"\x04"), Ends(&[])),
            (0, 4, On(0, 69), Fails(SourceKind::Port)),
            (480, 3, Off(0, 69), Ends(&[(0, 69)])),
        ],
    },
    Case {
        name: "the hold pedal, and a key that is struck again",
        scale: EQUAL,
        options: BEND,
        turns: &[
            (0, 0, Controller(0, 64, 127), Ends(&[])),
            (0, 0, On(0, 69), Begins(1, 0, &[])),
            (480, 0, Off(0, 69), Ends(&[])),
            (480, 0, On(1, 69), Begins(2, 0, &[])),
            (600, 0, On(0, 69), Begins(3, 0, &[(0, 69)])),
            (720, 0, Off(1, 69), Ends(&[(1, 69)])),
            (960, 0, Off(0, 69), Ends(&[])),
            (960, 0, Controller(0, 64, 0), Ends(&[(0, 69)])),
        ],
    },
    Case {
        name: "two keys with one target",
        scale: DOUBLED,
        options: BEND,
        turns: &[
            (0, 0, On(0, 69), Begins(1, 0, &[])),
            (0, 0, On(0, 70), Fails(SourceKind::Unison)),
            (0, 0, On(0, 69), Begins(2, 0, &[(0, 69)])),
            (0, 0, On(1, 70), Begins(3, 0, &[])),
        ],
    },
    Case {
        name: "a bend that goes too far",
        scale: EQUAL,
        options: NARROW,
        turns: &[
            (0, 0, Wheel(0, 12288), Ends(&[])),
            (
                0,
                0,
                On(0, 69),
                Fails(SourceKind::BendTooFar {
                    steps: 0,
                    moved: 8192,
                }),
            ),
            (0, 0, Wheel(0, 12287), Ends(&[])),
            (0, 0, On(0, 69), Begins(1, 0, &[])),
            (
                0,
                0,
                Wheel(0, 12288),
                Fails(SourceKind::BendTooFar {
                    steps: 0,
                    moved: 8192,
                }),
            ),
        ],
    },
    Case {
        name: "a reset",
        scale: EQUAL,
        options: BEND,
        turns: &[
            (0, 0, On(0, 69), Begins(1, 0, &[])),
            (480, 0, Sysex(RESET), Ends(&[(0, 69)])),
            (960, 0, On(0, 69), Begins(2, 0, &[])),
            (1440, 0, Off(0, 69), Ends(&[(0, 69)])),
        ],
    },
    Case {
        name: "kept drums",
        scale: EQUAL,
        options: BEND,
        turns: &[
            (0, 0, On(9, 36), Ends(&[])),
            (0, 0, On(9, 36), Ends(&[])),
            (96, 0, Off(9, 36), Ends(&[])),
        ],
    },
    Case {
        name: "key pressure on MPE",
        scale: EQUAL,
        options: MPE,
        turns: &[
            (0, 0, Press(9, 60, 1), Ends(&[])),
            (0, 0, Press(0, 60, 1), Fails(SourceKind::PolyInMpe)),
        ],
    },
    Case {
        name: "a pair that rests",
        scale: EQUAL,
        options: Options {
            tail: 100,
            ..NARROW
        },
        turns: &[
            (0, 0, On(0, 69), Begins(1, 0, &[])),
            (480, 0, Off(0, 69), Ends(&[(0, 69)])),
            (
                490,
                0,
                Wheel(0, 12288),
                Fails(SourceKind::BendTooFar {
                    steps: 0,
                    moved: 8192,
                }),
            ),
            (
                579,
                0,
                Wheel(0, 12288),
                Fails(SourceKind::BendTooFar {
                    steps: 0,
                    moved: 8192,
                }),
            ),
            (580, 0, Wheel(0, 12288), Ends(&[])),
        ],
    },
    Case {
        name: "a pair whose rest is over",
        scale: EQUAL,
        options: Options { tail: 10, ..NARROW },
        turns: &[
            (0, 0, On(0, 69), Begins(1, 0, &[])),
            (480, 0, Off(0, 69), Ends(&[(0, 69)])),
            (490, 0, Wheel(0, 12288), Ends(&[])),
        ],
    },
    Case {
        name: "a rest that a reset ends",
        scale: EQUAL,
        options: Options {
            tail: 1000,
            ..NARROW
        },
        turns: &[
            (0, 0, On(0, 69), Begins(1, 0, &[])),
            (480, 0, Off(0, 69), Ends(&[(0, 69)])),
            (490, 0, Sysex(RESET), Ends(&[])),
            (490, 0, Wheel(0, 12288), Ends(&[])),
        ],
    },
];

pub fn table(alloc: Global, scale: &[u8], mapping: &[u8]) -> Option<KeyTable> {
    if scale.len() > 262_144 || mapping.len() > 262_144 {
        return None;
    }
    let scale = read_scl(alloc, scale).ok()?;
    let mapping = if mapping.is_empty() {
        Mapping::a440(alloc)
    } else {
        read_kbm(alloc, mapping).ok()?
    };
    KeyTable::new(&scale, &mapping).ok()
}

/// Whether each event is answered as its turn says, also once more after a restart.
fn are_answered<T: Aims + Drop>(alloc: Global, table: T, options: Options, turns: &[Turn]) -> bool {
    if !may_ask(options) {
        return false;
    }
    let mut parts = Parts::new(alloc, table, options);
    let other = first_other(&mut parts, turns);
    parts.restart();
    other == 0 && first_other(&mut parts, turns) == 0
}

fn holds(alloc: Global, case: &Case) -> bool {
    match table(alloc, case.scale, b"") {
        Some(table) => are_answered(alloc, table, case.options, case.turns),
        None => false,
    }
}

#[test]
fn answers_as_the_table_says(rt: HostRuntime) -> Result<(), Fail> {
    for case in CASES.iter() {
        assert!(rt; holds(rt.alloc(), case), "{}", case.name);
    }
    Ok(())
}

/// Whether the seventeenth parameter is one too many.
fn takes_sixteen(alloc: Global) -> bool {
    let Some(table) = table(alloc, EQUAL, b"") else {
        return false;
    };
    let mut parts = Parts::new(alloc, table, BEND);
    let mut found = first_other(&mut parts, &[(0, 0, Controller(0, 99, 1), Ends(&[]))]);
    for low in 0..17u8 {
        let entry = if low < 16 {
            Ends(&[])
        } else {
            Fails(SourceKind::TooManyParameters)
        };
        let turns = [
            (0, 0, Controller(0, 98, low), Ends(&[])),
            (0, 0, Controller(0, 6, 1), entry),
        ];
        found |= first_other(&mut parts, &turns);
    }
    found == 0
}

/// Whether a key without a pitch isn't taken, and a key that sounds with another target.
fn asks_for_targets(alloc: Global) -> bool {
    let tables = (
        table(alloc, EQUAL, HOLED),
        table(alloc, EQUAL, b""),
        table(alloc, WIDER, b""),
    );
    let (Some(holed), Some(equal), Some(wider)) = tables else {
        return false;
    };
    let unmapped = [(0, 0, On(0, 61), Fails(SourceKind::UnmappedKey))];
    let changed = [
        (0, 0, On(0, 70), Begins(1, 0, &[])),
        (480, 0, On(0, 70), Fails(SourceKind::Restrike)),
        (480, 0, On(0, 69), Begins(2, 0, &[])),
        (480, 0, Off(0, 70), Ends(&[(0, 70)])),
        (480, 0, On(0, 70), Begins(3, 68, &[])),
    ];
    let entries = [(0, equal), (480, wider)];
    are_answered(alloc, holed, BEND, &unmapped)
        && are_answered(alloc, TablesByTick::new(&entries), BEND, &changed)
}

#[test]
fn asks_for_targets_and_room(rt: HostRuntime) -> Result<(), Fail> {
    assert!(rt; takes_sixteen(rt.alloc()));
    assert!(rt; asks_for_targets(rt.alloc()));
    Ok(())
}
