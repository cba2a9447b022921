use super::sources::{
    CHORD, CHORD_PAIRS, DOUBLED, EQUAL, FOLLOWED, JUST, MEANTONE, REALISTIC, RESET,
};
use super::*;
use Said::{Meta, Off, On, Press, Program, Sysex, Turn as Controller};
use lifetimes::SourceKind;

/// A port: its need, the position and the tick of the instant, and the pairs then, by channel from 1.
type Need = (u8, u32, u32, u32, &'static [(u8, i32)]);

/// A zone: its port, its place, its part from 1, whether it is the upper one, and its need.
type ZoneOf = (u8, usize, u8, bool, u32);

#[derive(Clone, Copy, Debug)]
enum Answer {
    /// The channels of the notes, from 1.
    Given(&'static [u8], &'static [Need], &'static [ZoneOf]),
    /// The need and the allowed number, and the port with its instant and pairs.
    Needs(u32, Need),
    Crowded(u8, u8),
    /// The position and the kind.
    Fails(u32, SourceKind),
}

use Answer::{Crowded, Fails, Given, Needs};

struct Case {
    name: &'static str,
    scale: &'static [u8],
    a440: bool,
    options: Options,
    layout: Layout,
    turns: &'static [Turn],
    answer: Answer,
}

const CASES: [Case; 19] = [
    Case {
        name: "a chord of three pairs",
        scale: JUST,
        a440: false,
        options: BEND,
        layout: ALL,
        turns: CHORD,
        answer: Given(&[1, 2, 3], &[(0, 3, 3, 0, CHORD_PAIRS)], &[]),
    },
    Case {
        name: "a chord on two channels",
        scale: JUST,
        a440: false,
        options: BEND,
        layout: Layout::Bend { allowed: 0x0003 },
        turns: CHORD,
        answer: Needs(2, (0, 3, 3, 0, CHORD_PAIRS)),
    },
    Case {
        name: "a chord on channels 3, 5 and 6",
        scale: JUST,
        a440: false,
        options: BEND,
        layout: Layout::Bend { allowed: 0x0034 },
        turns: CHORD,
        answer: Given(&[3, 5, 6], &[(0, 3, 3, 0, CHORD_PAIRS)], &[]),
    },
    Case {
        name: "a chord on no channel",
        scale: JUST,
        a440: false,
        options: BEND,
        layout: Layout::Bend { allowed: 0 },
        turns: CHORD,
        answer: Needs(0, (0, 3, 3, 0, &[(1, -93)])),
    },
    Case {
        name: "two keys of one pair",
        scale: JUST,
        a440: false,
        options: BEND,
        layout: ALL,
        turns: &[(0, 0, On(0, 60)), (0, 0, On(0, 72))],
        answer: Given(&[1, 1], &[(0, 1, 1, 0, &[(1, 0)])], &[]),
    },
    Case {
        name: "two parts of one bend",
        scale: EQUAL,
        a440: true,
        options: BEND,
        layout: ALL,
        turns: &[(0, 0, On(0, 69)), (0, 0, On(1, 69))],
        answer: Given(&[1, 2], &[(0, 2, 2, 0, &[(1, 0), (2, 0)])], &[]),
    },
    Case {
        name: "a pedal holds a channel",
        scale: EQUAL,
        a440: true,
        options: BEND,
        layout: ALL,
        turns: &[
            (0, 0, Controller(0, 64, 127)),
            (0, 0, On(0, 69)),
            (480, 0, Off(0, 69)),
            (480, 0, On(1, 69)),
            (720, 0, Off(1, 69)),
            (960, 0, Controller(0, 64, 0)),
            (960, 0, On(1, 71)),
            (1440, 0, Off(1, 71)),
        ],
        answer: Given(&[1, 2, 2], &[(0, 2, 4, 480, &[(1, 0), (2, 0)])], &[]),
    },
    Case {
        name: "two keys with one target",
        scale: DOUBLED,
        a440: true,
        options: BEND,
        layout: ALL,
        turns: &[(0, 0, On(0, 69)), (0, 0, On(0, 70))],
        answer: Fails(2, SourceKind::Unison),
    },
    Case {
        name: "one channel for two parts in turn",
        scale: EQUAL,
        a440: true,
        options: BEND,
        layout: Layout::Bend { allowed: 0x0001 },
        turns: &[
            (0, 0, Program(0, 5)),
            (0, 0, Controller(0, 7, 80)),
            (0, 0, On(0, 69)),
            (480, 0, Off(0, 69)),
            (480, 0, On(1, 69)),
            (960, 0, Off(1, 69)),
        ],
        answer: Given(&[1, 1], &[(0, 1, 3, 0, &[(1, 0)])], &[]),
    },
    Case {
        name: "a reset ends a run",
        scale: EQUAL,
        a440: true,
        options: BEND,
        layout: ALL,
        turns: &[
            (0, 0, On(0, 69)),
            (480, 0, Sysex(RESET)),
            (960, 0, On(0, 69)),
            (1440, 0, Off(0, 69)),
        ],
        answer: Given(&[1, 1], &[(0, 1, 1, 0, &[(1, 0)])], &[]),
    },
    Case {
        name: "a part comes back to the channel that has its state",
        scale: EQUAL,
        a440: true,
        options: BEND,
        layout: ALL,
        turns: &[
            (0, 0, Program(0, 5)),
            (0, 0, On(0, 69)),
            (0, 0, On(1, 69)),
            (480, 0, Off(0, 69)),
            (480, 0, Off(1, 69)),
            (480, 0, On(1, 71)),
            (960, 0, Off(1, 71)),
        ],
        answer: Given(&[1, 2, 2], &[(0, 2, 3, 0, &[(1, 0), (2, 0)])], &[]),
    },
    Case {
        name: "without a tail",
        scale: EQUAL,
        a440: true,
        options: BEND,
        layout: ALL,
        turns: FOLLOWED,
        answer: Given(&[1, 1], &[(0, 1, 1, 0, &[(1, 0)])], &[]),
    },
    Case {
        name: "with a tail of a tick",
        scale: EQUAL,
        a440: true,
        options: Options { tail: 1, ..BEND },
        layout: ALL,
        turns: FOLLOWED,
        answer: Given(&[1, 2], &[(0, 2, 3, 480, &[(1, 0), (2, 0)])], &[]),
    },
    Case {
        name: "a rest that has run out",
        scale: EQUAL,
        a440: true,
        options: Options { tail: 1, ..BEND },
        layout: ALL,
        turns: &[
            (0, 0, On(0, 69)),
            (480, 0, Off(0, 69)),
            (481, 0, On(1, 69)),
            (960, 0, Off(1, 69)),
        ],
        answer: Given(&[1, 1], &[(0, 1, 1, 0, &[(1, 0)])], &[]),
    },
    Case {
        name: "two ports",
        scale: EQUAL,
        a440: true,
        options: BEND,
        layout: ALL,
        turns: &[
            (0, 0, Meta(0x21, b"\x00")),
            (0, 0, On(0, 69)),
            (0, 1, Meta(0x21, b"\x01")),
            (0, 1, On(0, 69)),
            (480, 0, Off(0, 69)),
            (480, 1, Off(0, 69)),
        ],
        answer: Given(
            &[1, 1],
            &[(0, 1, 2, 0, &[(1, 0)]), (1, 1, 4, 0, &[(1, 0)])],
            &[],
        ),
    },
    Case {
        name: "five ports",
        scale: EQUAL,
        a440: true,
        options: BEND,
        layout: ALL,
        turns: &[
            (0, 0, Meta(0x21, b"\x00")),
            (0, 0, On(0, 69)),
            (0, 1, Meta(0x21, b"\x01")),
            (0, 1, On(0, 69)),
            (0, 2, Meta(0x21, b"\x02")),
            (0, 2, On(0, 69)),
            (0, 3, Meta(0x21, b"\x03")),
            (0, 3, On(0, 69)),
            (0, 4, Meta(0x21, b"\x04")),
            (0, 4, On(0, 69)),
        ],
        answer: Fails(10, SourceKind::Port),
    },
    Case {
        name: "key pressure on MPE",
        scale: EQUAL,
        a440: true,
        options: MPE,
        layout: Layout::Mpe,
        turns: &[(0, 0, On(0, 69)), (0, 0, Press(0, 69, 5))],
        answer: Fails(2, SourceKind::PolyInMpe),
    },
    Case {
        name: "three parts on MPE",
        scale: EQUAL,
        a440: true,
        options: MPE,
        layout: Layout::Mpe,
        turns: &[(0, 0, On(0, 69)), (0, 0, On(1, 69)), (0, 0, On(2, 69))],
        answer: Crowded(0, 3),
    },
    Case {
        name: "a realistic file",
        scale: MEANTONE,
        a440: false,
        options: BEND,
        layout: ALL,
        turns: REALISTIC,
        answer: Given(
            &[1, 2, 3, 4, 5, 6, 7, 8, 9],
            &[(
                0,
                9,
                40,
                480,
                &[
                    (1, -93),
                    (1, -23),
                    (1, 0),
                    (2, 0),
                    (3, -23),
                    (4, 0),
                    (5, -93),
                    (6, -23),
                    (7, 0),
                ],
            )],
            &[],
        ),
    },
];

fn are_needs(plan: &Plan, needs: &[Need]) -> bool {
    needs.iter().all(|&(port, need, position, tick, pairs)| {
        plan.need(port) == need
            && plan.instant(port).position == position
            && plan.instant(port).tick == tick
            && are_pairs(plan.witness(port), port, pairs)
    })
}

fn are_zones(plan: &Plan, zones: &[ZoneOf]) -> bool {
    zones.iter().all(|&(port, place, part, upper, need)| match plan.zone(port, place) {
        Some(zone) => {
            zone.port == port
                && zone.part.number() + 1 == part
                && zone.upper == upper
                && zone.need == need
                && plan.zone_pairs(port, place).len() == need as usize
        }
        None => false,
    })
}

/// Whether a plan is answered as wanted.
fn agrees(res: &Result<Plan, PlanFault>, wanted: Answer) -> bool {
    match (res, wanted) {
        (Ok(plan), Given(channels, needs, zones)) => {
            are_given(plan, channels) && are_needs(plan, needs) && are_zones(plan, zones)
        }
        (Err(PlanFault::TooManyChannels(fault)), Needs(allowed, need)) => {
            fault.allowed == allowed
                && fault.port == need.0
                && fault.need == need.1
                && fault.instant.position == need.2
                && fault.instant.tick == need.3
                && are_pairs(fault.pairs.as_slice(), need.0, need.4)
        }
        (Err(PlanFault::TooManyParts { port, parts }), Crowded(at, count)) => {
            *port == at && *parts == count
        }
        (Err(PlanFault::Source(fault)), Fails(position, kind)) => {
            fault.position == position && fault.kind == kind
        }
        _ => false,
    }
}

fn holds(alloc: Global, case: &Case) -> bool {
    match table(alloc, case.scale, case.a440) {
        Some(table) => agrees(
            &planned(alloc, table, case.options, case.layout, case.turns),
            case.answer,
        ),
        None => false,
    }
}

#[test]
fn plans_as_the_table_says(rt: HostRuntime) -> Result<(), Fail> {
    for case in CASES.iter() {
        assert!(rt; holds(rt.alloc(), case), "{}", case.name);
    }
    Ok(())
}
