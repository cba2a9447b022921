use super::*;
use kbm_text::Mapping;
use key_pitch::{Aim, Aims, KeyTable};
use scl_text::read_scl;
use std::alloc::Global;
use std::test::Fail;

/// What a list is read as.
#[derive(Clone, Copy)]
enum Wanted {
    Changes(&'static [(u32, &'static [u8])]),
    At(u32, u8),
}

fn are(changes: &[(u32, &str)], wanted: &[(u32, &[u8])]) -> bool {
    if changes.len() != wanted.len() {
        return false;
    }
    for (change, other) in changes.iter().zip(wanted) {
        if change.0 != other.0 || change.1.as_bytes() != other.1 {
            return false;
        }
    }
    true
}

fn agrees(answer: &Result<Vec<(u32, &str)>, ListFault>, wanted: &Wanted) -> bool {
    match (answer, wanted) {
        (Ok(changes), Wanted::Changes(others)) => are(changes.as_slice(), others),
        (Err(ListFault::At { line, kind }), Wanted::At(at, number)) => {
            *line == *at && kind.number() == *number
        }
        _ => false,
    }
}

/// The answer to a text that isn't too long.
fn read(alloc: Global, text: &[u8]) -> Result<Vec<(u32, &str)>, ListFault> {
    if text.len() > 262_144 {
        return Err(ListFault::Memory);
    }
    read_list(alloc, text)
}

const SIXTEEN: &[u8] =
    b"1 a\n2 a\n3 a\n4 a\n5 a\n6 a\n7 a\n8 a\n9 a\n10 a\n11 a\n12 a\n13 a\n14 a\n15 a\n16 a\n";

/// Texts, and what each is read as.
const LISTS: [(&[u8], Wanted); 25] = [
    (b"480 j12.scl", Wanted::Changes(&[(480, b"j12.scl")])),
    // the same tick twice
    (b"480 a\n480 b\n", Wanted::At(2, 2)),
    (b"480 a\n479 b\n", Wanted::At(2, 2)),
    (
        b"480 a\n481 b\n",
        Wanted::Changes(&[(480, b"a"), (481, b"b")]),
    ),
    // nothing, comments, lines of blanks alone
    (b"", Wanted::Changes(&[])),
    (b"! none\n\n \t\n", Wanted::Changes(&[])),
    (
        b"! x\r\n\r\n\t 007 \t!scale~ \t\r\n \r\n8\tb\r\n",
        Wanted::Changes(&[(7, b"!scale~"), (8, b"b")]),
    ),
    // ticks
    (b"x", Wanted::At(1, 1)),
    (b"-1 a", Wanted::At(1, 1)),
    (b"! x\n\n0 a", Wanted::At(3, 1)),
    (b"268435456 a", Wanted::At(1, 1)),
    (b"99999999999999999999 a", Wanted::At(1, 1)),
    (b"268435455 a", Wanted::Changes(&[(268_435_455, b"a")])),
    // names
    (b"1", Wanted::At(1, 3)),
    (b"1 ", Wanted::At(1, 3)),
    (b"1a", Wanted::At(1, 3)),
    (b"1 a b", Wanted::At(1, 3)),
    (b"1 \x7f", Wanted::At(1, 3)),
    (b"1 a\xc3\xa9", Wanted::At(1, 3)),
    (b"1 a\x00", Wanted::At(1, 3)),
    // several kinds on one line
    (b"5 a\n0", Wanted::At(2, 1)),
    (b"5 a\n5", Wanted::At(2, 2)),
    (b"5 a\n6\n", Wanted::At(2, 3)),
    (b"1 a\n! no change\n2", Wanted::At(3, 3)),
    (b"1 a\n1 b\nx", Wanted::At(2, 2)),
];

#[test]
fn reads_each_list(rt: HostRuntime) -> Result<(), Fail> {
    for (text, wanted) in LISTS.iter() {
        assert!(rt; agrees(&read(rt.alloc(), text), wanted));
    }
    Ok(())
}

#[test]
fn takes_sixteen_lines(rt: HostRuntime) -> Result<(), Fail> {
    let mut text = Vec::from_slice(rt.alloc(), SIXTEEN)?;
    match read(rt.alloc(), text.as_slice()) {
        Ok(changes) => assert_eq!(rt; changes.len(), 16),
        Err(_) => assert!(rt; false),
    }
    // blanks and comments behind them are skipped, any other line is one too many
    text.extend_from_slice(b"! more\n\n")?;
    assert!(rt; read(rt.alloc(), text.as_slice()).is_ok());
    text.extend_from_slice(b"x")?;
    assert!(rt; agrees(&read(rt.alloc(), text.as_slice()), &Wanted::At(19, 4)));
    Ok(())
}

fn table(alloc: Global, text: &[u8]) -> Option<KeyTable> {
    if text.len() > 262_144 {
        return None;
    }
    let scale = read_scl(alloc, text).ok()?;
    KeyTable::new(&scale, &Mapping::a440(alloc)).ok()
}

/// What tables tell of key 70 for a note that begins at a tick.
fn told<T: Aims>(tables: &T, tick: u32) -> (Aim, Aim) {
    (tables.mts_aim(70, tick), tables.bend_aim(70, 12, tick))
}

/// Semitones from the start, steps of 110 cents from tick 480 on, octaves from 960 on.
fn told_by_changes(alloc: Global, tick: u32) -> Option<[(Aim, Aim); 2]> {
    let first = table(alloc, b"semitones\n1\n100.0\n")?;
    let second = table(alloc, b"wider\n1\n110.0\n")?;
    let third = table(alloc, b"octaves\n1\n2/1\n")?;
    let mut changes = Changes::new(alloc, first).ok()?;
    if changes.push(480, second).is_err() || changes.push(960, third).is_err() {
        return None;
    }
    Some([told(&changes, tick), told(&&changes, tick)])
}

#[test]
fn tells_by_the_last_table_that_has_begun(rt: HostRuntime) -> Result<(), Fail> {
    let plain = (
        Aim::Mts { value: 1_146_880 },
        Aim::Bend { key: 70, steps: 0 },
    );
    let wider = (
        Aim::Mts { value: 1_148_518 },
        Aim::Bend { key: 70, steps: 68 },
    );
    let octave = (
        Aim::Mts { value: 1_327_104 },
        Aim::Bend { key: 81, steps: 0 },
    );
    for (tick, wanted) in [
        (0, plain),
        (479, plain),
        (480, wider),
        (959, wider),
        (960, octave),
        (268_435_455, octave),
    ] {
        assert!(rt; told_by_changes(rt.alloc(), tick) == Some([wanted, wanted]));
    }
    Ok(())
}
