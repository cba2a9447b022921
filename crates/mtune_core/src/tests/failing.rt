use super::mapped::{GAP, MAPPED, files};
use super::{E12, ONE_NOTE, WORDS, check, files as one_note_files, one_note_output};
use crate::{Fault, run};
use mtune_files::{MemFiles, Which};
use std::alloc::Global;
use std::process::Abort;
use std::test::Fail;

fn load(which: Which) -> Fault {
    Fault::Load { which }
}

/// The counts of failed loads of the scale, of the mapping and of the input, of stores, of says.
fn counts(files: &MemFiles) -> [u64; 5] {
    [
        files.count(0),
        files.count(1),
        files.count(2),
        files.count(3),
        files.count(4),
    ]
}

/// Which calls fail, each after so many bytes; the fault, what is said, what is held at the output's
/// name, and the counts.
type Case<'a> = (&'a [(u32, u32)], Fault, &'a str, &'a [u8], [u64; 5]);

/// The calls load the scale, the mapping and the input, store, and say; where one fails, the next
/// says the line of the fault.
fn check_failing(rt: &impl Abort, alloc: Global, case: Case<'_>) -> Result<(), Fail> {
    let (calls, fault, said, held, counted) = case;
    let mut files = files(alloc, E12, GAP, &ONE_NOTE)?;
    files.add("out.mid", b"old")?;
    for (call, bytes) in calls {
        files.fail_after(*call, *bytes)?;
    }
    let outcome = run(alloc, MAPPED.as_slice(), &mut files);
    check(rt, &files, outcome, Some(fault), 3, said, Some(held));
    assert_eq!(rt; counts(&files), counted);
    Ok(())
}

#[test]
fn loads_that_fail(rt: HostRuntime) -> Result<(), Fail> {
    let scale = "mtune: cannot load scale\n";
    let map = "mtune: cannot load map\n";
    let input = "mtune: cannot load input\n";
    let cases: [Case<'_>; 5] = [
        (
            &[(1, 0)],
            load(Which::Scale),
            scale,
            b"old",
            [1, 0, 0, 0, 0],
        ),
        (
            &[(1, 9), (2, 0)],
            load(Which::Scale),
            "",
            b"old",
            [1, 0, 0, 0, 1],
        ),
        (&[(2, 0)], load(Which::Map), map, b"old", [0, 1, 0, 0, 0]),
        (
            &[(3, 0)],
            load(Which::Input),
            input,
            b"old",
            [0, 0, 1, 0, 0],
        ),
        (
            &[(3, 0), (4, 5)],
            load(Which::Input),
            "mtune",
            b"old",
            [0, 0, 1, 0, 1],
        ),
    ];
    for case in cases {
        check_failing(&rt, rt.alloc(), case)?;
    }
    Ok(())
}

#[test]
fn stores_and_says_that_fail(rt: HostRuntime) -> Result<(), Fail> {
    let mut done = files(rt.alloc(), E12, GAP, &ONE_NOTE)?;
    let outcome = run(rt.alloc(), MAPPED.as_slice(), &mut done);
    assert!(rt; outcome.fault.is_none());
    let whole = done.content("out.mid").unwrap_or(b"");
    let front = if whole.len() < 10 {
        whole
    } else {
        &whole[..10]
    };
    let store = "mtune: cannot store\n";
    // a failed store leaves the first bytes; nothing is said after a report that failed
    let cases: [Case<'_>; 5] = [
        (&[(4, 0)], Fault::Store, store, b"", [0, 0, 0, 1, 0]),
        (&[(4, 10)], Fault::Store, store, front, [0, 0, 0, 1, 0]),
        (
            &[(4, 462), (5, 0)],
            Fault::Store,
            "",
            whole,
            [0, 0, 0, 1, 1],
        ),
        (&[(5, 0), (6, 9)], Fault::Say, "", whole, [0, 0, 0, 0, 1]),
        (&[(5, 3)], Fault::Say, "rou", whole, [0, 0, 0, 0, 1]),
    ];
    for case in cases {
        check_failing(&rt, rt.alloc(), case)?;
    }
    Ok(())
}

#[test]
fn names_that_nothing_is_held_under(rt: HostRuntime) -> Result<(), Fail> {
    let alloc = rt.alloc();
    let mut files = MemFiles::new(alloc);
    let outcome = run(alloc, WORDS.as_slice(), &mut files);
    let fault = load(Which::Scale);
    let said = "mtune: cannot load scale\n";
    check(&rt, &files, outcome, Some(fault), 3, said, None);
    files.add("e12.scl", E12.as_bytes())?;
    let outcome = run(alloc, WORDS.as_slice(), &mut files);
    let fault = load(Which::Input);
    let said = "mtune: cannot load scale\nmtune: cannot load input\n";
    check(&rt, &files, outcome, Some(fault), 3, said, None);
    assert_eq!(rt; counts(&files), [1, 0, 1, 0, 0]);
    Ok(())
}

// The calls load the scale and the input, store and say.
#[test]
fn failing_store_leaves_nothing(rt: HostRuntime) -> Result<(), Fail> {
    let alloc = rt.alloc();
    let mut files = one_note_files(alloc, E12, &ONE_NOTE)?;
    files.fail(3)?;
    let outcome = run(alloc, WORDS.as_slice(), &mut files);
    let said = "mtune: cannot store\n";
    check(&rt, &files, outcome, Some(Fault::Store), 3, said, Some(b""));
    Ok(())
}

#[test]
fn output_is_kept_where_its_report_fails(rt: HostRuntime) -> Result<(), Fail> {
    let alloc = rt.alloc();
    let mut files = one_note_files(alloc, E12, &ONE_NOTE)?;
    files.fail(4)?;
    let outcome = run(alloc, WORDS.as_slice(), &mut files);
    let output = one_note_output(alloc)?;
    let held = Some(output.as_slice());
    check(&rt, &files, outcome, Some(Fault::Say), 3, "", held);
    Ok(())
}
