use super::{
    E12, ONE_NOTE, SELECT, blanks, check, check_done, file, has_fault, joined, one_note_output,
};
use crate::{Fault, run};
use kbm_text::KbmKind;
use lifetimes::{SourceFault, SourceKind};
use mtune_files::{MemFiles, Which};
use scl_text::SclKind;
use std::alloc::Global;
use std::process::Abort;
use std::test::Fail;

/// With a mapping by its name.
pub const MAPPED: [&str; 9] = [
    "--scale", "s.scl", "--map", "m.kbm", "--route", "dump", "--out", "out.mid", "in.mid",
];

/// With no mapping.
const STANDARD: [&str; 7] = [
    "--scale", "s.scl", "--route", "dump", "--out", "out.mid", "in.mid",
];

const AT_440: [&str; 8] = [
    "--scale", "s.scl", "--a440", "--route", "dump", "--out", "out.mid", "in.mid",
];

const J12: &str = "j12\n12\n16/15\n9/8\n6/5\n5/4\n4/3\n45/32\n3/2\n8/5\n5/3\n9/5\n15/8\n2/1\n";

/// Twelve entries, of which the second is left out.
pub const GAP: &str = "12\n0\n127\n60\n69\n440.0\n12\n0\nx\n2\n3\n4\n5\n6\n7\n8\n9\n10\n11\n";

pub fn files(alloc: Global, scale: &str, mapping: &str, input: &[u8]) -> Result<MemFiles, Fail> {
    let mut files = MemFiles::new(alloc);
    files.add("s.scl", scale.as_bytes())?;
    files.add("m.kbm", mapping.as_bytes())?;
    files.add("in.mid", input)?;
    Ok(files)
}

#[test]
fn keys_that_are_left_out_are_not_changed(rt: HostRuntime) -> Result<(), Fail> {
    let alloc = rt.alloc();
    let mut files = files(alloc, E12, GAP, &ONE_NOTE)?;
    let outcome = run(alloc, MAPPED.as_slice(), &mut files);
    let mut track = Vec::new(alloc);
    track.extend_from_slice(b"\x00\xf0\x83\x17\x7e\x7f\x08\x01\x00mtune           ")?;
    for key in 0..128u8 {
        let told = if key % 12 == 1 {
            [0x7f; 3]
        } else {
            [key, 0, 0]
        };
        track.extend_from_slice(&told)?;
    }
    track.extend_from_slice(b"\x65\xf7")?;
    track.extend_from_slice(&SELECT)?;
    track.extend_from_slice(&ONE_NOTE[22..])?;
    let output = file(alloc, 0, 1, &[track.as_slice()])?;
    check_done(&rt, &files, outcome, output.as_slice());
    assert!(rt; files.content("m.kbm") == Some(GAP.as_bytes()));
    Ok(())
}

/// What the output's dump tells of a key.
fn told<'a>(files: &'a MemFiles, key: u8) -> &'a [u8] {
    let at = 47 + 3 * key as usize;
    match files.content("out.mid") {
        Some(output) if at + 3 <= output.len() => &output[at..at + 3],
        _ => &[],
    }
}

#[test]
fn each_mapping_has_its_pitches(rt: HostRuntime) -> Result<(), Fail> {
    let alloc = rt.alloc();
    // 5/4 above middle C is 6,386.313714 cents; the octave of key 69; 50 cents above key 69
    let rows: [(&[&str], &str, &str, u8, &[u8]); 5] = [
        (&STANDARD, J12, "", 64, b"\x3f\x6e\x3e"),
        (&AT_440, J12, "", 81, b"\x51\x00\x00"),
        (&AT_440, "two\n2\n50.0\n1200.0\n", "", 70, b"\x45\x40\x00"),
        // the reference key isn't the middle key: a major sixth of 5/3 is at 440 Hz
        (
            &MAPPED,
            J12,
            "0\n0\n127\n60\n69\n440\n12\n",
            60,
            b"\x3c\x14\x03",
        ),
        // keys above the last one keep equal temperament
        (
            &MAPPED,
            J12,
            "0\n0\n59\n60\n69\n440\n12\n",
            64,
            b"\x40\x00\x00",
        ),
    ];
    for (words, scale, mapping, key, wanted) in rows {
        let mut files = files(alloc, scale, mapping, &ONE_NOTE)?;
        let outcome = run(alloc, words, &mut files);
        assert!(rt; outcome.fault.is_none());
        assert!(rt; told(&files, key) == wanted);
    }
    // in twelve equal steps the standard mapping is that at 440 Hz
    let mut files = files(alloc, E12, "", &ONE_NOTE)?;
    let outcome = run(alloc, STANDARD.as_slice(), &mut files);
    assert!(rt; outcome.fault.is_none());
    assert!(rt; files.content("out.mid") == Some(one_note_output(alloc)?.as_slice()));
    Ok(())
}

#[test]
fn each_key_has_its_error(rt: HostRuntime) -> Result<(), Fail> {
    let alloc = rt.alloc();
    // a third of 5/4, which a device can't be told exactly; a pitch between two keys
    let rows: [(&[&str], &str, u8, &str); 2] = [
        (
            &STANDARD,
            J12,
            64,
            "route dump\nkey 64 to 3F 6E 3E error 0.002 to 0.003\nnotes 1\nchannels 1\nerror 0.002 to 0.003\n",
        ),
        (
            &AT_440,
            "two\n2\n50.0\n1200.0\n",
            70,
            "route dump\nkey 70 to 45 40 00 error 0.000 to 0.000\nnotes 1\nchannels 1\nerror 0.000 to 0.000\n",
        ),
    ];
    for (words, scale, key, said) in rows {
        let mut input = ONE_NOTE;
        input[24] = key;
        input[29] = key;
        let mut files = files(alloc, scale, "", &input)?;
        let outcome = run(alloc, words, &mut files);
        assert!(rt; outcome.fault.is_none());
        assert!(rt; files.text() == said.as_bytes());
    }
    Ok(())
}

/// What is said of the keys of a scale of 100 cents, 5/4, 408 cents and a period of -5 cents.
const ODD_SAID: &str =
    "route dump\nkey 69 to 45 00 00 error 0.000 to 0.000\nkey 70 to 46 00 00 error 0.000 to 0.000\n\
key 71 to 48 6E 3E error 0.002 to 0.003\nkey 72 to 49 0A 1F error 0.001 to 0.002\n\
key 73 to 44 79 4D error 0.001 to 0.002\nnotes 5\nchannels 1\nerror 0.000 to 0.003\n";

#[test]
fn comments_and_other_ends_of_lines_are_read(rt: HostRuntime) -> Result<(), Fail> {
    let alloc = rt.alloc();
    let notes = b"\x00\x90\x45\x40\x00\x46\x40\x00\x47\x40\x00\x48\x40\x00\x49\x40\x00\xff\x2f\x00";
    let input = file(alloc, 0, 1, &[notes])?;
    for scale in [
        "! x\ntest\n 4\n100.0 cents\n5/4   E\\\n408.\n-5.0\n",
        "! x\r\ntest\r\n 4\r\n100.0 cents\r\n5/4   E\\\r\n408.\r\n-5.0\r\n",
    ] {
        let mut files = files(alloc, scale, "", input.as_slice())?;
        let outcome = run(alloc, AT_440.as_slice(), &mut files);
        assert!(rt; outcome.fault.is_none());
        assert!(rt; files.text() == ODD_SAID.as_bytes());
    }
    Ok(())
}

/// Checks that a call with a mapping is refused, with what is said of it.
fn check_mapping(
    rt: &impl Abort,
    alloc: Global,
    contents: (&str, &str, &[u8]),
    fault: Fault,
    said: [&str; 2],
) -> Result<(), Fail> {
    let (scale, mapping, input) = contents;
    let mut files = files(alloc, scale, mapping, input)?;
    let outcome = run(alloc, MAPPED.as_slice(), &mut files);
    let line = joined(alloc, &[said[0].as_bytes(), said[1].as_bytes(), b"\n"])?;
    assert_eq!(rt; outcome.status, 2);
    assert!(rt; has_fault(&outcome, &fault));
    assert!(rt; files.text() == line.as_slice());
    assert!(rt; files.content("out.mid").is_none());
    Ok(())
}

/// A note on of key 61 as the first event of a file.
fn unmapped() -> Fault {
    Fault::Source(SourceFault {
        position: 1,
        tick: 0,
        track: 0,
        kind: SourceKind::UnmappedKey,
    })
}

/// Mappings that can't be read, each with the line and the kind that are told.
const BROKEN_MAPPINGS: [(&str, u32, KbmKind, &str); 9] = [
    ("", 1, KbmKind::MissingField, "1 kind 1"),
    (
        "12\n0\n127\n60\n69\n440.0\n",
        7,
        KbmKind::MissingField,
        "7 kind 1",
    ),
    ("! x\ntwelve\n", 2, KbmKind::BadNumber, "2 kind 2"),
    ("4097\n", 1, KbmKind::SizeRange, "1 kind 3"),
    ("0\n128\n", 2, KbmKind::KeyRange, "2 kind 4"),
    ("0\n60\n59\n", 3, KbmKind::KeyRange, "3 kind 4"),
    (
        "0\n0\n127\n60\n69\n0.0\n",
        6,
        KbmKind::BadFrequency,
        "6 kind 5",
    ),
    (
        "1\n0\n127\n60\n69\n440\n12\n! x\n-\n",
        9,
        KbmKind::BadEntry,
        "9 kind 6",
    ),
    (
        "0\n0\n127\n60\n69\n440\n16384\n",
        7,
        KbmKind::DegreeRange,
        "7 kind 7",
    ),
];

#[test]
fn broken_mappings_are_refused(rt: HostRuntime) -> Result<(), Fail> {
    let alloc = rt.alloc();
    for (mapping, line, kind, rest) in BROKEN_MAPPINGS {
        // a broken input isn't looked at
        let fault = Fault::Kbm { line, kind };
        check_mapping(
            &rt,
            alloc,
            (E12, mapping, b""),
            fault,
            ["mtune: map line ", rest],
        )?;
    }
    // a broken scale is answered before
    let (line, kind) = (1, SclKind::NoDescription);
    check_mapping(
        &rt,
        alloc,
        ("", "", b""),
        Fault::Scl { line, kind },
        ["mtune: scale line ", "1 kind 1"],
    )
}

#[test]
fn mappings_that_give_no_table_are_refused(rt: HostRuntime) -> Result<(), Fail> {
    let alloc = rt.alloc();
    // the second entry is that of key 61
    check_mapping(
        &rt,
        alloc,
        (E12, "12\n0\n127\n60\n61\n440.0\n12\n0\nx\n", b""),
        Fault::ReferenceUnmapped { key: 61 },
        ["mtune: reference key 61 is not ", "mapped"],
    )?;
    // key 0 is 6,000 steps below the middle key, and the frequency is a ratio too
    check_mapping(
        &rt,
        alloc,
        (
            "comma\n1\n81/80\n",
            "1\n0\n127\n60\n60\n261.6255653\n100\n0\n",
            b"",
        ),
        Fault::TooManyPeriods { key: 0 },
        ["mtune: key 0 has more than 1700 ", "ratio terms"],
    )?;
    // a note on key 61, which is left out
    let input = file(
        alloc,
        0,
        1,
        &[b"\x00\x90\x3d\x40\x10\x80\x3d\x40\x00\xff\x2f\x00"],
    )?;
    check_mapping(
        &rt,
        alloc,
        (E12, GAP, input.as_slice()),
        unmapped(),
        ["mtune: input event 1 tick 0 track 0 ", "kind 1"],
    )
}

#[test]
fn loads_of_a_mapping_may_fail(rt: HostRuntime) -> Result<(), Fail> {
    let alloc = rt.alloc();
    let mut files = files(alloc, E12, GAP, &ONE_NOTE)?;
    files.fail(2)?;
    let outcome = run(alloc, MAPPED.as_slice(), &mut files);
    let fault = Fault::Load { which: Which::Map };
    let said = "mtune: cannot load map\n";
    check(&rt, &files, outcome, Some(fault), 3, said, None);
    assert_eq!(rt; [files.count(0), files.count(1), files.count(2)], [0, 1, 0]);
    files.add("m.kbm", blanks(alloc, 262_145)?.as_slice())?;
    let outcome = run(alloc, MAPPED.as_slice(), &mut files);
    let fault = Fault::TooLong { which: Which::Map };
    let said = "mtune: cannot load map\nmtune: too long map\n";
    check(&rt, &files, outcome, Some(fault), 2, said, None);
    Ok(())
}
