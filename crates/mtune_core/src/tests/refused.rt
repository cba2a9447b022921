use super::{E12, ONE_NOTE, WORDS, blanks, check, check_refused, file, files, has_fault};
use crate::{Fault, run};
use lifetimes::{SourceFault, SourceKind};
use midi_model::SmfKind;
use mtune_files::Which;
use scl_text::SclKind;
use std::test::Fail;

#[test]
fn no_words_are_refused(rt: HostRuntime) -> Result<(), Fail> {
    let alloc = rt.alloc();
    let mut files = files(alloc, E12, &ONE_NOTE)?;
    let outcome = run(alloc, &[], &mut files);
    check(
        &rt,
        &files,
        outcome,
        Some(Fault::Usage { kind: 1 }),
        1,
        "mtune: usage 1\n",
        None,
    );
    assert_eq!(rt; files.count(0), 0);
    Ok(())
}

/// Words that are refused, each with the kind that is told.
const WRONG_WORDS: [(&[&str], u8); 9] = [
    // no input
    (&["--scale", "e12.scl", "--out", "out.mid"], 1),
    // one word more
    (
        &["--scale", "e12.scl", "--out", "out.mid", "in.mid", "x"],
        1,
    ),
    // an option in place of a mapping's name
    (
        &["--scale", "e12.scl", "--map", "--out", "out.mid", "in.mid"],
        1,
    ),
    // a program that is too great
    (
        &[
            "--scale",
            "e12.scl",
            "--route=dump",
            "--program=128",
            "--out",
            "out.mid",
            "in.mid",
        ],
        1,
    ),
    // another route; drums that are neither kept nor retuned; a channel before the first
    (
        &[
            "--scale", "e12.scl", "--route", "loud", "--out", "out.mid", "in.mid",
        ],
        2,
    ),
    (
        &[
            "--scale", "e12.scl", "--drums", "mute", "--out", "out.mid", "in.mid",
        ],
        2,
    ),
    (
        &[
            "--scale",
            "e12.scl",
            "--channels",
            "0",
            "--out",
            "out.mid",
            "in.mid",
        ],
        2,
    ),
    // a range where nothing is bent; two mappings
    (
        &[
            "--scale", "e12.scl", "--route", "dump", "--range", "12", "--out", "out.mid", "in.mid",
        ],
        3,
    ),
    (
        &[
            "--scale", "e12.scl", "--map", "m.kbm", "--a440", "--out", "out.mid", "in.mid",
        ],
        3,
    ),
];

#[test]
fn wrong_words_are_refused(rt: HostRuntime) -> Result<(), Fail> {
    let alloc = rt.alloc();
    for (words, kind) in WRONG_WORDS {
        let fault = Fault::Usage { kind };
        let number = match kind {
            1 => "1",
            2 => "2",
            _ => "3",
        };
        let line = ["mtune: usage ", number];
        check_refused(&rt, alloc, E12, &ONE_NOTE, words, fault, 1, line)?;
    }
    Ok(())
}

#[test]
fn broken_scales_are_refused(rt: HostRuntime) -> Result<(), Fail> {
    let cases: [(&str, u32, SclKind, &str); 6] = [
        ("", 1, SclKind::NoDescription, "1 kind 1"),
        (
            "! x\ntest\n 4\n100.0 cents\n5/4   E\\\n408.\n-5\n",
            7,
            SclKind::NegativeRatio,
            "7 kind 6",
        ),
        (
            "! x\ntest\n 4\n100.0 cents\n5/4   E\\\n408.\n",
            7,
            SclKind::MissingPitch,
            "7 kind 9",
        ),
        ("x\n2\n100.0\nnine\n", 4, SclKind::BadPitch, "4 kind 5"),
        // comments count as lines
        ("! x\nx\n1\n3/0\n", 4, SclKind::ZeroRatio, "4 kind 7"),
        ("x\n2\n100.0\n", 4, SclKind::MissingPitch, "4 kind 9"),
    ];
    let alloc = rt.alloc();
    for (scale, line, kind, rest) in cases {
        let fault = Fault::Scl { line, kind };
        let line = ["mtune: scale line ", rest];
        check_refused(&rt, alloc, scale, &ONE_NOTE, &WORDS, fault, 2, line)?;
    }
    Ok(())
}

#[test]
fn contents_of_a_byte_too_many_are_refused(rt: HostRuntime) -> Result<(), Fail> {
    let alloc = rt.alloc();
    let long = blanks(alloc, 4_194_305)?;
    let mut files = files(alloc, E12, long.as_slice())?;
    let outcome = run(alloc, WORDS.as_slice(), &mut files);
    let fault = Fault::TooLong {
        which: Which::Input,
    };
    let said = "mtune: too long input\n";
    check(&rt, &files, outcome, Some(fault), 2, said, None);
    files.add("e12.scl", blanks(alloc, 262_145)?.as_slice())?;
    let outcome = run(alloc, WORDS.as_slice(), &mut files);
    let fault = Fault::TooLong {
        which: Which::Scale,
    };
    let said = "mtune: too long input\nmtune: too long scale\n";
    check(&rt, &files, outcome, Some(fault), 2, said, None);
    // a content at the limit is read: a description and no count
    files.add("e12.scl", blanks(alloc, 262_144)?.as_slice())?;
    let outcome = run(alloc, WORDS.as_slice(), &mut files);
    let kind = SclKind::NoCount;
    assert!(rt; has_fault(&outcome, &Fault::Scl { line: 2, kind }));
    Ok(())
}

#[test]
fn cut_inputs_are_refused(rt: HostRuntime) -> Result<(), Fail> {
    let cases: [(&[u8], u32, SmfKind, &str); 5] = [
        // before the first byte
        (&[], 0, SmfKind::NotMidi, "0 kind 1"),
        // in the word that begins a file
        (&ONE_NOTE[..3], 0, SmfKind::NotMidi, "0 kind 1"),
        // in the header
        (&ONE_NOTE[..11], 11, SmfKind::Truncated, "11 kind 5"),
        // before the track's content
        (&ONE_NOTE[..18], 14, SmfKind::MissingTrack, "14 kind 6"),
        // in the track's content
        (&ONE_NOTE[..28], 28, SmfKind::Truncated, "28 kind 5"),
    ];
    let alloc = rt.alloc();
    for (input, offset, kind, rest) in cases {
        let fault = Fault::Smf { offset, kind };
        let line = ["mtune: input byte ", rest];
        check_refused(&rt, alloc, E12, input, &WORDS, fault, 2, line)?;
    }
    Ok(())
}

#[test]
fn broken_tracks_are_refused(rt: HostRuntime) -> Result<(), Fail> {
    let cases: [(&[u8], u32, SmfKind, &str); 4] = [
        (b"\x81\x82\x83\x84\x05", 25, SmfKind::BadDelta, "25 kind 7"),
        // running status that a meta event cut
        (
            b"\x00\x90\x45\x40\x00\xff\x01\x00\x00\x45\x00\x00\xff\x2f\x00",
            31,
            SmfKind::NoStatus,
            "31 kind 8",
        ),
        (b"\x00\xf0\x05\x7e\x7f", 27, SmfKind::Truncated, "27 kind 5"),
        (
            b"\x01\xff\x01\x00\xff\xff\xff\x7f\xff\x2f\x00",
            26,
            SmfKind::TrackTooLong,
            "26 kind 12",
        ),
    ];
    let alloc = rt.alloc();
    for (content, offset, kind, rest) in cases {
        let input = file(alloc, 0, 1, &[content])?;
        let fault = Fault::Smf { offset, kind };
        let line = ["mtune: input byte ", rest];
        check_refused(&rt, alloc, E12, input.as_slice(), &WORDS, fault, 2, line)?;
    }
    Ok(())
}

#[test]
fn formats_above_1_are_refused(rt: HostRuntime) -> Result<(), Fail> {
    let cases: [(u8, SmfKind, &str); 2] = [
        (2, SmfKind::Format2, "8 kind 3"),
        (3, SmfKind::FormatNumber, "8 kind 4"),
    ];
    let alloc = rt.alloc();
    for (format, kind, rest) in cases {
        let input = file(alloc, format, 1, &[b"\x00\xff\x2f\x00"])?;
        let fault = Fault::Smf { offset: 8, kind };
        let line = ["mtune: input byte ", rest];
        check_refused(&rt, alloc, E12, input.as_slice(), &WORDS, fault, 2, line)?;
    }
    Ok(())
}

/// A fault of an event of the first track, at tick 0.
fn at_event(position: u32, kind: SourceKind) -> Fault {
    Fault::Source(SourceFault {
        position,
        tick: 0,
        track: 0,
        kind,
    })
}

/// What a source may not hold: the selection of the tuning program; of the number of members; data increment; mono; a port
/// behind another; a key beyond the device. Each with the position and the kind that are told.
const NOT_IN_A_SOURCE: [(&[u8], u32, SourceKind, &str); 6] = [
    (
        b"\x00\xb0\x65\x00\x00\x64\x03\x00\x06\x01\x00\xff\x2f\x00",
        3,
        SourceKind::TuningInSource,
        "3 tick 0 track 0 kind 7",
    ),
    (
        b"\x00\xb0\x65\x00\x00\x64\x06\x00\x06\x01\x00\xff\x2f\x00",
        3,
        SourceKind::MpeSource,
        "3 tick 0 track 0 kind 8",
    ),
    (
        b"\x00\xb0\x60\x01\x00\xff\x2f\x00",
        1,
        SourceKind::DataStep,
        "1 tick 0 track 0 kind 6",
    ),
    (
        b"\x00\xb0\x7e\x01\x00\xff\x2f\x00",
        1,
        SourceKind::ModeMessage,
        "1 tick 0 track 0 kind 5",
    ),
    (
        b"\x00\xff\x21\x01\x00\x00\xff\x21\x01\x01\x00\xff\x2f\x00",
        2,
        SourceKind::Port,
        "2 tick 0 track 0 kind 9",
    ),
    // key 69 is at 6,900 cents, so in steps of an octave key 63 is 300 cents below the device's lowest pitch
    (
        b"\x00\x90\x3f\x40\x10\x80\x3f\x40\x00\xff\x2f\x00",
        1,
        SourceKind::KeyOutOfDevice,
        "1 tick 0 track 0 kind 2",
    ),
];

#[test]
fn what_a_source_may_not_hold_is_refused(rt: HostRuntime) -> Result<(), Fail> {
    let alloc = rt.alloc();
    for (content, position, kind, rest) in NOT_IN_A_SOURCE {
        let input = file(alloc, 0, 1, &[content])?;
        let fault = at_event(position, kind);
        let line = ["mtune: input event ", rest];
        let octaves = "octaves\n1\n1200.0\n";
        check_refused(
            &rt,
            alloc,
            octaves,
            input.as_slice(),
            &WORDS,
            fault,
            2,
            line,
        )?;
    }
    Ok(())
}

#[test]
fn fifth_ports_are_refused(rt: HostRuntime) -> Result<(), Fail> {
    let alloc = rt.alloc();
    let tracks: [[u8; 18]; 5] = [0, 1, 2, 3, 4].map(super::live::note_of_port);
    let [a, b, c, d, e] = &tracks;
    let input = file(alloc, 1, 5, &[a, b, c, d, e])?;
    let fault = Fault::Source(SourceFault {
        position: 10,
        tick: 0,
        track: 4,
        kind: SourceKind::Port,
    });
    let line = ["mtune: input event ", "10 tick 0 track 4 kind 9"];
    check_refused(&rt, alloc, E12, input.as_slice(), &WORDS, fault, 2, line)
}
