use super::{
    E12, ONE_NOTE, SAID, SELECT, WORDS, check, check_done, dump_event, file, files, has_fault,
    joined, one_note_output,
};
use crate::{Fault, run};
use lifetimes::{SourceFault, SourceKind};
use std::test::Fail;

#[test]
fn one_note_is_dumped(rt: HostRuntime) -> Result<(), Fail> {
    let alloc = rt.alloc();
    let mut files = files(alloc, E12, &ONE_NOTE)?;
    let outcome = run(alloc, WORDS.as_slice(), &mut files);
    let output = one_note_output(alloc)?;
    assert_eq!(rt; output.len(), 462);
    check_done(&rt, &files, outcome, output.as_slice());
    Ok(())
}

#[test]
fn setup_stands_before_the_first_message(rt: HostRuntime) -> Result<(), Fail> {
    let alloc = rt.alloc();
    // a tempo of 500,000 microseconds
    let tempo: [u8; 11] = [
        0x00, 0xff, 0x51, 0x03, 0x07, 0xa1, 0x20, 0x00, 0xff, 0x2f, 0x00,
    ];
    // key 69 on the second channel from tick 96 to 576, less the first delta
    let note: [u8; 12] = [
        0x91, 0x45, 0x40, 0x83, 0x60, 0x81, 0x45, 0x40, 0x00, 0xff, 0x2f, 0x00,
    ];
    let second = joined(alloc, &[&[0x60], &note])?;
    let input = file(alloc, 1, 2, &[&tempo, second.as_slice()])?;
    let mut files = files(alloc, E12, input.as_slice())?;
    let outcome = run(alloc, WORDS.as_slice(), &mut files);
    // the dump at tick 96, the program on the second channel, the note
    let dump = dump_event(alloc, 0x60)?;
    let track = joined(
        alloc,
        &[dump.as_slice(), &[0x00, 0xb1], &SELECT[2..], &[0x00], &note],
    )?;
    let output = file(alloc, 1, 2, &[&tempo, track.as_slice()])?;
    assert_eq!(rt; output.len(), 481);
    check_done(&rt, &files, outcome, output.as_slice());
    Ok(())
}

/// The keys 60 to 77 in steps of a just fifth, with key 69 as it is: 69 + (key - 69) * 12 * log2(3/2)
/// semitones, to the nearest 1/16384. The next fifths below and above lie beyond a device.
const FIFTHS: [u8; 54] = [
    0x05, 0x69, 0x3d, 0x0c, 0x6b, 0x7e, 0x13, 0x6e, 0x3e, 0x1a, 0x70, 0x7e, 0x21, 0x73, 0x3e, 0x28,
    0x75, 0x7f, 0x2f, 0x78, 0x3f, 0x36, 0x7a, 0x7f, 0x3d, 0x7d, 0x40, 0x45, 0x00, 0x00, 0x4c, 0x02,
    0x40, 0x53, 0x05, 0x01, 0x5a, 0x07, 0x41, 0x61, 0x0a, 0x01, 0x68, 0x0c, 0x42, 0x6f, 0x0f, 0x02,
    0x76, 0x11, 0x42, 0x7d, 0x14, 0x02,
];

#[test]
fn fifths_are_dumped(rt: HostRuntime) -> Result<(), Fail> {
    let alloc = rt.alloc();
    let mut files = files(alloc, "fifths\n1\n3/2\n", &ONE_NOTE)?;
    let outcome = run(alloc, WORDS.as_slice(), &mut files);
    let mut track = Vec::new(alloc);
    track.extend_from_slice(b"\x00\xf0\x83\x17\x7e\x7f\x08\x01\x00mtune           ")?;
    // no change
    for _ in 0..60u8 {
        track.extend_from_slice(&[0x7f; 3])?;
    }
    track.extend_from_slice(&FIFTHS)?;
    for _ in 78..128u8 {
        track.extend_from_slice(&[0x7f; 3])?;
    }
    track.extend_from_slice(b"\x25\xf7")?;
    track.extend_from_slice(&SELECT)?;
    track.extend_from_slice(&ONE_NOTE[22..])?;
    let output = file(alloc, 0, 1, &[track.as_slice()])?;
    check_done(&rt, &files, outcome, output.as_slice());
    Ok(())
}

#[test]
fn output_takes_the_place_of_the_input(rt: HostRuntime) -> Result<(), Fail> {
    let alloc = rt.alloc();
    let mut files = files(alloc, E12, &ONE_NOTE)?;
    let words = [
        "--scale", "e12.scl", "--a440", "--route", "dump", "--out", "in.mid", "in.mid",
    ];
    let outcome = run(alloc, words.as_slice(), &mut files);
    check(&rt, &files, outcome, None, 0, SAID, None);
    let output = one_note_output(alloc)?;
    assert!(rt; files.content("in.mid") == Some(output.as_slice()));
    // an output isn't taken as an input: it tells a tuning
    let outcome = run(alloc, words.as_slice(), &mut files);
    let fault = Fault::Source(SourceFault {
        position: 1,
        tick: 0,
        track: 0,
        kind: SourceKind::TuningInSource,
    });
    let line = b"mtune: input event 1 tick 0 track 0 kind 7\n";
    let said = joined(alloc, &[SAID.as_bytes(), line])?;
    assert_eq!(rt; outcome.status, 2);
    assert!(rt; has_fault(&outcome, &fault));
    assert!(rt; files.text() == said.as_slice());
    assert!(rt; files.content("in.mid") == Some(output.as_slice()));
    Ok(())
}
