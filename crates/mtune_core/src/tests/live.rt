use super::{E12, ONE_NOTE, SELECT, check, dump_event, file, files, joined};
use crate::run;
use std::test::Fail;

/// With the live route.
const LIVE: [&str; 8] = [
    "--scale", "e12.scl", "--a440", "--route", "live", "--out", "out.mid", "in.mid",
];

/// A device is told that key 69 is at 6,900 cents.
const CHANGE: [u8; 14] = [
    0x00, 0xf0, 0x0b, 0x7f, 0x7f, 0x08, 0x02, 0x00, 0x01, 0x45, 0x45, 0x00, 0x00, 0xf7,
];

/// A track of a port with a note of key 69 on the first channel, from tick 0 to 480.
pub fn note_of_port(port: u8) -> [u8; 18] {
    let mut track = [0; 18];
    track[..5].copy_from_slice(&[0x00, 0xff, 0x21, 0x01, port]);
    track[5..].copy_from_slice(&ONE_NOTE[22..]);
    track
}

#[test]
fn each_port_has_its_setup(rt: HostRuntime) -> Result<(), Fail> {
    let alloc = rt.alloc();
    let first = note_of_port(0);
    let second = note_of_port(1);
    let input = file(alloc, 1, 2, &[&first, &second])?;
    let mut files = files(alloc, E12, input.as_slice())?;
    let outcome = run(alloc, LIVE.as_slice(), &mut files);
    let told = joined(alloc, &[&SELECT, &CHANGE])?;
    let one = joined(alloc, &[&first[..5], told.as_slice(), &first[5..]])?;
    let two = joined(alloc, &[&second[..5], told.as_slice(), &second[5..]])?;
    let output = file(alloc, 1, 2, &[one.as_slice(), two.as_slice()])?;
    let said =
        "route live\nkey 69 to 45 00 00 error 0.000 to 0.000\nnotes 2\nchannels 2\nerror 0.000 to 0.000\n";
    check(&rt, &files, outcome, None, 0, said, Some(output.as_slice()));
    // and the same with a dump
    let words = [
        "--scale", "e12.scl", "--a440", "--route", "dump", "--out", "dump.mid", "in.mid",
    ];
    let outcome = run(alloc, words.as_slice(), &mut files);
    assert!(rt; outcome.fault.is_none());
    let told = joined(alloc, &[dump_event(alloc, 0)?.as_slice(), &SELECT])?;
    let one = joined(alloc, &[&first[..5], told.as_slice(), &first[5..]])?;
    let two = joined(alloc, &[&second[..5], told.as_slice(), &second[5..]])?;
    let output = file(alloc, 1, 2, &[one.as_slice(), two.as_slice()])?;
    assert!(rt; files.content("dump.mid") == Some(output.as_slice()));
    Ok(())
}

#[test]
fn drums_are_retuned_and_programs_are_set(rt: HostRuntime) -> Result<(), Fail> {
    let alloc = rt.alloc();
    // key 69 on the tenth channel
    let note: [u8; 13] = [
        0x00, 0x99, 0x45, 0x40, 0x83, 0x60, 0x89, 0x45, 0x40, 0x00, 0xff, 0x2f, 0x00,
    ];
    let input = file(alloc, 0, 1, &[&note])?;
    let mut files = files(alloc, E12, input.as_slice())?;
    let words = [
        "--scale",
        "e12.scl",
        "--a440",
        "--route",
        "live",
        "--drums",
        "retune",
        "--program",
        "127",
        "--out",
        "out.mid",
        "in.mid",
    ];
    let outcome = run(alloc, words.as_slice(), &mut files);
    let mut select = SELECT;
    select[1] = 0xb9;
    select[9] = 0x7f;
    let mut change = CHANGE;
    change[7] = 0x7f;
    let track = joined(alloc, &[&select, &change, &note])?;
    let output = file(alloc, 0, 1, &[track.as_slice()])?;
    let said =
        "route live\nkey 69 to 45 00 00 error 0.000 to 0.000\nnotes 1\nchannels 1\nerror 0.000 to 0.000\n";
    check(&rt, &files, outcome, None, 0, said, Some(output.as_slice()));
    Ok(())
}
