mod audited;
mod bent;
mod dumped;
mod failing;
mod held;
mod kinds;
mod live;
mod mapped;
mod pieces;
mod ported;
mod realistic;
mod refused;
mod reset;
mod routed;
mod sampled;
mod unchanged;
mod zoned;

use crate::lines::line_of;
use crate::{Fault, Outcome, run};
use mtune_files::MemFiles;
use std::alloc::Global;
use std::process::Abort;
use std::test::Fail;

const E12: &str =
    "e12\n12\n100.0\n200.0\n300.0\n400.0\n500.0\n600.0\n700.0\n800.0\n900.0\n1000.0\n1100.0\n1200.0\n";

/// One note of key 69 on the first channel, from tick 0 to 480.
const ONE_NOTE: [u8; 35] = [
    0x4d, 0x54, 0x68, 0x64, 0x00, 0x00, 0x00, 0x06, 0x00, 0x00, 0x00, 0x01, 0x01, 0xe0, 0x4d, 0x54,
    0x72, 0x6b, 0x00, 0x00, 0x00, 0x0d, 0x00, 0x90, 0x45, 0x40, 0x83, 0x60, 0x80, 0x45, 0x40, 0x00,
    0xff, 0x2f, 0x00,
];

/// What is said of one note of key 69 in twelve equal steps.
const SAID: &str =
    "route dump\nkey 69 to 45 00 00 error 0.000 to 0.000\nnotes 1\nchannels 1\nerror 0.000 to 0.000\n";

const WORDS: [&str; 8] = [
    "--scale", "e12.scl", "--a440", "--route", "dump", "--out", "out.mid", "in.mid",
];

fn files(alloc: Global, scale: &str, input: &[u8]) -> Result<MemFiles, Fail> {
    let mut files = MemFiles::new(alloc);
    files.add("e12.scl", scale.as_bytes())?;
    files.add("in.mid", input)?;
    Ok(files)
}

/// A header chunk with a division of 480, and a track chunk of each content.
fn file(alloc: Global, format: u8, tracks: u8, contents: &[&[u8]]) -> Result<Vec<u8>, Fail> {
    file_divided(alloc, format, tracks, [0x01, 0xe0], contents)
}

/// A header chunk, and a track chunk of each content.
fn file_divided(
    alloc: Global,
    format: u8,
    tracks: u8,
    division: [u8; 2],
    contents: &[&[u8]],
) -> Result<Vec<u8>, Fail> {
    let mut bytes = Vec::new(alloc);
    bytes.extend_from_slice(b"MThd\x00\x00\x00\x06\x00")?;
    bytes.push(format)?;
    bytes.push(0)?;
    bytes.push(tracks)?;
    bytes.extend_from_slice(&division)?;
    for content in contents {
        push_chunk(&mut bytes, content)?;
    }
    Ok(bytes)
}

/// Appends a track chunk, of fewer than 65,536 bytes.
fn push_chunk(bytes: &mut Vec<u8>, content: &[u8]) -> Result<(), Fail> {
    bytes.extend_from_slice(b"MTrk\x00\x00")?;
    bytes.push((content.len() / 256 % 256) as u8)?;
    bytes.push((content.len() % 256) as u8)?;
    bytes.extend_from_slice(content)?;
    Ok(())
}

/// The dump of twelve equal steps, as an event of a track behind a delta.
fn dump_event(alloc: Global, delta: u8) -> Result<Vec<u8>, Fail> {
    let mut bytes = Vec::new(alloc);
    bytes.push(delta)?;
    bytes.extend_from_slice(b"\xf0\x83\x17\x7e\x7f\x08\x01\x00mtune           ")?;
    for key in 0..128u8 {
        bytes.extend_from_slice(&[key, 0, 0])?;
    }
    bytes.extend_from_slice(b"\x4f\xf7")?;
    Ok(bytes)
}

/// The first message of a track and its running status: the program on the first channel.
const SELECT: [u8; 16] = [
    0x00, 0xb0, 0x65, 0x00, 0x00, 0x64, 0x03, 0x00, 0x06, 0x00, 0x00, 0x65, 0x7f, 0x00, 0x64, 0x7f,
];

fn joined(alloc: Global, parts: &[&[u8]]) -> Result<Vec<u8>, Fail> {
    let mut bytes = Vec::new(alloc);
    for part in parts {
        bytes.extend_from_slice(part)?;
    }
    Ok(bytes)
}

/// So many bytes, all of them blanks.
fn blanks(alloc: Global, count: u32) -> Result<Vec<u8>, Fail> {
    let mut bytes = Vec::new(alloc);
    for _ in 0..count / 256 {
        bytes.extend_from_slice(&[b' '; 256])?;
    }
    for _ in 0..count % 256 {
        bytes.push(b' ')?;
    }
    Ok(bytes)
}

/// What `ONE_NOTE` becomes with twelve equal steps.
fn one_note_output(alloc: Global) -> Result<Vec<u8>, Fail> {
    let track = joined(
        alloc,
        &[dump_event(alloc, 0)?.as_slice(), &SELECT, &ONE_NOTE[22..]],
    )?;
    file(alloc, 0, 1, &[track.as_slice()])
}

/// Whether an outcome has a fault of which the same is said.
fn has_fault(outcome: &Outcome, fault: &Fault) -> bool {
    match &outcome.fault {
        None => false,
        Some(found) => line_of(found).as_str() == line_of(fault).as_str(),
    }
}

/// Checks an outcome, what was said, and what is held at the output's name.
fn check(
    rt: &impl Abort,
    files: &MemFiles,
    outcome: Outcome,
    fault: Option<Fault>,
    status: u8,
    said: &str,
    held: Option<&[u8]>,
) {
    assert_eq!(rt; outcome.status, status);
    match fault {
        None => assert!(rt; outcome.fault.is_none()),
        Some(fault) => assert!(rt; has_fault(&outcome, &fault)),
    }
    assert!(rt; files.text() == said.as_bytes());
    assert!(rt; files.content("out.mid") == held);
}

/// Checks that an output of one note was stored.
fn check_done(rt: &impl Abort, files: &MemFiles, outcome: Outcome, output: &[u8]) {
    check(rt, files, outcome, None, 0, SAID, Some(output));
}

/// Checks that a call is refused, and that no name has another content after it.
fn check_refused(
    rt: &impl Abort,
    alloc: Global,
    scale: &str,
    input: &[u8],
    words: &[&str],
    fault: Fault,
    status: u8,
    line: [&str; 2],
) -> Result<(), Fail> {
    let mut files = files(alloc, scale, input)?;
    let outcome = run(alloc, words, &mut files);
    assert_eq!(rt; outcome.status, status);
    assert!(rt; has_fault(&outcome, &fault));
    let said = joined(alloc, &[line[0].as_bytes(), line[1].as_bytes(), b"\n"])?;
    assert!(rt; files.text() == said.as_slice());
    assert!(rt; files.content("out.mid").is_none());
    assert!(rt; files.content("e12.scl") == Some(scale.as_bytes()));
    assert!(rt; files.content("in.mid") == Some(input));
    Ok(())
}
