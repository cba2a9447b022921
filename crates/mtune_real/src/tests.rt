use crate::real::RealFiles;
use mtune_core::run;
use mtune_files::{Files, LoadFault, MemFiles, Which};
use std::alloc::Global;
use std::fs;
use std::process::Abort;
use std::test::Fail;

const WORDS: [&str; 8] = [
    "--scale",
    "equal.scl",
    "--a440",
    "--route",
    "dump",
    "--out",
    "out.mid",
    "in.mid",
];

/// Each step is 100 cents, so each key keeps its pitch.
const EQUAL: &str = "equal\n1\n100.0\n";

/// How many bytes stand before the content of the first track.
const HEADER: usize = 22;

/// The dump, and the selection of its program on one channel.
const SETUP: usize = 427;

/// A file of one track, and what stands behind it.
fn file(alloc: Global, track: &[u8], behind: &[u8]) -> Result<Vec<u8>, Fail> {
    let mut bytes = Vec::new(alloc);
    bytes.extend_from_slice(b"MThd\x00\x00\x00\x06\x00\x00\x00\x01\x01\xe0MTrk")?;
    bytes.extend_from_slice(&u32::try_from(track.len())?.to_be_bytes())?;
    bytes.extend_from_slice(track)?;
    bytes.extend_from_slice(behind)?;
    Ok(bytes)
}

/// A track of so many notes of one key on the first channel, each a tick long.
fn notes(alloc: Global, count: u32) -> Result<Vec<u8>, Fail> {
    let mut track = Vec::new(alloc);
    track.extend_from_slice(b"\x00\x90\x45\x40\x01\x45\x00")?;
    for _ in 1..count {
        track.extend_from_slice(b"\x00\x45\x40\x01\x45\x00")?;
    }
    track.extend_from_slice(b"\x00\xff\x2f\x00")?;
    Ok(track)
}

/// Checks that a track is written again behind a setup, and nothing after it.
fn check_retuned(
    rt: &impl Abort,
    alloc: Global,
    input: &[u8],
    track: &[u8],
    said: &str,
) -> Result<(), Fail> {
    let mut files = MemFiles::new(alloc);
    files.add("equal.scl", EQUAL.as_bytes())?;
    files.add("in.mid", input)?;
    let outcome = run(alloc, &WORDS, &mut files);
    assert_eq!(rt; outcome.status, 0);
    assert!(rt; files.text() == said.as_bytes());
    let output = files.content("out.mid").ok_or("nothing is held")?;
    let start = HEADER + SETUP;
    assert!(rt; output.len() >= start);
    assert!(rt; &output[start..] == track);
    Ok(())
}

#[test]
fn an_input_of_the_greatest_size_is_retuned(rt: HostRuntime) -> Result<(), Fail> {
    let alloc = rt.alloc();
    let track = notes(alloc, 699_046)?;
    let input = file(alloc, track.as_slice(), b"\x00")?;
    assert_eq!(rt; input.len(), 4_194_304);
    let said =
        "route dump\nkey 69 to 45 00 00 error 0.000 to 0.000\nnotes 699046\nchannels 1\nerror 0.000 to 0.000\n";
    check_retuned(&rt, alloc, input.as_slice(), track.as_slice(), said)
}

#[test]
fn many_notes_are_retuned(rt: HostRuntime) -> Result<(), Fail> {
    let alloc = rt.alloc();
    let track = notes(alloc, 300_000)?;
    let input = file(alloc, track.as_slice(), b"")?;
    let said =
        "route dump\nkey 69 to 45 00 00 error 0.000 to 0.000\nnotes 300000\nchannels 1\nerror 0.000 to 0.000\n";
    check_retuned(&rt, alloc, input.as_slice(), track.as_slice(), said)
}

/// How the report on a sample begins on bend, and what it says behind the lines of its keys.
const SAMPLE_FRONT: &str = "route bend\nkey 48 to 48 bend 0 error 0.000 to 0.000\n";

const SAMPLE_END: &str =
    "notes 300000\nchannels 2\nneed 2 tick 240 position 8\npair 1 0\npair 2 0\nerror 0.000 to 0.000\n";

#[test]
fn the_largest_sample_is_retuned(rt: HostRuntime) -> Result<(), Fail> {
    let alloc = rt.alloc();
    let mut files = MemFiles::new(alloc);
    files.add("equal.scl", EQUAL.as_bytes())?;
    let words = [
        "--scale",
        "equal.scl",
        "--a440",
        "--sample",
        "100000",
        "--out",
        "out.mid",
        "none.mid",
    ];
    let outcome = run(alloc, &words, &mut files);
    assert_eq!(rt; outcome.status, 0);
    assert!(rt; files.text().starts_with(SAMPLE_FRONT.as_bytes()));
    assert!(rt; files.text().ends_with(SAMPLE_END.as_bytes()));
    Ok(())
}

#[test]
fn a_long_event_is_written_again(rt: HostRuntime) -> Result<(), Fail> {
    let alloc = rt.alloc();
    let mut track = Vec::new(alloc);
    track.extend_from_slice(b"\x00\x90\x45\x40\x01\xf0\x84\x80\x00")?;
    for _ in 0..65_536u32 {
        track.push(1)?;
    }
    track.extend_from_slice(b"\x01\x90\x45\x00\x00\xff\x2f\x00")?;
    let input = file(alloc, track.as_slice(), b"")?;
    let said =
        "route dump\nkey 69 to 45 00 00 error 0.000 to 0.000\nnotes 1\nchannels 1\nerror 0.000 to 0.000\n";
    check_retuned(&rt, alloc, input.as_slice(), track.as_slice(), said)
}

#[test]
fn empty_contents_are_refused(rt: HostRuntime) -> Result<(), Fail> {
    let alloc = rt.alloc();
    for (scale, said) in [
        ("", "mtune: scale line 1 kind 1\n"),
        (EQUAL, "mtune: input byte 0 kind 1\n"),
    ] {
        let mut files = MemFiles::new(alloc);
        files.add("equal.scl", scale.as_bytes())?;
        files.add("in.mid", b"")?;
        let outcome = run(alloc, &WORDS, &mut files);
        assert_eq!(rt; outcome.status, 2);
        assert!(rt; files.text() == said.as_bytes());
        assert!(rt; files.content("out.mid").is_none());
    }
    Ok(())
}

/// Checks what a name of the system holds.
fn check_held(
    rt: &impl Abort,
    alloc: Global,
    files: &mut RealFiles,
    name: &str,
    content: &[u8],
    limit: u32,
) {
    match files.load(alloc, Which::Input, name, limit) {
        Ok(held) => assert!(rt; held.as_slice() == content),
        Err(_) => assert!(rt; false, "{name} isn't loaded"),
    }
}

#[test]
fn files_are_stored_and_loaded(rt: HostRuntime) -> Result<(), Fail> {
    let alloc = rt.alloc();
    let mut long = Vec::new(alloc);
    for number in 0..100_000u32 {
        long.push((number % 251) as u8)?;
    }
    let mut files = RealFiles::new(rt.clone()?);
    for content in [long.as_slice(), b"four", b"", long.as_slice()] {
        assert!(rt; files.store("one.mid", content).is_ok());
        check_held(&rt, alloc, &mut files, "one.mid", content, 100_000);
    }
    let short = files.load(alloc, Which::Scale, "one.mid", 99_999);
    assert!(rt; matches!(short, Err(LoadFault::TooLong)));
    let missing = files.load(alloc, Which::Scale, "none.scl", 99_999);
    assert!(rt; matches!(missing, Err(LoadFault::Failed)));
    assert!(rt; files.store("none/one.mid", b"four").is_err());
    assert!(rt; files.store(".", b"four").is_err());
    check_held(&rt, alloc, &mut files, "one.mid", long.as_slice(), 100_000);
    fs::remove_file(&rt, "one.mid")?;
    Ok(())
}
