//! Samples, which stand for inputs.
ghost use Rattle.std.specs.Prelude.{◌≤◌, ◌<◌};

use super::{E12, check};
use crate::run;
use itoa::Buffer;
use mtune_files::MemFiles;
use std::alloc::Global;
use std::process::Abort;
use std::test::Fail;

/// What is said of a sample of one chord, on dump and on bend.
const ONE_CHORD: [(&str, &str); 2] = [
    (
        "dump",
        "route dump\nkey 48 to 30 00 00 error 0.000 to 0.000\nkey 52 to 34 00 00 error 0.000 to 0.000\n\
key 55 to 37 00 00 error 0.000 to 0.000\nnotes 3\nchannels 1\nerror 0.000 to 0.000\n",
    ),
    (
        "bend",
        "route bend\nkey 48 to 48 bend 0 error 0.000 to 0.000\nkey 52 to 52 bend 0 error 0.000 to 0.000\n\
key 55 to 55 bend 0 error 0.000 to 0.000\nnotes 3\nchannels 1\nneed 1 tick 0 position 3\npair 1 0\nerror 0.000 to 0.000\n",
    ),
];

/// Checks what is said of a sample. Nothing is held at the input's name.
fn check_sample(rt: &impl Abort, alloc: Global, more: &[&str], said: &str) -> Result<(), Fail> {
    let mut files = MemFiles::new(alloc);
    files.add("e12.scl", E12.as_bytes())?;
    let mut words = Vec::new(alloc);
    words.extend_from_slice(&["--scale", "e12.scl", "--a440", "--out", "o.mid", "in.mid"])?;
    words.extend_from_slice(more)?;
    let outcome = run(alloc, words.as_slice(), &mut files);
    check(rt, &files, outcome, None, 0, said, None);
    assert!(rt; files.content("o.mid").is_some());
    assert!(rt; files.content("in.mid").is_none());
    assert_eq!(rt; files.count(2), 0);
    Ok(())
}

#[test]
fn samples_stand_for_inputs(rt: HostRuntime) -> Result<(), Fail> {
    for (route, said) in ONE_CHORD {
        check_sample(&rt, rt.alloc(), &["--sample", "1", "--route", route], said)?;
    }
    Ok(())
}

/// Appends a text and a number.
fn push(said: &mut String, text: &str, number: u32) -> Result<(), Fail> {
    said.push_str(text)?;
    said.push_str(Buffer::new().format(number))?;
    Ok(())
}

/// Appends the line of each key of a sample's chords.
fn push_keys(said: &mut String) -> Result<(), Fail> {
    for key in 48..79u32 {
        push(said, "key ", key)?;
        push(said, " to ", key)?;
        said.push_str(" bend 0 error 0.000 to 0.000\n")?;
    }
    Ok(())
}

/// Appends the line of a note of a chord, its key so far above the chord's lowest. Chord i is of part 1 + i mod 8, from tick
/// 240 i on for 480 ticks, and has the channel that the chord before the last one has left.
fn push_note(said: &mut String, chord: u32, place: u32, above: u32) -> Result<(), Fail>
    requires few { chord < 100000 }
    requires place { place ≤ 3 }
    requires above { above ≤ 7 }
{
    push(said, "note ", 3 * chord + place)?;
    push(said, " part ", 1 + chord % 8)?;
    push(said, " key ", 48 + 7 * chord % 24 + above)?;
    push(said, " channel ", 1 + chord % 2)?;
    push(said, " tick ", 240 * chord)?;
    push(said, " to ", 240 * chord + 480)?;
    said.push_str(" velocity 64 error 0.000 to 0.000\n")?;
    Ok(())
}

/// Appends the lines of the notes of a thousand chords.
fn push_notes(said: &mut String) -> Result<(), Fail> {
    for chord in 0..1000u32 {
        push_note(said, chord, 1, 0)?;
        push_note(said, chord, 2, 4)?;
        push_note(said, chord, 3, 7)?;
    }
    Ok(())
}

const NEED: &str =
    "channels 2\nneed 2 tick 240 position 8\npair 1 0\npair 2 0\nerror 0.000 to 0.000\n";

#[test]
fn a_thousand_chords_need_two_channels(rt: HostRuntime) -> Result<(), Fail> {
    let mut said = String::new(rt.alloc());
    said.push_str("route bend\n")?;
    push_keys(&mut said)?;
    said.push_str("notes 3000\n")?;
    said.push_str(NEED)?;
    check_sample(&rt, rt.alloc(), &["--sample", "1000"], said.as_str())
}

#[test]
fn a_thousand_chords_are_audited(rt: HostRuntime) -> Result<(), Fail> {
    let mut said = String::new(rt.alloc());
    said.push_str("route bend\n")?;
    push_keys(&mut said)?;
    push_notes(&mut said)?;
    said.push_str("notes 3000\n")?;
    said.push_str(NEED)?;
    check_sample(
        &rt,
        rt.alloc(),
        &["--audit", "--sample", "1000"],
        said.as_str(),
    )
}
