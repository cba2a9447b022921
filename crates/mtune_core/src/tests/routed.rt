//! One note on live, bend and MPE, byte for byte.
use super::{E12, ONE_NOTE, check, file, files};
use crate::run;
use std::alloc::Global;
use std::process::Abort;
use std::test::Fail;

/// The route, what is in the output's track, and what is said.
const ROUTES: [(&str, &[u8], &str); 3] = [
    (
        "live",
        b"\x00\xb0\x65\x00\x00\x64\x03\x00\x06\x00\x00\x65\x7f\x00\x64\x7f\
\x00\xf0\x0b\x7f\x7f\x08\x02\x00\x01\x45\x45\x00\x00\xf7\x00\x90\x45\x40\x83\x60\x80\x45\x40\x00\xff\x2f\x00",
        "route live\nkey 69 to 45 00 00 error 0.000 to 0.000\nnotes 1\nchannels 1\nerror 0.000 to 0.000\n",
    ),
    (
        "bend",
        b"\x00\xb0\x65\x00\x00\x64\x00\x00\x06\x0c\x00\x65\x7f\x00\x64\x7f\x00\x90\x45\x40\x83\x60\x80\x45\x40\x00\xff\x2f\x00",
        "route bend\nkey 69 to 69 bend 0 error 0.000 to 0.000\nnotes 1\nchannels 1\nneed 1 tick 0 position 1\npair 1 0\nerror 0.000 to 0.000\n",
    ),
    (
        "mpe",
        b"\x00\xb0\x65\x00\x00\x64\x06\x00\x06\x01\x00\x65\x7f\x00\x64\x7f\x00\x91\x45\x40\x83\x60\x81\x45\x40\x00\xff\x2f\x00",
        "route mpe\nkey 69 to 69 bend 0 error 0.000 to 0.000\nnotes 1\nchannels 1\n\
zone lower part 1 need 1 tick 0 position 1\npair 1 0\nerror 0.000 to 0.000\n",
    ),
];

/// Checks what becomes of the note on a route.
fn check_on(
    rt: &impl Abort,
    alloc: Global,
    route: &str,
    output: &[u8],
    said: &str,
) -> Result<(), Fail> {
    let mut files = files(alloc, E12, &ONE_NOTE)?;
    let words = [
        "--scale", "e12.scl", "--a440", "--route", route, "--out", "out.mid", "in.mid",
    ];
    let outcome = run(alloc, words.as_slice(), &mut files);
    check(rt, &files, outcome, None, 0, said, Some(output));
    Ok(())
}

#[test]
fn one_note_is_retuned_on_each_route(rt: HostRuntime) -> Result<(), Fail> {
    let alloc = rt.alloc();
    for (route, track, said) in ROUTES {
        let output = file(alloc, 0, 1, &[track])?;
        check_on(&rt, alloc, route, output.as_slice(), said)?;
    }
    Ok(())
}
