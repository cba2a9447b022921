use crate::{Command, MapChoice, WordsFault, read_words};
use lifetimes::{Options, Route};
use std::alloc::Global;
use std::test::Fail;

const USUAL: Options = Options {
    route: Route::Bend,
    range: 12,
    keep_drums: true,
    program: 0,
    tail: 0,
};

/// What the least words ask for.
const LEAST: Command<'static> = Command {
    scale: "s",
    mapping: MapChoice::Standard,
    options: USUAL,
    allowed: 0xffff,
    sample: None,
    audit: false,
    out: "o",
    input: "i",
};

/// Words that are read, each with what they ask for.
const READ: [(&[&str], Command<'static>); 9] = [
    (&["--scale", "s", "--out", "o", "i"], LEAST),
    // in another order, and with the values in the options' words
    (&["i", "--out=o", "--scale=s"], LEAST),
    // an input that looks like an option
    (
        &["--scale", "s", "--out", "o", "--", "-i"],
        Command {
            input: "-i",
            ..LEAST
        },
    ),
    (
        &[
            "--scale",
            "s",
            "--a440",
            "--route",
            "dump",
            "--program",
            "127",
            "--out",
            "o",
            "i",
        ],
        Command {
            mapping: MapChoice::At440,
            options: Options {
                route: Route::Dump,
                program: 127,
                ..USUAL
            },
            ..LEAST
        },
    ),
    (
        &[
            "--scale", "s", "--map", "m", "--route", "live", "--drums", "retune", "--audit",
            "--out", "o", "i",
        ],
        Command {
            mapping: MapChoice::Named("m"),
            options: Options {
                route: Route::Live,
                keep_drums: false,
                ..USUAL
            },
            audit: true,
            ..LEAST
        },
    ),
    (
        &[
            "--scale",
            "s",
            "--route=mpe",
            "--drums",
            "keep",
            "--out",
            "o",
            "i",
        ],
        Command {
            options: Options {
                route: Route::Mpe,
                range: 48,
                ..USUAL
            },
            ..LEAST
        },
    ),
    // a sign and zeros before a number
    (
        &[
            "--scale",
            "s",
            "--range",
            "+096",
            "--tail",
            "268435455",
            "--out",
            "o",
            "i",
        ],
        Command {
            options: Options {
                range: 96,
                tail: 268_435_455,
                ..USUAL
            },
            ..LEAST
        },
    ),
    (
        &["--scale", "s", "--channels", "1-9,11,16", "--out", "o", "i"],
        Command {
            allowed: 0x85ff,
            ..LEAST
        },
    ),
    (
        &["--scale", "s", "--sample", "100000", "--out", "o", "i"],
        Command {
            sample: Some(100_000),
            ..LEAST
        },
    ),
];

#[test]
fn words_are_read(rt: HostRuntime) {
    let alloc = rt.alloc();
    for (words, command) in READ {
        assert_eq!(rt; read_words(alloc, words), Ok(command), "{words:?}");
    }
}

/// Words behind those for the scale that aren't read, each with the kind that is told.
const REFUSED: [(&[&str], u8); 22] = [
    (&[], 1),
    (&["--help"], 1),
    (&["-h"], 1),
    (&["i"], 1),
    (&["--out", "o"], 1),
    (&["--out", "o", "i", "j"], 1),
    (&["--out", "o", "--scale", "t", "i"], 1),
    (&["--out", "o", "-i"], 1),
    (&["--out", "o", "--loud", "i"], 1),
    (&["--out", "o", "--range", "0", "i"], 1),
    (&["--out", "o", "--range", "97", "i"], 1),
    (
        &["--out", "o", "--program", "128", "--route", "loud", "i"],
        1,
    ),
    (&["--out", "o", "--tail", "268435456", "i"], 1),
    (&["--out", "o", "--sample", "0", "i"], 1),
    (&["--out", "o", "--route", "Dump", "i"], 2),
    (&["--out", "o", "--drums", "mute", "i"], 2),
    (&["--out", "o", "--channels", "", "--program", "1", "i"], 2),
    (&["--out", "o", "--range", "2", "--route", "live", "i"], 3),
    (&["--out", "o", "--channels", "1", "--route", "mpe", "i"], 3),
    (&["--out", "o", "--tail", "0", "--route", "dump", "i"], 3),
    (&["--out", "o", "--program", "0", "i"], 3),
    (&["--out", "o", "--a440", "--map", "m", "i"], 3),
];

/// The words with those for a scale before them.
fn with_scale(alloc: Global, words: &'static [&'static str]) -> Result<Vec<&'static str>, Fail> {
    let mut all = Vec::new(alloc);
    all.push("--scale")?;
    all.push("s")?;
    for word in words {
        all.push(*word)?;
    }
    Ok(all)
}

#[test]
fn other_words_are_refused(rt: HostRuntime) -> Result<(), Fail> {
    let alloc = rt.alloc();
    for (words, kind) in REFUSED {
        let all = with_scale(alloc, words)?;
        let fault = read_words(alloc, all.as_slice()).err();
        assert_eq!(rt; fault, Some(WordsFault::Usage { kind }), "{words:?}");
    }
    Ok(())
}

/// Lists of channels, each with what it says; 0 stands for none.
const LISTS: [(&str, u16); 14] = [
    ("1", 1),
    ("16", 0x8000),
    ("1-16", 0xffff),
    ("2-2", 2),
    ("3,1,2", 7),
    ("1-4,2-3", 15),
    ("", 0),
    ("0", 0),
    ("01", 0),
    ("17", 0),
    ("160", 0),
    ("3-2", 0),
    ("1,,2", 0),
    ("1-", 0),
];

#[test]
fn lists_of_channels_are_read(rt: HostRuntime) {
    let alloc = rt.alloc();
    for (list, mask) in LISTS {
        let words = ["--scale", "s", "--channels", list, "--out", "o", "i"];
        let allowed = match read_words(alloc, words.as_slice()) {
            Ok(command) => command.allowed,
            Err(_) => 0,
        };
        assert_eq!(rt; allowed, mask, "{list}");
    }
}
