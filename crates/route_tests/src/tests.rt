ghost use Rattle.std.specs.Prelude.{◌≡◌, ◌≤◌};

mod comparing;
mod dice;
mod ear;
mod output;
mod pitches;
mod playing;
mod source;
mod writing;

use kbm_text::{Mapping, read_kbm};
use key_pitch::KeyTable;
use lifetimes::{Options, Route};
use output::output;
use playing::{events_of, first_unlike};
use scl_text::read_scl;
use smf_read::read_smf;
use source::source;
use std::alloc::Global;
use std::process::Abort;
use std::test::Fail;

const JUST: &[u8] = b"just\n12\n16/15\n9/8\n6/5\n5/4\n4/3\n45/32\n3/2\n8/5\n5/3\n9/5\n15/8\n2/1\n";

/// Two keys of each octave share a pitch, and one has none.
const UNEVEN: &[u8] =
    b"uneven\n12\n90.0\n204.0\n204.0\n386.3\n470.0\n590.0\n702.0\n814.0\n884.0\n1018.0\n1088.0\n2/1\n";

const MAPPING: &[u8] = b"12\n0\n127\n60\n69\n440.0\n12\n0\n1\n2\n3\n4\n5\n6\n7\n8\n9\n10\nx\n";

/// A scale, and its mapping; the standard one where there is none.
type Tuning = (&'static [u8], &'static [u8]);

const TUNINGS: [Tuning; 2] = [(JUST, b""), (UNEVEN, MAPPING)];

fn table(alloc: Global, tuning: Tuning) -> Option<KeyTable> {
    let (scale, mapping) = tuning;
    if scale.len() > 262_144 || mapping.len() > 262_144 {
        return None;
    }
    let scale = read_scl(alloc, scale).ok()?;
    let mapping = if mapping.is_empty() {
        Mapping::standard(alloc)
    } else {
        read_kbm(alloc, mapping).ok()?
    };
    KeyTable::new(&scale, &mapping).ok()
}

/// So many events of a source.
const EVENTS: u32 = 2000;

/// The ticks and differences of a random source and its output, on both ports: none where all is the same.
fn unlike(
    alloc: Global,
    tuning: Tuning,
    options: Options,
    seed: u64,
) -> Result<[Option<(u32, comparing::Unlike)>; 2], Fail> {
    let table = table(alloc, tuning).ok_or("no table")?;
    if options.range < 1 || options.range > 96 || options.program > 127 {
        return Err("not asked so".into());
    }
    let bytes = source(alloc, table, options, seed, EVENTS)?;
    if bytes.len() > 4_194_304 {
        return Err("too long".into());
    }
    let smf = read_smf(alloc, bytes.as_slice()).ok().ok_or("not read")?;
    let written = output(alloc, &table, options, &smf)?;
    if written.len() > 4_194_304 {
        return Err("too long".into());
    }
    let out = read_smf(alloc, written.as_slice())
        .ok()
        .ok_or("not read again")?;
    let events = events_of(alloc, &smf)?;
    let played = events_of(alloc, &out)?;
    if events.len() < EVENTS as usize {
        return Err("too few".into());
    }
    let (source, out) = (events.as_slice(), played.as_slice());
    let first = first_unlike(alloc, &table, options, source, out, 0)?;
    let second = first_unlike(alloc, &table, options, source, out, 1)?;
    Ok([first, second])
}

const DUMP: Options = Options {
    route: Route::Dump,
    range: 2,
    keep_drums: true,
    program: 5,
    tail: 0,
};

const LIVE: Options = Options {
    route: Route::Live,
    ..DUMP
};

const MPE: Options = Options {
    route: Route::Mpe,
    range: 48,
    ..DUMP
};

/// What is asked for on the routes of tuning messages.
const TOLD: [Options; 2] = [DUMP, LIVE];

const BEND: Options = Options {
    route: Route::Bend,
    ..DUMP
};

const BENT: [Options; 6] = [
    BEND,
    Options { tail: 300, ..BEND },
    Options { range: 12, ..BEND },
    Options {
        range: 12,
        tail: 300,
        ..BEND
    },
    Options {
        range: 48,
        tail: 300,
        ..BEND
    },
    Options { range: 96, ..BEND },
];

const ZONED: [Options; 4] = [
    MPE,
    Options { range: 2, ..MPE },
    Options { range: 12, ..MPE },
    Options { range: 96, ..MPE },
];

/// Finds the first of some options with which a source isn't played as it is.
fn all_alike(rt: &impl Abort, alloc: Global, asked: &[Options]) -> Result<(), Fail> {
    for (place, options) in asked.iter().enumerate() {
        let tuning = TUNINGS[place % TUNINGS.len()];
        let found = unlike(alloc, tuning, *options, place as u64)?;
        assert!(rt; found == [None, None], "{place}: {found:?}");
    }
    Ok(())
}

#[test]
fn told_sources_play_the_same(rt: HostRuntime) -> Result<(), Fail> {
    all_alike(&rt, rt.alloc(), &TOLD)
}

#[test]
fn zoned_sources_play_the_same(rt: HostRuntime) -> Result<(), Fail> {
    all_alike(&rt, rt.alloc(), &ZONED)
}

#[test]
fn bent_sources_play_the_same(rt: HostRuntime) -> Result<(), Fail> {
    all_alike(&rt, rt.alloc(), &BENT)
}
