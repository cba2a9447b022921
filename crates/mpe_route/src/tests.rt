ghost use Rattle.std.specs.Prelude.{◌≡◌, ◌<◌, ◌≤◌, ◌^◌, length, All, IsTrue, IfOk, IfSome, true};
ghost use Rattle.midi_model.specs.Merged.{merged};
ghost use Rattle.midi_model.specs.Writing.{Written};
ghost use Rattle.key_pitch.specs.Aims.{by_onset};
ghost use Rattle.lifetimes.specs.Views.{options_of, route_of};
ghost use Rattle.channel_plan.specs.Layouts.{IsLayoutOf};
ghost use Rattle.channel_plan.specs.Passing.{AreAsked};
ghost use Rattle.mpe_route.specs.Planned.{IsPlanOf};

mod cases;

use crate::{translate, zoned_plays_the_same};
use cases::CASES;
use channel_plan::{Layout, Plan, PlanFault};
use event_stream::{Merge, TrackSet};
use kbm_text::Mapping;
use key_pitch::KeyTable;
use lifetimes::{Options, Parts, Route};
use mt_base::Memory;
use retune_model::playable_in_order;
use routes::puts_are_dealt;
use scl_text::read_scl;
use smf_read::{Smf, read_smf};
use smf_write::{TrackText, finish};
use std::alloc::Global;
use std::test::Fail;

/// Twelve equal steps, from key 69 at 440 Hz.
pub const EQUAL: &[u8] =
    b"equal\n12\n100.0\n200.0\n300.0\n400.0\n500.0\n600.0\n700.0\n800.0\n900.0\n1000.0\n1100.0\n1200.0\n";

/// From key 60 at 261.6255653 Hz.
pub const JUST: &[u8] =
    b"just\n12\n16/15\n9/8\n6/5\n5/4\n4/3\n45/32\n3/2\n8/5\n5/3\n9/5\n15/8\n2/1\n";

/// The contents of the tracks of a file, and those of its output.
#[derive(Clone, Copy, Debug)]
pub struct Case {
    pub name: &'static str,
    pub scale: &'static [u8],
    pub range: u8,
    pub input: &'static [&'static [u8]],
    pub output: &'static [&'static [u8]],
}

/// The table of a scale.
fn table(alloc: Global, scale: &[u8]) -> Option<KeyTable> {
    if scale.len() > 262_144 {
        return None;
    }
    let mapping = if scale == EQUAL {
        Mapping::a440(alloc)
    } else {
        Mapping::standard(alloc)
    };
    let scale = read_scl(alloc, scale).ok()?;
    KeyTable::new(&scale, &mapping).ok()
}

/// A header chunk with a division of 480, and a track chunk of each content.
fn file(alloc: Global, contents: &[&[u8]]) -> Result<Vec<u8>, Fail> {
    let mut bytes = Vec::new(alloc);
    let many = contents.len() > 1;
    bytes.extend_from_slice(b"MThd\x00\x00\x00\x06\x00")?;
    bytes.push(many as u8)?;
    bytes.push(0)?;
    bytes.push((contents.len() % 256) as u8)?;
    bytes.extend_from_slice(b"\x01\xe0")?;
    for content in contents {
        bytes.extend_from_slice(b"MTrk\x00\x00")?;
        bytes.push((content.len() / 256 % 256) as u8)?;
        bytes.push((content.len() % 256) as u8)?;
        bytes.extend_from_slice(content)?;
    }
    Ok(bytes)
}

fn are_short(tracks: &Vec<TrackText>) -> bool
    ensures { IsTrue result → All (λ (t : Written). length t.bytes < 2 ^ 32) tracks.now.items }
{
    for track in tracks {
        if track.len() >= 0x1_0000_0000 {
            return false;
        }
    }
    true
}

/// The events of a file.
fn events_of<'a>(smf: &Smf<'a>) -> Merge<'a>
    ensures all { result.all ≡ merged smf.now }
    ensures asked { AreAsked result.all }
{
    playable_in_order();
    smf.tracks();
    Merge::new(smf)
}

/// The plan of a file; none where it is refused.
#[inline(never)]
fn plan_of(
    alloc: Global,
    table: KeyTable,
    options: Options,
    smf: &Smf<'_>,
) -> Result<Option<Plan>, Memory>
    requires layout { IsLayoutOf (route_of options.route) Layout.Mpe }
    requires some { 1 ≤ options.range }
    requires high { options.range ≤ 96 }
    requires program { options.program ≤ 127 }
    ensures { IfOk result (λ x. IfSome x (IsPlanOf (options_of options) (by_onset table)
        (merged smf.now))) }
{
    let mut events = events_of(smf);
    let parts = Parts::new(alloc, table, options);
    match Plan::build(alloc, &mut events, parts, Layout::Mpe) {
        Ok(plan) => Ok(Some(plan)),
        Err(PlanFault::Memory) => Err(Memory),
        Err(_) => Ok(None),
    }
}

/// The bytes of a file of these tracks; none where there are too many of them, or too long ones.
fn bytes_of(alloc: Global, division: u16, tracks: Vec<TrackText>) -> Result<Option<Vec<u8>>, Memory>
    requires ended { All (λ (t : Written). t.ended ≡ true) tracks.items }
{
    if tracks.is_empty() || tracks.len() > 1024 || !are_short(&tracks) {
        return Ok(None);
    }
    let format = if tracks.len() == 1 { 0 } else { 1 };
    Ok(Some(finish(alloc, format, division, tracks)?))
}

/// The bytes of a file on the MPE route, with drums kept; none where it is refused.
fn output(
    alloc: Global,
    table: KeyTable,
    range: u8,
    smf: &Smf<'_>,
) -> Result<Option<Vec<u8>>, Memory>
    requires some { 1 ≤ range }
    requires high { range ≤ 96 }
{
    puts_are_dealt();
    zoned_plays_the_same();
    let options = Options {
        route: Route::Mpe,
        range,
        keep_drums: true,
        program: 0,
        tail: 0,
    };
    let count = smf.tracks();
    match plan_of(alloc, table, options, smf)? {
        Some(plan) => {
            let mut events = events_of(smf);
            let mut parts = Parts::new(alloc, table, options);
            let mut out = TrackSet::new(alloc, count)?;
            translate(&mut events, &mut parts, &plan, &mut out)?;
            let tracks = out.into_tracks();
            bytes_of(alloc, smf.division(), tracks)
        }
        None => Ok(None),
    }
}

/// The same of the contents of its tracks.
fn retuned(
    alloc: Global,
    scale: &[u8],
    range: u8,
    input: &[&[u8]],
) -> Result<Option<Vec<u8>>, Fail> {
    let table = table(alloc, scale).ok_or("no table")?;
    let bytes = file(alloc, input)?;
    if bytes.len() > 4_194_304 || range < 1 || range > 96 {
        return Ok(None);
    }
    let smf = read_smf(alloc, bytes.as_slice()).ok().ok_or("not read")?;
    Ok(output(alloc, table, range, &smf).ok().ok_or("memory")?)
}

/// Whether a case has its output.
fn is_as_wanted(alloc: Global, case: &Case) -> Result<bool, Fail> {
    let found = retuned(alloc, case.scale, case.range, case.input)?;
    let wanted = file(alloc, case.output)?;
    Ok(match found {
        Some(found) => found.as_slice() == wanted.as_slice(),
        None => false,
    })
}

#[test]
fn outputs_of_the_mpe_route(rt: HostRuntime) -> Result<(), Fail> {
    for case in CASES {
        assert!(rt; is_as_wanted(rt.alloc(), &case)?, "{}", case.name);
    }
    Ok(())
}

/// Three parts with a note; key pressure of a part; and drums beside nine pairs at once.
const REFUSED: [&[u8]; 3] = [
    b"\x00\x90\x45\x40\x00\x91\x45\x40\x00\x92\x45\x40\x00\xff\x2f\x00",
    b"\x00\x90\x45\x40\x00\xa0\x45\x40\x00\xff\x2f\x00",
    b"\x00\x99\x24\x40\x00\x90\x3c\x40\x00\x3d\x40\x00\x3e\x40\x00\x3f\x40\x00\x40\x40\x00\x41\x40\
\x00\x42\x40\x00\x43\x40\x00\x44\x40\x00\xff\x2f\x00",
];

#[test]
fn sources_without_an_output(rt: HostRuntime) -> Result<(), Fail> {
    for content in REFUSED {
        assert!(rt; retuned(rt.alloc(), JUST, 48, &[content])?.is_none());
    }
    Ok(())
}
