mod rows;

ghost use Rattle.std.specs.Prelude.{◌≡◌, ◌≤◌, ◌<◌, ◌^◌, length, All, IsTrue, IfOk, IfSome, true};
ghost use Rattle.midi_model.specs.Merged.{merged};
ghost use Rattle.midi_model.specs.Writing.{Written};
ghost use Rattle.retune_model.specs.Options.{ByBend};
ghost use Rattle.key_pitch.specs.Aims.{by_onset};
ghost use Rattle.lifetimes.specs.Views.{options_of};
ghost use Rattle.route_bend.specs.Bent.{IsPlanOf};

use crate::{bent_plays_the_same, translate};
use channel_plan::{Layout, Plan, PlanFault};
use event_stream::{Merge, TrackSet};
use kbm_text::Mapping;
use key_pitch::KeyTable;
use lifetimes::{Options, Parts, Route};
use mt_base::Memory;
use retune_model::playable_in_order;
use routes::puts_are_dealt;
use scl_text::read_scl;
use smf_read::{Smf, read_smf};
use smf_write::{TrackText, finish};
use std::alloc::Global;
use std::test::Fail;

/// The table of a scale, by the standard mapping or by the one of A 440.
fn table(alloc: Global, scale: &[u8], a440: bool) -> Option<KeyTable> {
    if scale.len() > 262_144 {
        return None;
    }
    let scale = read_scl(alloc, scale).ok()?;
    let mapping = if a440 {
        Mapping::a440(alloc)
    } else {
        Mapping::standard(alloc)
    };
    KeyTable::new(&scale, &mapping).ok()
}

fn are_short(tracks: &Vec<TrackText>) -> bool
    ensures { IsTrue result → All (λ (t : Written). length t.bytes < 2 ^ 32) tracks.now.items }
{
    for track in tracks {
        if track.len() >= 0x1_0000_0000 {
            return false;
        }
    }
    true
}

/// The plan of a file; none where it is refused.
#[inline(never)]
fn planned(
    alloc: Global,
    table: &KeyTable,
    options: Options,
    allowed: u16,
    smf: &Smf<'_>,
) -> Result<Option<Plan>, Memory>
    requires route { (options_of options).route ≡ ByBend }
    requires some { 1 ≤ options.range }
    requires high { options.range ≤ 96 }
    requires program { options.program ≤ 127 }
    ensures { IfOk result (λ x. IfSome x (IsPlanOf (options_of options) (by_onset table.now)
        (merged smf.now))) }
{
    playable_in_order();
    let _count = smf.tracks();
    let parts = Parts::new(alloc, table, options);
    let layout = Layout::Bend { allowed };
    match Plan::build(alloc, &mut Merge::new(smf), parts, layout) {
        Ok(plan) => Ok(Some(plan)),
        Err(PlanFault::Memory) => Err(Memory),
        Err(_) => Ok(None),
    }
}

/// The tracks of a file's output by a plan of it.
#[inline(never)]
fn put_bent(
    alloc: Global,
    table: &KeyTable,
    options: Options,
    smf: &Smf<'_>,
    plan: &Plan,
) -> Result<Vec<TrackText>, Memory>
    requires route { (options_of options).route ≡ ByBend }
    requires some { 1 ≤ options.range }
    requires high { options.range ≤ 96 }
    requires program { options.program ≤ 127 }
    requires plan { IsPlanOf (options_of options) (by_onset table.now) (merged smf.now) plan.now }
    ensures { IfOk result (λ tracks. All (λ (t : Written). t.ended ≡ true) tracks.items) }
{
    playable_in_order();
    puts_are_dealt();
    bent_plays_the_same();
    let mut out = TrackSet::new(alloc, smf.tracks())?;
    let mut parts = Parts::new(alloc, table, options);
    translate(alloc, &mut Merge::new(smf), &mut parts, plan, &mut out)?;
    Ok(out.into_tracks())
}

/// The bytes of a file of these tracks; none where there are too many of them, or too long ones.
fn bytes_of(alloc: Global, division: u16, tracks: Vec<TrackText>) -> Result<Option<Vec<u8>>, Memory>
    requires ended { All (λ (t : Written). t.ended ≡ true) tracks.items }
{
    if tracks.is_empty() || tracks.len() > 1024 || !are_short(&tracks) {
        return Ok(None);
    }
    let format = if tracks.len() == 1 { 0 } else { 1 };
    Ok(Some(finish(alloc, format, division, tracks)?))
}

/// The bytes of a file on the bend route, with drums kept; none where it is refused.
fn output(
    alloc: Global,
    table: &KeyTable,
    range: u8,
    tail: u32,
    allowed: u16,
    smf: &Smf<'_>,
) -> Result<Option<Vec<u8>>, Memory>
    requires some { 1 ≤ range }
    requires high { range ≤ 96 }
{
    let options = Options {
        route: Route::Bend,
        range,
        keep_drums: true,
        program: 0,
        tail,
    };
    match planned(alloc, table, options, allowed, smf)? {
        Some(plan) => {
            let tracks = put_bent(alloc, table, options, smf, &plan)?;
            bytes_of(alloc, smf.division(), tracks)
        }
        None => Ok(None),
    }
}

/// A header chunk with a division of 480, and a track chunk of each content.
fn file(alloc: Global, contents: &[&[u8]]) -> Result<Vec<u8>, Fail> {
    let mut bytes = Vec::new(alloc);
    let many = contents.len() > 1;
    bytes.extend_from_slice(b"MThd\x00\x00\x00\x06\x00")?;
    bytes.push(many as u8)?;
    bytes.push(0)?;
    bytes.push((contents.len() % 256) as u8)?;
    bytes.extend_from_slice(b"\x01\xe0")?;
    for content in contents {
        bytes.extend_from_slice(b"MTrk\x00\x00")?;
        bytes.push((content.len() / 256 % 256) as u8)?;
        bytes.push((content.len() % 256) as u8)?;
        bytes.extend_from_slice(content)?;
    }
    Ok(bytes)
}
