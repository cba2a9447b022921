ghost use Rattle.std.specs.Prelude.{◌≡◌, ◌<◌, ◌≤◌, ◌^◌, List, [], length, All, IsTrue, IfSome, IfOk, OnOk, true, false};
ghost use Rattle.std.specs.List.{AllByRecursion};
ghost use Rattle.mt_base.specs.Valid.{IsValidEvent};
ghost use Rattle.midi_model.specs.Merged.{merged};
ghost use Rattle.midi_model.specs.Order.{AreInOrder};
ghost use Rattle.midi_model.specs.Writing.{Written};
ghost use Rattle.retune_model.specs.Options.{ByMpe, ByBend, bends_notes};
ghost use Rattle.retune_model.specs.SourceFaults.{IsFaultless};
ghost use Rattle.key_pitch.specs.Aims.{by_onset};
ghost use Rattle.lifetimes.specs.Views.{options_of};
ghost use Rattle.lifetimes.specs.Noted.{IsNoted};
ghost use Rattle.lifetimes.specs.Stands.{Stands, asked, table_in};
ghost use Rattle.channel_plan.specs.Layouts.{IsLayoutOf, allows};
ghost use Rattle.channel_plan.specs.Planned.{IsPlan};
ghost use Rattle.channel_plan.specs.Refused.{IsTaken};
ghost use Rattle.mpe_route.specs.Planned.{IsPlanOf};
ghost use Rattle.route_bend.specs.Bent.{IsPlanOf as IsBentPlanOf};

use channel_plan::{Layout, Plan, PlanFault};
use event_stream::{EventStream, Merge, TrackSet};
use key_pitch::{Aims, KeyTable};
use lifetimes::{Noted, Options, Parts, Route};
use mpe_route::zoned_plays_the_same;
use mt_base::Memory;
use retune_model::playable_in_order;
use route_bend::bent_plays_the_same;
use routes::{puts_are_dealt, routed_is_playable};
use smf_read::Smf;
use smf_write::{TrackText, finish};
use std::alloc::Global;
use std::test::Fail;

/// Which parts of a source have a note on; none where an event has a fault.
fn look<'a, S: EventStream<'a>, T: Aims>(stream: &mut S, parts: &mut Parts<T>) -> Option<Noted>
    requires start { Stands (T.table (table_in parts.old)) parts.old [] }
    requires valid { AllByRecursion IsValidEvent (S.all stream.old) }
    requires order { AreInOrder 0 (S.all stream.old) }
    requires tracks { AllByRecursion (λ e. e.track < 1024) (S.all stream.old) }
    requires few { length (S.all stream.old) ≤ 2097152 }
    ensures table { table_in parts.new ≡ table_in parts.old }
    ensures options { asked parts.new ≡ asked parts.old }
    ensures noted { IfSome result (IsNoted (asked parts.old) (S.all stream.old)) }
    ensures faultless { IfSome result (λ n. IsFaultless (asked parts.old)
        (T.table (table_in parts.old)) (S.all stream.old)) }
{
    stream.rewind();
    let mut noted = Noted::new();
    let mut position = 0;
    'events: while let Some(event) = stream.next() {
        position += 1;
        match parts.step(position, &event) {
            Ok(change) => noted.take(&change),
            Err(_) => return None,
        }
    }
    Some(noted)
}

/// The same of a file.
#[inline(never)]
fn noted_of(alloc: Global, table: &KeyTable, options: Options, smf: &Smf<'_>) -> Option<Noted>
    requires some { 1 ≤ options.range }
    requires high { options.range ≤ 96 }
    requires program { options.program ≤ 127 }
    ensures noted { IfSome result (IsNoted (options_of options) (merged smf.now)) }
    ensures faultless { IfSome result (λ n. IsFaultless (options_of options)
        (by_onset table.now) (merged smf.now)) }
{
    playable_in_order();
    let _count = smf.tracks();
    let mut parts = Parts::new(alloc, table, options);
    look(&mut Merge::new(smf), &mut parts)
}

/// The tracks of a file's output on dump or live.
#[inline(never)]
fn told(
    alloc: Global,
    table: &KeyTable,
    options: Options,
    smf: &Smf<'_>,
    noted: &Noted,
) -> Result<Vec<TrackText>, Memory>
    requires route { bends_notes (options_of options).route ≡ false }
    requires some { 1 ≤ options.range }
    requires high { options.range ≤ 96 }
    requires program { options.program ≤ 127 }
    requires noted { IsNoted (options_of options) (merged smf.now) noted.now }
    requires faultless { IsFaultless (options_of options) (by_onset table.now) (merged smf.now) }
    ensures { IfOk result (λ tracks. All (λ (t : Written). t.ended ≡ true) tracks.items) }
{
    playable_in_order();
    puts_are_dealt();
    routed_is_playable();
    let mut out = TrackSet::new(alloc, smf.tracks())?;
    let mut parts = Parts::new(alloc, table, options);
    routes::translate(&mut Merge::new(smf), &mut parts, noted, &mut out)?;
    Ok(out.into_tracks())
}

/// The plan of a file by a layout.
#[inline(never)]
fn planned(
    alloc: Global,
    table: &KeyTable,
    options: Options,
    layout: Layout,
    smf: &Smf<'_>,
) -> Result<Plan, PlanFault>
    requires layout { IsLayoutOf (options_of options).route layout }
    requires some { 1 ≤ options.range }
    requires high { options.range ≤ 96 }
    requires program { options.program ≤ 127 }
    ensures plan { IfOk result (IsPlan (options_of options) (allows layout)
        (by_onset table.now) (merged smf.now)) }
    ensures taken { OnOk result (IsTaken (options_of options) (allows layout)
        (by_onset table.now) (merged smf.now)) }
{
    playable_in_order();
    let _count = smf.tracks();
    let parts = Parts::new(alloc, table, options);
    Plan::build(alloc, &mut Merge::new(smf), parts, layout)
}

/// The tracks of a file's output on MPE by a plan of it.
#[inline(never)]
fn zoned(
    alloc: Global,
    table: &KeyTable,
    options: Options,
    smf: &Smf<'_>,
    plan: &Plan,
) -> Result<Vec<TrackText>, Memory>
    requires route { (options_of options).route ≡ ByMpe }
    requires some { 1 ≤ options.range }
    requires high { options.range ≤ 96 }
    requires program { options.program ≤ 127 }
    requires plan { IsPlanOf (options_of options) (by_onset table.now) (merged smf.now) plan.now }
    ensures { IfOk result (λ tracks. All (λ (t : Written). t.ended ≡ true) tracks.items) }
{
    playable_in_order();
    puts_are_dealt();
    zoned_plays_the_same();
    let mut out = TrackSet::new(alloc, smf.tracks())?;
    let mut parts = Parts::new(alloc, table, options);
    mpe_route::translate(&mut Merge::new(smf), &mut parts, plan, &mut out)?;
    Ok(out.into_tracks())
}

/// The tracks of a file's output on bend by a plan of it.
#[inline(never)]
fn bent(
    alloc: Global,
    table: &KeyTable,
    options: Options,
    smf: &Smf<'_>,
    plan: &Plan,
) -> Result<Vec<TrackText>, Memory>
    requires route { (options_of options).route ≡ ByBend }
    requires some { 1 ≤ options.range }
    requires high { options.range ≤ 96 }
    requires program { options.program ≤ 127 }
    requires plan { IsBentPlanOf (options_of options) (by_onset table.now) (merged smf.now)
        plan.now }
    ensures { IfOk result (λ tracks. All (λ (t : Written). t.ended ≡ true) tracks.items) }
{
    playable_in_order();
    puts_are_dealt();
    bent_plays_the_same();
    let mut out = TrackSet::new(alloc, smf.tracks())?;
    let mut parts = Parts::new(alloc, table, options);
    route_bend::translate(alloc, &mut Merge::new(smf), &mut parts, plan, &mut out)?;
    Ok(out.into_tracks())
}

fn are_short(tracks: &Vec<TrackText>) -> bool
    ensures { IsTrue result → All (λ (t : Written). length t.bytes < 2 ^ 32) tracks.now.items }
{
    for track in tracks {
        if track.len() >= 0x1_0000_0000 {
            return false;
        }
    }
    true
}

/// The bytes of a file's output, in format 1.
pub fn output(
    alloc: Global,
    table: &KeyTable,
    options: Options,
    smf: &Smf<'_>,
) -> Result<Vec<u8>, Fail>
    requires some { 1 ≤ options.range }
    requires high { options.range ≤ 96 }
    requires program { options.program ≤ 127 }
{
    let tracks = match options.route {
        Route::Dump | Route::Live => {
            let noted = noted_of(alloc, table, options, smf).ok_or("a fault")?;
            told(alloc, table, options, smf, &noted)?
        }
        Route::Mpe => {
            let plan = planned(alloc, table, options, Layout::Mpe, smf)?;
            zoned(alloc, table, options, smf, &plan)?
        }
        Route::Bend => {
            // all channels but the tenth
            let layout = Layout::Bend { allowed: 0xfdff };
            let plan = planned(alloc, table, options, layout, smf)?;
            bent(alloc, table, options, smf, &plan)?
        }
    };
    if tracks.is_empty() || tracks.len() > 1024 || !are_short(&tracks) {
        return Err("too long".into());
    }
    Ok(finish(alloc, 1, smf.division(), tracks)?)
}
