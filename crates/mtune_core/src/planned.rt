ghost use Rattle.std.specs.Prelude.{◌≡◌, ◌≤◌, [], length, true, IfOk, IfErr, OnOk};
ghost use Rattle.midi_model.specs.Merged.{merged};
ghost use Rattle.midi_model.specs.Writing.{file_bytes};
ghost use Rattle.retune_model.specs.Options.{bends_notes};
ghost use Rattle.key_pitch.specs.Aims.{by_onset};
ghost use Rattle.lifetimes.specs.Views.{route_of};
ghost use Rattle.channel_plan.specs.Planned.{IsPlan};
ghost use Rattle.channel_plan.specs.Refused.{IsTaken, IsRefused};
ghost use Rattle.command_line.specs.Words.{view_command};
ghost use Rattle.mtune_core.specs.Asked.{AreInRange, layout_by, allowed_by};
ghost use Rattle.mtune_core.specs.Output.{AreShort, IsPlayableFile};
ghost use Rattle.mtune_core.specs.Retuned.{EventCause};
ghost use Rattle.mtune_core.specs.Written.{planned_events, planned_file, IsFileMade};
ghost use Rattle.event_stream.specs.Distributed.{StandFor};

use crate::audited::audited;
use crate::counting::count;
use crate::laws::{planned_is_playable, planned_is_short};
use crate::made::Made;
use crate::outcome::Fault;
use crate::reporting::planned_report;
use channel_plan::{Layout, Plan, PlanFault};
use command_line::Command;
use event_stream::{Merge, TrackSet};
use key_pitch::KeyTable;
use lifetimes::{Parts, Route};
use mt_base::Memory;
use retune_model::playable_in_order;
use routes::puts_are_dealt;
use smf_read::Smf;
use smf_write::finish;
use std::alloc::Global;

/// Which channels the notes may be given.
fn layout(command: &Command<'_>) -> Layout
    ensures { result ≡ layout_by (route_of command.now.options.route) command.now.allowed }
{
    match command.options.route {
        Route::Dump | Route::Live => Layout::Own,
        Route::Bend => Layout::Bend {
            allowed: command.allowed,
        },
        Route::Mpe => Layout::Mpe,
    }
}

/// The channels of the notes of a source, or why there are none.
fn plan(
    alloc: Global,
    command: &Command<'_>,
    table: &KeyTable,
    smf: &Smf<'_>,
) -> Result<Plan, PlanFault>
    requires range { AreInRange (view_command command.now).options }
    requires few { length smf.now.tracks ≤ 1024 }
    ensures plan { IfOk result (IsPlan (view_command command.now).options (allowed_by (view_command command.now))
        (by_onset table.now) (merged smf.now)) }
    ensures taken { OnOk result (IsTaken (view_command command.now).options (allowed_by (view_command command.now))
        (by_onset table.now) (merged smf.now)) }
    ensures refused { IfErr result (IsRefused (view_command command.now).options
        (allowed_by (view_command command.now)) (by_onset table.now) (merged smf.now)) }
    ensures playable { IsPlayableFile smf.now }
{
    playable_in_order();
    let parts = Parts::new(alloc, table, command.options);
    Plan::build(alloc, &mut Merge::new(smf), parts, layout(command))
}

/// Puts the output of a source into tracks, by its plan.
fn put_events(
    alloc: Global,
    command: &Command<'_>,
    table: &KeyTable,
    smf: &Smf<'_>,
    plan: &Plan,
    out: &mut TrackSet,
) -> Result<(), Memory>
    requires range { AreInRange (view_command command.now).options }
    requires bends { bends_notes (view_command command.now).options.route ≡ true }
    requires few { length smf.now.tracks ≤ 1024 }
    requires plan { IsPlan (view_command command.now).options (allowed_by (view_command command.now))
        (by_onset table.now) (merged smf.now) plan.now }
    requires taken { IsTaken (view_command command.now).options (allowed_by (view_command command.now))
        (by_onset table.now) (merged smf.now) }
    requires none { StandFor out.old (length smf.now.tracks) [] }
    ensures put { OnOk result (StandFor out.new (length smf.now.tracks)
        (planned_events (view_command command.now).options.route (view_command command.now).options
        (allowed_by (view_command command.now)) (by_onset table.now) plan.now (merged smf.now))) }
{
    playable_in_order();
    puts_are_dealt();
    planned_is_playable();
    let mut parts = Parts::new(alloc, table, command.options);
    let mut events = Merge::new(smf);
    match command.options.route {
        Route::Dump | Route::Live => unreachable!(),
        Route::Bend => route_bend::translate(alloc, &mut events, &mut parts, plan, out),
        Route::Mpe => mpe_route::translate(&mut events, &mut parts, plan, out),
    }
}

/// The bytes of the output of a source, by its plan.
fn output(
    alloc: Global,
    command: &Command<'_>,
    table: &KeyTable,
    smf: &Smf<'_>,
    plan: &Plan,
) -> Result<Vec<u8>, Memory>
    requires range { AreInRange (view_command command.now).options }
    requires bends { bends_notes (view_command command.now).options.route ≡ true }
    requires plan { IsPlan (view_command command.now).options (allowed_by (view_command command.now))
        (by_onset table.now) (merged smf.now) plan.now }
    requires taken { IsTaken (view_command command.now).options (allowed_by (view_command command.now))
        (by_onset table.now) (merged smf.now) }
    requires format { smf.now.format ≤ 1 }
    requires one { smf.now.format ≡ 0 → length smf.now.tracks ≡ 1 }
    requires short { AreShort smf.now }
    ensures { IfOk result (λ v. v.items ≡ file_bytes (planned_file (view_command command.now).options
        (allowed_by (view_command command.now)) (by_onset table.now) plan.now smf.now)) }
{
    planned_is_playable();
    planned_is_short();
    let mut out = TrackSet::new(alloc, smf.tracks())?;
    put_events(alloc, command, table, smf, plan, &mut out)?;
    finish(alloc, smf.format(), smf.division(), out.into_tracks())
}

/// The output and the report of a source on bend or MPE, or why it is refused.
pub fn make_by_plan(
    alloc: Global,
    command: &Command<'_>,
    table: &KeyTable,
    smf: &Smf<'_>,
) -> Result<Made, Fault>
    requires range { AreInRange (view_command command.now).options }
    requires bends { bends_notes (view_command command.now).options.route ≡ true }
    requires format { smf.now.format ≤ 1 }
    requires one { smf.now.format ≡ 0 → length smf.now.tracks ≡ 1 }
    requires short { AreShort smf.now }
    ensures made { IfOk result (IsFileMade (view_command command.now).audit (view_command command.now).options
        (allowed_by (view_command command.now)) (by_onset table.now) smf.now) }
    ensures refused { IfErr result (EventCause (view_command command.now).options
        (allowed_by (view_command command.now)) (by_onset table.now) (merged smf.now)) }
    ensures playable { IsPlayableFile smf.now }
{
    let plan = plan(alloc, command, table, smf)?;
    let output = output(alloc, command, table, smf, &plan)?;
    let used = count(&mut Merge::new(smf), command.options);
    let audit = audited(alloc, command.audit, command.options, table, smf)?;
    let report = planned_report(alloc, command.options, table, used, audit.as_ref(), &plan)?;
    Ok(Made { output, report })
}
