ghost use Rattle.std.specs.Prelude.{◌≡◌, ◌≤◌, ℕ, Bool, length, IfOk, IfErr, OnOk};
ghost use Rattle.midi_model.specs.Merged.{merged};
ghost use Rattle.midi_model.specs.Writing.{file_bytes};
ghost use Rattle.retune_model.specs.SourceFaults.{IsFaultless};
ghost use Rattle.key_pitch.specs.Aims.{by_onset};
ghost use Rattle.lifetimes.specs.Views.{options_of};
ghost use Rattle.command_line.specs.Words.{view_command};
ghost use Rattle.mtune_core.specs.Asked.{IsPlain, allowed_by};
ghost use Rattle.mtune_core.specs.Output.{routed_file, AreShort, IsPlayableFile};
ghost use Rattle.mtune_core.specs.Retuned.{EventCause};
ghost use Rattle.mtune_core.specs.Survey.{IsFound};
ghost use Rattle.mtune_core.specs.Written.{IsFileMade};

use crate::audited::audited;
use crate::made::Made;
use crate::outcome::Fault;
use crate::reporting::report;
use crate::survey::{Found, survey};
use command_line::Command;
use event_stream::{Merge, TrackSet};
use key_pitch::KeyTable;
use lifetimes::{Options, Parts};
use mt_base::Memory;
use retune_model::{fault_laws, playable_in_order};
use routes::{puts_are_dealt, routed_is_playable, routed_is_short, translate};
use smf_read::Smf;
use smf_write::finish;
use std::alloc::Global;

/// What the retuned parts of a source have, where no event has a fault.
fn look_through(
    alloc: Global,
    options: Options,
    table: &KeyTable,
    smf: &Smf<'_>,
) -> Result<Found, Fault>
    requires plain { IsPlain (options_of options) }
    requires few { length smf.now.tracks ≤ 1024 }
    ensures found { IfOk result (λ f. IsFound (options_of options) (merged smf.now) f) }
    ensures faultless { OnOk result
        (IsFaultless (options_of options) (by_onset table.now) (merged smf.now)) }
    ensures playable { IsPlayableFile smf.now }
    ensures refused { (allowed : ℕ → Bool) → IfErr result
        (λ e. EventCause (options_of options) allowed (by_onset table.now) (merged smf.now) e) }
{
    fault_laws();
    playable_in_order();
    let mut parts = Parts::new(alloc, table, options);
    Ok(survey(&mut Merge::new(smf), &mut parts)?)
}

/// The bytes of the output of a source without a fault.
fn output(
    alloc: Global,
    options: Options,
    table: &KeyTable,
    smf: &Smf<'_>,
    found: &Found,
) -> Result<Vec<u8>, Memory>
    requires plain { IsPlain (options_of options) }
    requires found { IsFound (options_of options) (merged smf.now) found.now }
    requires faultless { IsFaultless (options_of options) (by_onset table.now) (merged smf.now) }
    requires format { smf.now.format ≤ 1 }
    requires one { smf.now.format ≡ 0 → length smf.now.tracks ≡ 1 }
    requires short { AreShort smf.now }
    ensures { IfOk result (λ v. v.items
        ≡ file_bytes (routed_file (options_of options) (by_onset table.now) smf.now)) }
{
    playable_in_order();
    puts_are_dealt();
    routed_is_playable();
    routed_is_short();
    let mut out = TrackSet::new(alloc, smf.tracks())?;
    let mut parts = Parts::new(alloc, table, options);
    translate(&mut Merge::new(smf), &mut parts, &found.noted, &mut out)?;
    finish(alloc, smf.format(), smf.division(), out.into_tracks())
}

/// The output and the report of a source on dump or live, or its first fault.
pub fn make_plainly(
    alloc: Global,
    command: &Command<'_>,
    table: &KeyTable,
    smf: &Smf<'_>,
) -> Result<Made, Fault>
    requires plain { IsPlain (view_command command.now).options }
    requires format { smf.now.format ≤ 1 }
    requires one { smf.now.format ≡ 0 → length smf.now.tracks ≡ 1 }
    requires short { AreShort smf.now }
    ensures made { IfOk result (IsFileMade (view_command command.now).audit (view_command command.now).options
        (allowed_by (view_command command.now)) (by_onset table.now) smf.now) }
    ensures refused { IfErr result (EventCause (view_command command.now).options
        (allowed_by (view_command command.now)) (by_onset table.now) (merged smf.now)) }
    ensures playable { IsPlayableFile smf.now }
{
    let options = command.options;
    let found = look_through(alloc, options, table, smf)?;
    let output = output(alloc, options, table, smf, &found)?;
    let audit = audited(alloc, command.audit, options, table, smf)?;
    let report = report(alloc, options, table, &found, audit.as_ref())?;
    Ok(Made { output, report })
}
