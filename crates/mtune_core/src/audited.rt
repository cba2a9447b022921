ghost use Rattle.std.specs.Prelude.{◌≡◌, ◌≤◌, ◌<◌, [], length, IfOk, IfSome, OnOk};
ghost use Rattle.std.specs.List.{AllByRecursion};
ghost use Rattle.mt_base.specs.Valid.{IsValidEvent};
ghost use Rattle.midi_model.specs.Merged.{merged};
ghost use Rattle.midi_model.specs.Order.{AreInOrder};
ghost use Rattle.retune_model.specs.SourceFaults.{IsFaultless};
ghost use Rattle.key_pitch.specs.Aims.{by_onset};
ghost use Rattle.lifetimes.specs.Stands.{Stands, asked, table_in};
ghost use Rattle.lifetimes.specs.Views.{options_of};
ghost use Rattle.audit_report.specs.Audit.{IsAudit};
ghost use Rattle.mtune_core.specs.Asked.{AreInRange};
ghost use Rattle.mtune_core.specs.Survey.{IsAudited, IsOfFew};

use audit_report::Audit;
use event_stream::{EventStream, Merge};
use key_pitch::{Aims, KeyTable};
use lifetimes::{Options, Parts, StepFault};
use mt_base::Memory;
use retune_model::{front_faults, playable_in_order};
use smf_read::Smf;
use std::alloc::Global;

/// Goes through all events of a stream, of which none has a fault, and keeps each retuned note to its end.
/// The parts and the audit are new.
fn hear<'a, S: EventStream<'a>, T: Aims>(
    stream: &mut S,
    parts: &mut Parts<T>,
    audit: &mut Audit,
) -> Result<(), Memory>
    requires start { Stands (T.table (table_in parts.old)) parts.old [] }
    requires valid { AllByRecursion IsValidEvent (S.all stream.old) }
    requires order { AreInOrder 0 (S.all stream.old) }
    requires tracks { AllByRecursion (λ e. e.track < 1024) (S.all stream.old) }
    requires few { length (S.all stream.old) ≤ 2097152 }
    requires faultless { IsFaultless (asked parts.old) (T.table (table_in parts.old)) (S.all stream.old) }
    requires none { IsAudit (asked parts.old) [] audit.old }
    ensures { OnOk result (IsAudit (asked parts.old) (S.all stream.old) audit.new) }
{
    front_faults();
    stream.rewind();
    let mut position = 0;
    'events: while let Some(event) = stream.next() {
        position += 1;
        let change = match parts.step(position, &event) {
            Ok(change) => change,
            Err(StepFault::Memory) => return Err(Memory),
            Err(StepFault::Source(_)) => unreachable!(),
        };
        audit.take(&event, &change)?;
    }
    Ok(())
}

/// How each retuned note of a source without a fault is played, where it is asked for.
pub fn audited(
    alloc: Global,
    asked: bool,
    options: Options,
    table: &KeyTable,
    smf: &Smf<'_>,
) -> Result<Option<Audit>, Memory>
    requires range { AreInRange (options_of options) }
    requires few { length smf.now.tracks ≤ 1024 }
    requires faultless { IsFaultless (options_of options) (by_onset table.now) (merged smf.now) }
    ensures audited { IfOk result (λ audit. IsAudited asked (options_of options) (merged smf.now) audit) }
    ensures few { IfOk result (λ audit. IfSome audit (λ a. IsOfFew (options_of options) a)) }
{
    if !asked {
        return Ok(None);
    }
    playable_in_order();
    let mut audit = Audit::new(alloc)?;
    let mut parts = Parts::new(alloc, table, options);
    hear(&mut Merge::new(smf), &mut parts, &mut audit)?;
    Ok(Some(audit))
}
