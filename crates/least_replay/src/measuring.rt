//! What the runs of a port cost.
ghost use Rattle.std.specs.Prelude.{◌≡◌, ◌≤◌, IfOk};
ghost use Rattle.retune_model.specs.Options.{ByBend};
ghost use Rattle.retune_model.specs.SourceFaults.{IsFaultless};
ghost use Rattle.lifetimes.specs.Stands.{asked, table_in};
ghost use Rattle.channel_plan.specs.Passing.{AreAsked};
ghost use Rattle.channel_plan.specs.Told.{run_count_in};
ghost use Rattle.least_replay.specs.Assignments.{chains_from};
ghost use Rattle.least_replay.specs.CostView.{table_of, kept_in};
ghost use Rattle.least_replay.specs.Measure.{IsMeasureOf, runs_of};
ghost use Rattle.least_replay.specs.Serving.{ServesPort, channel_given};

use crate::costs::Costs;
use crate::filling::{chains, fill};
use crate::finding::find_runs;
use crate::laws::assignments_are_covers;
use channel_plan::Plan;
use event_stream::EventStream;
use key_pitch::Aims;
use lifetimes::Parts;
use mt_base::Memory;
use retune_model::{fewest_channels, held_laws, pair_laws, rests_are_runs, sound_sources};
use std::alloc::Global;

/// What the runs of a port cost on the bend route, each at a start and behind each other run, with as
/// many starts as the port needs. The events are valid and at most 2,097,152, in the order of their
/// ticks, with tracks below 1,024, and none has a fault; the plan was built from them by the targets
/// and options of the parts, and at most 2,000 runs begin on the port. The stream is read from its
/// start, once, and stands anywhere afterwards, and so do the parts, whatever they stood for before.
/// Memory may be wanting. The cover that the costs keep is the plan's.
pub fn measure<'a, S: EventStream<'a>, T: Aims>(
    alloc: Global,
    stream: &mut S,
    parts: &mut Parts<T>,
    plan: &Plan,
    port: u8,
) -> Result<Costs, Memory>
    requires bends { (asked parts.old).route ≡ ByBend }
    requires asked { AreAsked (S.all stream.old) }
    requires faultless { IsFaultless (asked parts.old) (T.table (table_in parts.old))
        (S.all stream.old) }
    requires plan { ServesPort (asked parts.old) (T.table (table_in parts.old)) (S.all stream.old)
        plan.now port }
    requires few { run_count_in plan.now port ≤ 2000 }
    ensures all { S.all stream.new ≡ S.all stream.old }
    ensures table { table_in parts.new ≡ table_in parts.old }
    ensures options { asked parts.new ≡ asked parts.old }
    ensures costs { IfOk result (λ costs. IsMeasureOf (asked parts.old)
        (T.table (table_in parts.old)) (S.all stream.old) port (table_of costs)) }
    ensures kept { IfOk result (λ costs. kept_in costs
        ≡ chains_from (channel_given (asked parts.old) (S.all stream.old) plan.now
        (runs_of (asked parts.old) (T.table (table_in parts.old)) (S.all stream.old) port)) 0
        (table_of costs).runs) }
{
    assignments_are_covers();
    pair_laws();
    rests_are_runs();
    fewest_channels();
    sound_sources();
    held_laws();
    parts.restart();
    let runs = find_runs(alloc, stream, parts, plan, port)?;
    let matrix = fill(alloc, plan.need(port) as u16, runs.as_slice())?;
    let kept = chains(alloc, runs.as_slice())?;
    match Costs::new(matrix, kept) {
        Some(costs) => Ok(costs),
        None => unreachable!(),
    }
}
