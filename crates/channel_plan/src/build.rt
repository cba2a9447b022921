ghost use Rattle.retune_model.specs.Options.{Route};
ghost use Rattle.std.specs.Prelude.{◌≡◌};
ghost use Rattle.channel_plan.specs.Layouts.{IsLayoutOf};
ghost use Rattle.channel_plan.specs.Surveys.{IsCountedBy};

use crate::fault::PlanFault;
use crate::giving::give;
use crate::layout::Layout;
use crate::plan::Plan;
use crate::planning::needs_of;
use crate::survey::{Counted, look_through};
use event_stream::EventStream;
use key_pitch::Aims;
use lifetimes::Parts;
use retune_model::{held_laws, pair_laws, rests_are_runs, sound_sources};
use std::alloc::Global;

/// Of which notes the pairs are counted together on the route of a layout.
fn counted_by(layout: Layout) -> Counted
    ensures { (r : Route) → IsLayoutOf r layout → IsCountedBy r result }
{
    match layout {
        Layout::Own => Counted::Nothing,
        Layout::Bend { .. } => Counted::Ports,
        Layout::Mpe => Counted::Parts,
    }
}

impl Plan {
    ghost use Rattle.std.specs.Prelude.{[], OnOk, IfOk, IfErr};
    ghost use Rattle.lifetimes.specs.Stands.{Stands, asked, table_in};
    ghost use Rattle.channel_plan.specs.Layouts.{IsLayoutOf, allows};
    ghost use Rattle.channel_plan.specs.Passing.{AreAsked};
    ghost use Rattle.channel_plan.specs.Planned.{IsPlan};
    ghost use Rattle.channel_plan.specs.Refused.{IsRefused, IsTaken};

    /// Plans the channels of a source's retuned notes, or tells why there is no plan: the first event
    /// with a source fault; on MPE the first port of which more than two parts have a note on; the
    /// first port, or zone, that needs more channels than it may have. Memory may be wanting. The
    /// events are valid and at most 2,097,152, in the order of their ticks, with tracks below 1,024;
    /// the parts are those before any event; the layout is that of their route. The stream is read
    /// from its start, twice, and stands anywhere afterwards.
    pub fn build<'a, S: EventStream<'a>, T: Aims + Drop>(
        alloc: Global,
        stream: &mut S,
        mut parts: Parts<T>,
        layout: Layout,
    ) -> Result<Plan, PlanFault>
        requires start { Stands (T.table (table_in parts)) parts [] }
        requires asked { AreAsked (S.all stream.old) }
        requires layout { IsLayoutOf (asked parts).route layout }
        ensures all { S.all stream.new ≡ S.all stream.old }
        ensures plan { IfOk result (IsPlan (asked parts) (allows layout)
            (T.table (table_in parts)) (S.all stream.old)) }
        ensures taken { OnOk result (IsTaken (asked parts) (allows layout)
            (T.table (table_in parts)) (S.all stream.old)) }
        ensures refused { IfErr result (IsRefused (asked parts) (allows layout)
            (T.table (table_in parts)) (S.all stream.old)) }
    {
        pair_laws();
        rests_are_runs();
        held_laws();
        sound_sources();
        let survey = look_through(alloc, stream, &mut parts, counted_by(layout))?;
        let options = parts.options();
        let needs = needs_of(alloc, &survey, layout, &options)?;
        parts.restart();
        let mut ports = needs.ports;
        let (given, runs) = give(alloc, stream, &mut parts, layout, ports.as_mut_slice())?;
        Ok(Plan {
            numbers: needs.numbers,
            ports,
            given,
            runs,
        })
    }
}
