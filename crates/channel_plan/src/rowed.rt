ghost use Rattle.std.specs.Prelude.{◌≡◌, ◌++◌, List, [], ◌∷◌, map, OnOk, IfOk};
ghost use Rattle.std.specs.List.{AllByRecursion};
ghost use Rattle.mt_base.specs.Midi.{MidiEvent};
ghost use Rattle.retune_model.specs.Options.{Options};
ghost use Rattle.retune_model.specs.Faults.{Targets};
ghost use Rattle.retune_model.specs.SourceFaults.{IsFaultless};
ghost use Rattle.channel_plan.specs.Layouts.{IsLayoutOf, allows};
ghost use Rattle.channel_plan.specs.Passing.{AreAsked};
ghost use Rattle.channel_plan.specs.Finding.{ArePlanned};
ghost use Rattle.channel_plan.specs.Giving.{AreRows};
ghost use Rattle.channel_plan.specs.Serving.{heads};
ghost use Rattle.channel_plan.specs.Heads.{zone_head, heads_by, heads_of, IsFresh};

use crate::layout::Layout;
use crate::needs::first_channels;
use crate::plan::{PortPlan, ZonePlan};
use crate::rowing::Used;
use crate::rows::{Row, zone_row};
use mt_base::{Channel, Memory};
use plan_laws::event_laws;
use retune_model::fewest_channels;
use std::alloc::Global;

/// The same channels once more.
fn copied(channels: &Row) -> Row
    ensures { result.items ≡ channels.now.items }
{
    first_channels(channels.as_slice(), 16)
}

/// A row is added to others.
fn add_row(
    alloc: Global,
    rows: &mut Vec<Used>,
    port: u8,
    part: Option<Channel>,
    channels: Row,
) -> Result<(), Memory>
    ensures heads { OnOk result (heads rows.new.items ≡ heads rows.old.items
        ++ record { port = port; part = part; channels = channels.items } ∷ []) }
    ensures fresh { AllByRecursion IsFresh rows.old.items
        → OnOk result (AllByRecursion IsFresh rows.new.items) }
{
    let row = Used::new(alloc, port, part, channels)?;
    rows.push(row)?;
    Ok(())
}

/// The rows of some zones of a port are added to others.
fn add_zones(
    alloc: Global,
    rows: &mut Vec<Used>,
    port: u8,
    zones: &[ZonePlan],
) -> Result<(), Memory>
    ensures heads { OnOk result (heads rows.new.items ≡ heads rows.old.items
        ++ map (zone_head port) (map (λ q. q.zone) zones.now)) }
    ensures fresh { AllByRecursion IsFresh rows.old.items
        → OnOk result (AllByRecursion IsFresh rows.new.items) }
{
    match zones {
        [first, rest @ ..] => {
            let zone = &first.zone;
            let channels = zone_row(zone.upper, zone.need.min(15) as u8);
            add_row(alloc, rows, port, Some(zone.part), channels)?;
            add_zones(alloc, rows, port, rest)
        }
        [] => Ok(()),
    }
}

/// The rows of a port are added to others.
fn add_rows(
    alloc: Global,
    rows: &mut Vec<Used>,
    layout: Layout,
    port: &PortPlan,
) -> Result<(), Memory>
    ensures heads { OnOk result (heads rows.new.items
        ≡ heads rows.old.items ++ heads_by layout port.now) }
    ensures fresh { AllByRecursion IsFresh rows.old.items
        → OnOk result (AllByRecursion IsFresh rows.new.items) }
{
    match layout {
        Layout::Own => Ok(()),
        Layout::Bend { .. } => add_row(alloc, rows, port.number, None, copied(&port.used)),
        Layout::Mpe => add_zones(alloc, rows, port.number, port.zones.as_slice()),
    }
}

/// The rows of some ports are added to others.
fn add_ports(
    alloc: Global,
    rows: &mut Vec<Used>,
    layout: Layout,
    ports: &[PortPlan],
) -> Result<(), Memory>
    ensures heads { OnOk result (heads rows.new.items
        ≡ heads rows.old.items ++ heads_of layout ports.now) }
    ensures fresh { AllByRecursion IsFresh rows.old.items
        → OnOk result (AllByRecursion IsFresh rows.new.items) }
{
    match ports {
        [first, rest @ ..] => {
            add_rows(alloc, rows, layout, first)?;
            add_ports(alloc, rows, layout, rest)
        }
        [] => Ok(()),
    }
}

/// The rows that serve the notes of the ports, before any event.
pub(crate) fn rows_of(
    alloc: Global,
    layout: Layout,
    ports: &[PortPlan],
) -> Result<Vec<Used>, Memory>
    ensures heads { IfOk result (λ rows. heads rows.items ≡ heads_of layout ports.now) }
    ensures rows { (o : Options) (table : Targets) (es : List MidiEvent) → IsLayoutOf o.route layout
        → AreAsked es → IsFaultless o table es → ArePlanned o (allows layout) table es ports.now
        → IfOk result (λ rows. AreRows o (allows layout) table es rows.items) }
{
    fewest_channels();
    event_laws();
    let mut rows = Vec::new(alloc);
    add_ports(alloc, &mut rows, layout, ports)?;
    Ok(rows)
}
