ghost use Rattle.std.specs.Prelude.{◌≡◌, ◌≤◌, ◌+◌, ℕ, Bool, false, List, map, length, OnOk, IfOk, IfErr, IfSome, IfNone};
ghost use Rattle.mt_base.specs.Midi.{MidiEvent};
ghost use Rattle.retune_model.specs.Options.{Options as Asked, ByBend, ByMpe, keeps_drums};
ghost use Rattle.retune_model.specs.Faults.{Targets, is_bend};
ghost use Rattle.retune_model.specs.Ports.{events_on};
ghost use Rattle.retune_model.specs.Dump.{parts_with_notes};
ghost use Rattle.retune_model.specs.SourceFaults.{IsFaultless};
ghost use Rattle.channel_model.specs.Refusals.{HasFewParts, PartsRefuse};
ghost use Rattle.channel_model.specs.Rows.{allowed_row};
ghost use Rattle.lifetimes.specs.Views.{options_of, pair_of};
ghost use Rattle.channel_plan.specs.Layouts.{IsLayoutOf, allows};
ghost use Rattle.channel_plan.specs.Passing.{AreAsked};
ghost use Rattle.channel_plan.specs.Planned.{zones_told, zone_told, zone_pairs_told};
ghost use Rattle.channel_plan.specs.Refused.{IsRefused};
ghost use Rattle.channel_plan.specs.Finding.{AreZones, IsZoneFault, IsPortPlan};
ghost use Rattle.channel_plan.specs.Surveys.{Surveys};
ghost use Rattle.channel_plan.specs.Surveyed.{IsSurveyed, IsPlannedAt, IsFaultAt, ArePlannedTo, AreNeeds};

use crate::fault::{Instant, PlanFault};
use crate::layout::Layout;
use crate::needs::{bend_port, zone_of, zones_of};
use crate::plan::{PortPlan, ZonePlan};
use crate::rows::{Row, allowed_row, channels_of};
use crate::survey::Survey;
use lifetimes::Options;
use mt_base::Channel;
use retune_model::{held_laws, pair_laws, rests_are_runs, sound_sources};
use std::alloc::Global;

/// What is planned for the ports with a retuned note.
#[derive(Debug, Drop)]
pub(crate) struct Needs {
    /// The numbers of the ports, ascending.
    pub numbers: Vec<u8>,
    pub ports: Vec<PortPlan>,
}

/// The retuned parts of a port that have a note on, by channel.
fn parts_of(survey: &Survey, port: u8) -> Row
    ensures { (o : Asked) (table : Targets) (es : List MidiEvent)
        → Surveys o table es survey.now
        → result.items ≡ parts_with_notes o (events_on port es) }
{
    channels_of(survey.parts(port))
}

/// Whether drums are kept on a port.
fn keeps_drums(survey: &Survey, options: &Options, port: u8) -> bool
    ensures { (o : Asked) (table : Targets) (es : List MidiEvent)
        → Surveys o table es survey.now → options_of options.now ≡ o
        → result ≡ keeps_drums o (events_on port es) }
{
    options.keep_drums && survey.drums(port)
}

/// What is planned for a port on a route other than bend, with its zones on MPE.
fn unbent_port(alloc: Global, port: u8, zones: Vec<ZonePlan>) -> PortPlan
    ensures plan { (o : Asked) (allowed : ℕ → Bool) (table : Targets) (es : List MidiEvent)
        → is_bend o.route ≡ false
        → map (λ p. p.zone) zones.items
        ≡ map (zone_told o table es port) (zones_told o.route o table es port)
        → map (λ p. map pair_of p.pairs.items) zones.items
        ≡ map (zone_pairs_told o table es port) (zones_told o.route o table es port)
        → IsPortPlan o allowed table es port result }
    ensures begun { result.runs ≡ 0 }
{
    PortPlan {
        number: port,
        need: 0,
        instant: Instant {
            position: 0,
            tick: 0,
        },
        pairs: Vec::new(alloc),
        zones,
        runs: 0,
        used: Row::new(),
    }
}

/// The zones of a port on MPE, by its parts, of which there are two at most; or their refusal.
fn zones_at(
    alloc: Global,
    survey: &Survey,
    options: &Options,
    port: u8,
    parts: &[Channel],
) -> Result<Vec<ZonePlan>, PlanFault>
    ensures plan { (table : Targets) (es : List MidiEvent)
        → (options_of options.now).route ≡ ByMpe
        → Surveys (options_of options.now) table es survey.now
        → parts.now ≡ parts_with_notes (options_of options.now) (events_on port es)
        → length parts.now ≤ 2
        → IfOk result (λ zones. AreZones (options_of options.now) table es port zones.items) }
    ensures fault { (table : Targets) (es : List MidiEvent)
        → (options_of options.now).route ≡ ByMpe
        → Surveys (options_of options.now) table es survey.now
        → parts.now ≡ parts_with_notes (options_of options.now) (events_on port es)
        → length parts.now ≤ 2
        → IfErr result (IsZoneFault (options_of options.now) table es port) }
{
    let drums = keeps_drums(survey, options, port);
    match parts {
        [] => Ok(Vec::new(alloc)),
        [part] => zone_of(alloc, port, drums, *part, survey.counter(port, Some(*part))),
        [first, second, ..] => zones_of(
            alloc,
            port,
            drums,
            *first,
            survey.counter(port, Some(*first)),
            *second,
            survey.counter(port, Some(*second)),
        ),
    }
}

/// What is planned for a port on dump or live.
fn own_port(alloc: Global, port: u8) -> PortPlan
    ensures { (o : Asked) (allowed : ℕ → Bool) (table : Targets) (es : List MidiEvent)
        → IsLayoutOf o.route Layout.Own → IsPlannedAt o allowed table es port result }
{
    unbent_port(alloc, port, Vec::new(alloc))
}

/// What is planned for a port on MPE, or its refusal.
fn mpe_port(
    alloc: Global,
    survey: &Survey,
    options: &Options,
    port: u8,
    parts: &[Channel],
) -> Result<PortPlan, PlanFault>
    ensures plan { (allowed : ℕ → Bool) (table : Targets) (es : List MidiEvent)
        → (options_of options.now).route ≡ ByMpe
        → Surveys (options_of options.now) table es survey.now
        → parts.now ≡ parts_with_notes (options_of options.now) (events_on port es)
        → length parts.now ≤ 2
        → IfOk result (IsPlannedAt (options_of options.now) allowed table es port) }
    ensures fault { (table : Targets) (es : List MidiEvent)
        → (options_of options.now).route ≡ ByMpe
        → Surveys (options_of options.now) table es survey.now
        → parts.now ≡ parts_with_notes (options_of options.now) (events_on port es)
        → length parts.now ≤ 2
        → IfErr result (IsZoneFault (options_of options.now) table es port) }
{
    let zones = zones_at(alloc, survey, options, port, parts)?;
    Ok(unbent_port(alloc, port, zones))
}

/// What is planned for a port with a retuned note, or its refusal.
fn port_plan(
    alloc: Global,
    survey: &Survey,
    layout: Layout,
    options: &Options,
    row: &Row,
    port: u8,
    parts: &[Channel],
) -> Result<PortPlan, PlanFault>
    ensures plan { (table : Targets) (es : List MidiEvent)
        → IsSurveyed (options_of options.now) table es survey.now layout row.now.items
        → parts.now ≡ parts_with_notes (options_of options.now) (events_on port es)
        → IfOk result (IsPlannedAt (options_of options.now) (allows layout) table es port) }
    ensures fault { (table : Targets) (es : List MidiEvent)
        → IsSurveyed (options_of options.now) table es survey.now layout row.now.items
        → parts.now ≡ parts_with_notes (options_of options.now) (events_on port es)
        → IfErr result (IsFaultAt (options_of options.now).route (options_of options.now)
        (allows layout) table es port) }
{
    match layout {
        Layout::Own => Ok(own_port(alloc, port)),
        Layout::Bend { .. } => bend_port(alloc, port, survey.counter(port, None), row),
        Layout::Mpe => mpe_port(alloc, survey, options, port, parts),
    }
}

/// Plans a port, where a part of it has a note on; or its refusal.
fn add_port(
    alloc: Global,
    survey: &Survey,
    layout: Layout,
    options: &Options,
    row: &Row,
    port: u8,
    needs: &mut Needs,
) -> Result<(), PlanFault>
    ensures plan { (table : Targets) (es : List MidiEvent)
        → IsSurveyed (options_of options.now) table es survey.now layout row.now.items
        → ArePlannedTo (options_of options.now) (allows layout) table es port
        needs.old.numbers.items needs.old.ports.items
        → OnOk result (ArePlannedTo (options_of options.now) (allows layout) table es (port + 1)
        needs.new.numbers.items needs.new.ports.items) }
    ensures fault { (table : Targets) (es : List MidiEvent)
        → IsSurveyed (options_of options.now) table es survey.now layout row.now.items
        → IfErr result (IsFaultAt (options_of options.now).route (options_of options.now)
        (allows layout) table es port) }
{
    pair_laws();
    rests_are_runs();
    held_laws();
    sound_sources();
    let parts = parts_of(survey, port);
    if parts.is_empty() {
        return Ok(());
    }
    let plan = port_plan(alloc, survey, layout, options, row, port, parts.as_slice())?;
    needs.numbers.push(port).map_err(|_| PlanFault::Memory)?;
    needs.ports.push(plan).map_err(|_| PlanFault::Memory)?;
    Ok(())
}

/// Plans all ports, ascending, up to the first that is refused.
fn plan_ports(
    alloc: Global,
    survey: &Survey,
    layout: Layout,
    options: &Options,
    row: &Row,
) -> Result<Needs, PlanFault>
    ensures plan { (table : Targets) (es : List MidiEvent)
        → IsSurveyed (options_of options.now) table es survey.now layout row.now.items
        → IfOk result (AreNeeds (options_of options.now) (allows layout) table es) }
    ensures fault { (table : Targets) (es : List MidiEvent)
        → IsSurveyed (options_of options.now) table es survey.now layout row.now.items
        → IfErr result (IsRefused (options_of options.now) (allows layout) table es) }
{
    pair_laws();
    rests_are_runs();
    held_laws();
    sound_sources();
    let mut needs = Needs {
        numbers: Vec::new(alloc),
        ports: Vec::new(alloc),
    };
    for number in 0..256u16 {
        add_port(
            alloc,
            survey,
            layout,
            options,
            row,
            number as u8,
            &mut needs,
        )?;
    }
    Ok(needs)
}

/// The first port of which more than two parts have a note on, with their number.
fn crowded(survey: &Survey) -> Option<(u8, u8)>
    ensures some { (o : Asked) (table : Targets) (es : List MidiEvent)
        → Surveys o table es survey.now
        → IfSome result (λ x. PartsRefuse o es x.0 x.1) }
    ensures none { (o : Asked) (table : Targets) (es : List MidiEvent)
        → Surveys o table es survey.now
        → IfNone result ((z : ℕ) → HasFewParts o es z) }
{
    for number in 0..256u16 {
        let parts = parts_of(survey, number as u8).len();
        if parts > 2 {
            return Some((number as u8, parts as u8));
        }
    }
    None
}

/// The same on MPE; on the other routes a port may have any parts.
fn crowded_on(survey: &Survey, layout: Layout) -> Option<(u8, u8)>
    ensures some { (o : Asked) (table : Targets) (es : List MidiEvent)
        → Surveys o table es survey.now → IsLayoutOf o.route layout
        → IfSome result (λ x. (o.route ≡ ByMpe) × PartsRefuse o es x.0 x.1) }
    ensures none { (o : Asked) (table : Targets) (es : List MidiEvent)
        → Surveys o table es survey.now → IsLayoutOf o.route layout
        → IfNone result (o.route ≡ ByMpe → (z : ℕ) → HasFewParts o es z) }
{
    match layout {
        Layout::Mpe => crowded(survey),
        Layout::Own | Layout::Bend { .. } => None,
    }
}

/// On bend the channels that the notes may be given, ascending.
fn row_of(layout: Layout, options: &Options) -> Row
    ensures { IsLayoutOf ByBend layout
        → result.items ≡ allowed_row (options_of options.now) (allows layout) }
{
    match layout {
        Layout::Bend { allowed } => allowed_row(allowed, options),
        Layout::Own | Layout::Mpe => Row::new(),
    }
}

/// What is planned for the ports of a source with a retuned note, or why they get no channels.
pub(crate) fn needs_of(
    alloc: Global,
    survey: &Survey,
    layout: Layout,
    options: &Options,
) -> Result<Needs, PlanFault>
    ensures plan { (table : Targets) (es : List MidiEvent)
        → Surveys (options_of options.now) table es survey.now → AreAsked es
        → IsFaultless (options_of options.now) table es
        → IsLayoutOf (options_of options.now).route layout
        → IfOk result (AreNeeds (options_of options.now) (allows layout) table es) }
    ensures fault { (table : Targets) (es : List MidiEvent)
        → Surveys (options_of options.now) table es survey.now → AreAsked es
        → IsFaultless (options_of options.now) table es
        → IsLayoutOf (options_of options.now).route layout
        → IfErr result (IsRefused (options_of options.now) (allows layout) table es) }
{
    if let Some((port, parts)) = crowded_on(survey, layout) {
        return Err(PlanFault::TooManyParts { port, parts });
    }
    let row = row_of(layout, options);
    plan_ports(alloc, survey, layout, options, &row)
}
