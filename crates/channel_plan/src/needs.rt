ghost use Rattle.std.specs.Prelude.{◌≡◌, ◌≤◌, ℕ, Bool, true, false, List, [], ◌∷◌, take, IfOk, IfErr, IfSome, IfNone};
ghost use Rattle.mt_base.specs.Midi.{MidiEvent};
ghost use Rattle.retune_model.specs.Options.{Options};
ghost use Rattle.retune_model.specs.Faults.{Targets, is_part};
ghost use Rattle.retune_model.specs.Options.{keeps_drums};
ghost use Rattle.retune_model.specs.Ports.{events_on};
ghost use Rattle.retune_model.specs.Dump.{parts_with_notes};
ghost use Rattle.channel_model.specs.MpeOutput.{zone_with};
ghost use Rattle.channel_model.specs.Rows.{allowed_row, only, zones_on};
ghost use Rattle.channel_plan.specs.Counts.{CountsOf};
ghost use Rattle.channel_plan.specs.Finding.{IsBendPort, IsBendFault, IsZoneTold, AreZones, IsZoneFault};

use crate::counter::Counter;
use crate::fault::PlanFault;
use crate::plan::{PortPlan, Zone, ZonePlan};
use crate::refusing::refused;
use crate::rows::{Row, lower_allowed, upper_allowed};
use arrayvec::ArrayVec;
use mt_base::{Channel, Pair};
use retune_model::{fewest_channels, need_laws};
use std::alloc::Global;

/// The first of some channels, so many at most.
pub(crate) fn first_channels(channels: &[Channel], count: usize) -> Row
    requires { count ≤ 16 }
    ensures { result.items ≡ take count channels.now }
{
    let mut first = ArrayVec::new();
    for channel in channels {
        if first.len() == count {
            return first;
        }
        first.push(*channel);
    }
    first
}

/// The pairs where there were most.
fn copied(alloc: Global, counter: &Counter) -> Result<Vec<Pair>, PlanFault>
    ensures pairs { IfOk result (λ pairs. pairs.items ≡ counter.now.witness.items) }
    ensures memory { IfErr result (λ fault. fault ≡ PlanFault.Memory) }
{
    Vec::from_slice(alloc, counter.witness.as_slice()).map_err(|_| PlanFault::Memory)
}

/// What a port needs on bend, with the channels that its runs are given, the first of the allowed ones; or its refusal.
pub(crate) fn bend_port(
    alloc: Global,
    port: u8,
    counter: &Counter,
    row: &Row,
) -> Result<PortPlan, PlanFault>
    ensures plan { (o : Options) (allowed : ℕ → Bool) (table : Targets) (es : List MidiEvent)
        → row.now.items ≡ allowed_row o allowed → CountsOf o (is_part o) table es port counter.now
        → IfOk result (IsBendPort o allowed table es port) }
    ensures fault { (o : Options) (allowed : ℕ → Bool) (table : Targets) (es : List MidiEvent)
        → row.now.items ≡ allowed_row o allowed → CountsOf o (is_part o) table es port counter.now
        → IfErr result (IsBendFault o allowed table es port) }
    ensures zones { IfOk result (λ p. p.zones.items ≡ []) }
    ensures begun { IfOk result (λ p. p.runs ≡ 0) }
{
    need_laws();
    fewest_channels();
    if let Some(fault) = refused(port, counter, row.len() as u32) {
        return Err(PlanFault::TooManyChannels(fault));
    }
    let pairs = copied(alloc, counter)?;
    Ok(PortPlan {
        number: port,
        need: counter.need,
        instant: counter.instant,
        pairs,
        zones: Vec::new(alloc),
        runs: 0,
        used: first_channels(row.as_slice(), (counter.need as usize).min(16)),
    })
}

/// A zone of a port, with its pairs where there were most.
fn zone_plan(
    alloc: Global,
    port: u8,
    upper: bool,
    part: Channel,
    counter: &Counter,
) -> Result<ZonePlan, PlanFault>
    ensures zone { (o : Options) (table : Targets) (es : List MidiEvent)
        → CountsOf o (only part) table es port counter.now
        → IfOk result (IsZoneTold o table es port (zone_with upper (part, counter.now.need))) }
    ensures memory { IfErr result (λ fault. fault ≡ PlanFault.Memory) }
{
    need_laws();
    fewest_channels();
    let pairs = copied(alloc, counter)?;
    Ok(ZonePlan {
        zone: Zone {
            port,
            part,
            upper,
            need: counter.need,
            instant: counter.instant,
        },
        pairs,
    })
}

/// A list of one zone.
fn one(alloc: Global, lower: ZonePlan) -> Result<Vec<ZonePlan>, PlanFault>
    ensures zones { IfOk result (λ zones. zones.items ≡ lower ∷ []) }
    ensures memory { IfErr result (λ fault. fault ≡ PlanFault.Memory) }
{
    let mut zones = Vec::new(alloc);
    zones.push(lower).map_err(|_| PlanFault::Memory)?;
    Ok(zones)
}

/// A list of two zones.
fn two(alloc: Global, lower: ZonePlan, upper: ZonePlan) -> Result<Vec<ZonePlan>, PlanFault>
    ensures zones { IfOk result (λ zones. zones.items ≡ lower ∷ upper ∷ []) }
    ensures memory { IfErr result (λ fault. fault ≡ PlanFault.Memory) }
{
    let mut zones = Vec::new(alloc);
    zones.push(lower).map_err(|_| PlanFault::Memory)?;
    zones.push(upper).map_err(|_| PlanFault::Memory)?;
    Ok(zones)
}

/// One zone of a port on MPE, or its refusal.
fn one_zone(
    alloc: Global,
    port: u8,
    drums: bool,
    part: Channel,
    counter: &Counter,
) -> Result<Vec<ZonePlan>, PlanFault>
    ensures plan { (o : Options) (table : Targets) (es : List MidiEvent)
        → drums ≡ keeps_drums o (events_on port es)
        → zones_on o table es port ≡ zone_with false (part, counter.now.need) ∷ []
        → CountsOf o (only part) table es port counter.now
        → IfOk result (λ zones. AreZones o table es port zones.items) }
    ensures fault { (o : Options) (table : Targets) (es : List MidiEvent)
        → drums ≡ keeps_drums o (events_on port es)
        → zones_on o table es port ≡ zone_with false (part, counter.now.need) ∷ []
        → CountsOf o (only part) table es port counter.now
        → IfErr result (IsZoneFault o table es port) }
{
    if let Some(fault) = refused(port, counter, lower_allowed(drums, None)) {
        return Err(PlanFault::TooManyChannels(fault));
    }
    let plan = zone_plan(alloc, port, false, part, counter)?;
    let zones = one(alloc, plan)?;
    Ok(zones)
}

/// Two zones of a port on MPE, or their refusal.
fn two_zones(
    alloc: Global,
    port: u8,
    drums: bool,
    lower: Channel,
    lower_pairs: &Counter,
    upper: Channel,
    upper_pairs: &Counter,
) -> Result<Vec<ZonePlan>, PlanFault>
    ensures plan { (o : Options) (table : Targets) (es : List MidiEvent)
        → drums ≡ keeps_drums o (events_on port es)
        → zones_on o table es port ≡ zone_with false (lower, lower_pairs.now.need)
        ∷ zone_with true (upper, upper_pairs.now.need) ∷ []
        → CountsOf o (only lower) table es port lower_pairs.now
        → CountsOf o (only upper) table es port upper_pairs.now
        → IfOk result (λ zones. AreZones o table es port zones.items) }
    ensures fault { (o : Options) (table : Targets) (es : List MidiEvent)
        → drums ≡ keeps_drums o (events_on port es)
        → zones_on o table es port ≡ zone_with false (lower, lower_pairs.now.need)
        ∷ zone_with true (upper, upper_pairs.now.need) ∷ []
        → CountsOf o (only lower) table es port lower_pairs.now
        → CountsOf o (only upper) table es port upper_pairs.now
        → IfErr result (IsZoneFault o table es port) }
{
    let room = lower_allowed(drums, Some(upper_pairs.need));
    if let Some(fault) = refused(port, lower_pairs, room) {
        return Err(PlanFault::TooManyChannels(fault));
    }
    if let Some(fault) = refused(port, upper_pairs, upper_allowed(drums)) {
        return Err(PlanFault::TooManyChannels(fault));
    }
    let lower_plan = zone_plan(alloc, port, false, lower, lower_pairs)?;
    let upper_plan = zone_plan(alloc, port, true, upper, upper_pairs)?;
    let zones = two(alloc, lower_plan, upper_plan)?;
    Ok(zones)
}

/// The zone of a port on MPE of which one part has a note on, or its refusal.
pub(crate) fn zone_of(
    alloc: Global,
    port: u8,
    drums: bool,
    part: Channel,
    counter: &Counter,
) -> Result<Vec<ZonePlan>, PlanFault>
    ensures plan { (o : Options) (table : Targets) (es : List MidiEvent)
        → drums ≡ keeps_drums o (events_on port es) → parts_with_notes o (events_on port es) ≡ part ∷ []
        → CountsOf o (only part) table es port counter.now
        → IfOk result (λ zones. AreZones o table es port zones.items) }
    ensures fault { (o : Options) (table : Targets) (es : List MidiEvent)
        → drums ≡ keeps_drums o (events_on port es) → parts_with_notes o (events_on port es) ≡ part ∷ []
        → CountsOf o (only part) table es port counter.now
        → IfErr result (IsZoneFault o table es port) }
{
    need_laws();
    fewest_channels();
    one_zone(alloc, port, drums, part, counter)
}

/// The zones of a port on MPE of which two parts, by channel, have a note on, or its refusal: the one that needs more
/// has the lower zone, at equal needs the first.
pub(crate) fn zones_of(
    alloc: Global,
    port: u8,
    drums: bool,
    first: Channel,
    first_pairs: &Counter,
    second: Channel,
    second_pairs: &Counter,
) -> Result<Vec<ZonePlan>, PlanFault>
    ensures plan { (o : Options) (table : Targets) (es : List MidiEvent)
        → drums ≡ keeps_drums o (events_on port es)
        → parts_with_notes o (events_on port es) ≡ first ∷ second ∷ []
        → CountsOf o (only first) table es port first_pairs.now
        → CountsOf o (only second) table es port second_pairs.now
        → IfOk result (λ zones. AreZones o table es port zones.items) }
    ensures fault { (o : Options) (table : Targets) (es : List MidiEvent)
        → drums ≡ keeps_drums o (events_on port es)
        → parts_with_notes o (events_on port es) ≡ first ∷ second ∷ []
        → CountsOf o (only first) table es port first_pairs.now
        → CountsOf o (only second) table es port second_pairs.now
        → IfErr result (IsZoneFault o table es port) }
{
    need_laws();
    fewest_channels();
    if first_pairs.need < second_pairs.need {
        return two_zones(alloc, port, drums, second, second_pairs, first, first_pairs);
    }
    two_zones(alloc, port, drums, first, first_pairs, second, second_pairs)
}
