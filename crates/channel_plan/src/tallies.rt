ghost use Rattle.std.specs.Prelude.{◌≡◌, ℕ, suc, List, Option, Some, None, OnOk, option_copied, map, take};
ghost use Rattle.std.specs.List.{AllByRecursion};
ghost use Rattle.mt_base.specs.Midi.{MidiEvent};
ghost use Rattle.retune_model.specs.Options.{Options};
ghost use Rattle.retune_model.specs.Ports.{tick_to};
ghost use Rattle.retune_model.specs.Faults.{Targets};
ghost use Rattle.lifetimes.specs.Stands.{Stands, asked, table_in};
ghost use Rattle.channel_plan.specs.Counts.{IsTimed};
ghost use Rattle.channel_plan.specs.Tallies.{TallyStands, IsNext};
ghost use Rattle.channel_plan.specs.Surveys.{IsCounted, IsCountedBy, AreTallies, HasTally, HasTallyOf, IsPartBegun, counted_with, tally_in, is_same_part, key};

use crate::counter::Counter;
use crate::fault::Instant;
use crate::survey::Counted;
use crate::tally::Tally;
use key_pitch::Aims;
use lifetimes::{Begun, Change, Parts};
use mt_base::{Channel, Memory};
use plan_laws::counting_laws;
use std::alloc::Global;

/// Whether the same notes are counted: those of one part, or of all.
fn is_same_part(part: &Option<Channel>, other: &Option<Channel>) -> bool
    ensures { result ≡ is_same_part part.now other.now }
{
    match (part, other) {
        (None, None) => true,
        (Some(part), Some(other)) => part == other,
        _ => false,
    }
}

/// The tally of a port, or of a part of it.
pub(crate) fn find_tally<'a>(
    tallies: &'a [Tally],
    port: u8,
    part: &Option<Channel>,
) -> Option<&'a Tally>
    ensures { option_copied result ≡ tally_in tallies.now port part.now }
{
    match tallies {
        [first, rest @ ..] => {
            if first.port == port && is_same_part(&first.part, part) {
                Some(first)
            } else {
                find_tally(rest, port, part)
            }
        }
        [] => None,
    }
}

/// The notes with which a note of a channel is counted, where it is.
fn counted_with(counted: Counted, channel: Channel) -> Option<Option<Channel>>
    ensures { result ≡ counted_with counted channel }
{
    match counted {
        Counted::Nothing => None,
        Counted::Ports => Some(None),
        Counted::Parts => Some(Some(channel)),
    }
}

/// There is a tally of a port, or of a part of it, an empty one where there was none.
fn open_tally(
    alloc: Global,
    tallies: &mut Vec<Tally>,
    port: u8,
    part: Option<Channel>,
) -> Result<(), Memory>
    ensures stand { (o : Options) (table : Targets) (es : List MidiEvent) (k : ℕ)
        → IsCounted o part → AreTallies o table es k tallies.old.items
        → OnOk result (AreTallies o table es k tallies.new.items) }
    ensures there { OnOk result (HasTally tallies.new.items port (Some part)) }
{
    if find_tally(tallies.as_slice(), port, &part).is_none() {
        tallies.push(Tally {
            port,
            part,
            counter: Counter::new(alloc),
        })?;
    }
    Ok(())
}

/// There is a tally for a note that begins.
fn open(
    alloc: Global,
    counted: Counted,
    tallies: &mut Vec<Tally>,
    begun: &Option<Begun>,
) -> Result<(), Memory>
    ensures stand { (o : Options) (table : Targets) (es : List MidiEvent) (k : ℕ)
        → IsCountedBy o.route counted → IsPartBegun o begun.now
        → AreTallies o table es k tallies.old.items
        → OnOk result (AreTallies o table es k tallies.new.items) }
    ensures there { OnOk result (HasTallyOf counted tallies.new.items begun.now) }
{
    match begun {
        Some(note) => match counted_with(counted, note.pair.part.channel) {
            Some(part) => open_tally(alloc, tallies, note.pair.part.port, part),
            None => Ok(()),
        },
        None => Ok(()),
    }
}

/// Each tally goes on by the event that the parts took last.
fn go_on<T: Aims>(
    tallies: &mut [Tally],
    parts: &Parts<T>,
    change: &Change,
    instant: Instant,
) -> Result<(), Memory>
    ensures stand { (es : List MidiEvent) (k : ℕ) (e : MidiEvent)
        → Stands (T.table (table_in parts.now)) parts.now (take (suc k) es)
        → IsNext (asked parts.now) (T.table (table_in parts.now)) es k e change.now
        → instant.position ≡ suc k → IsTimed (tick_to es) instant
        → AllByRecursion (TallyStands (asked parts.now) (T.table (table_in parts.now)) es k)
        tallies.old
        → OnOk result (AllByRecursion (TallyStands (asked parts.now)
        (T.table (table_in parts.now)) es (suc k)) tallies.new) }
    ensures keys { map key tallies.new ≡ map key tallies.old }
{
    let mut place = 0;
    while place < tallies.len() {
        tallies[place].next(parts, change, instant)?;
        place += 1;
    }
    Ok(())
}

/// All that is counted goes on by the event that the parts took last.
pub(crate) fn count_all<T: Aims>(
    alloc: Global,
    counted: Counted,
    tallies: &mut Vec<Tally>,
    parts: &Parts<T>,
    change: &Change,
    instant: Instant,
) -> Result<(), Memory>
    ensures { (es : List MidiEvent) (k : ℕ) (e : MidiEvent)
        → Stands (T.table (table_in parts.now)) parts.now (take (suc k) es)
        → IsNext (asked parts.now) (T.table (table_in parts.now)) es k e change.now
        → instant.position ≡ suc k → IsTimed (tick_to es) instant
        → IsCountedBy (asked parts.now).route counted
        → AreTallies (asked parts.now) (T.table (table_in parts.now)) es k tallies.old.items
        → OnOk result (AreTallies (asked parts.now) (T.table (table_in parts.now)) es (suc k)
        tallies.new.items) }
{
    counting_laws();
    open(alloc, counted, tallies, &change.begun)?;
    go_on(tallies.as_mut_slice(), parts, change, instant)
}
