ghost use Rattle.std.specs.Prelude.{◌≡◌, ◌<◌, ℕ, suc, List, [], true, false, length, take, IfOk, IfSome, IfNone};
ghost use Rattle.mt_base.specs.Midi.{MidiEvent};
ghost use Rattle.retune_model.specs.Options.{Options, bends_notes};
ghost use Rattle.retune_model.specs.Ports.{port_at, of_port, is_reset_at};
ghost use Rattle.retune_model.specs.Faults.{Targets, is_part};
ghost use Rattle.retune_model.specs.Pairs.{is_same_pair};
ghost use Rattle.retune_model.specs.Rests.{begun_at};
ghost use Rattle.retune_model.specs.Runs.{begins};
ghost use Rattle.retune_model.specs.PortNeed.{IsNeedOf};
ghost use Rattle.lifetimes.specs.Views.{pair_of};
ghost use Rattle.lifetimes.specs.Told.{TellsEnds};
ghost use Rattle.lifetimes.specs.Stands.{Stands, asked, table_in};
ghost use Rattle.plan_laws.specs.Placing.{nowhere};
ghost use Rattle.plan_laws.specs.PlacingLaws.{AllAreNowhere};
ghost use Rattle.plan_laws.specs.Counting.{ComesAt};
ghost use Rattle.channel_plan.specs.Passing.{channels_in};
ghost use Rattle.channel_plan.specs.Seeing.{seen, all_seen, runs_in};
ghost use Rattle.channel_plan.specs.Stepping.{pairs_by, IsUsedOf, StandsAt, StandsLeft};
ghost use Rattle.channel_plan.specs.Stepping.{IsKept, BeginsOn, AgreesWith, IsPlaced};

use crate::choice::{Place, choose};
use crate::places::{begin, clear_all, keep_all, keeps_before, leave_all, needed, place_of};
use crate::rows::Row;
use crate::staying::staying;
use key_pitch::Aims;
use lifetimes::Parts;
use mt_base::{Channel, Memory, Pair};
use plan_laws::{counting_laws, row_laws, taken_laws};
use receiver::{ChannelState, Ends};
use std::alloc::Global;

/// The channels of a port, or of a zone of it, that its runs are given, with what is kept of each.
#[derive(Drop)]
pub(crate) struct Used {
    pub port: u8,
    /// The zone's part on MPE; None on bend, where the runs are those of all parts.
    pub part: Option<Channel>,
    /// In the order in which they are taken.
    pub channels: Row,
    /// One for each channel.
    pub places: Vec<Place>,
}

/// What a note that begins is given: the place of its run in the row, and the run's number. A run
/// may begin with it.
#[derive(Clone, Copy, Debug)]
pub(crate) struct Placed {
    pub place: usize,
    pub run: u32,
    pub is_new: bool,
}

/// A free place, at the default state.
fn free_place() -> Place
    ensures { seen result ≡ nowhere }
{
    Place {
        pair: None,
        left: ChannelState::new(),
        since: 0,
        run: 0,
    }
}

/// So many free places.
fn free_places(alloc: Global, count: usize) -> Result<Vec<Place>, Memory>
    ensures { IfOk result (λ places. (length places.items ≡ count)
        × AllAreNowhere (all_seen places.items)) }
{
    let mut places = Vec::new(alloc);
    let mut made = 0;
    while made < count {
        places.push(free_place())?;
        made += 1;
    }
    Ok(places)
}

impl Used {
    /// A row before any event: all places are free.
    pub fn new(
        alloc: Global,
        port: u8,
        part: Option<Channel>,
        channels: Row,
    ) -> Result<Used, Memory>
        ensures port { IfOk result (λ used. used.port ≡ port) }
        ensures part { IfOk result (λ used. used.part ≡ part) }
        ensures channels { IfOk result (λ used. used.channels.items ≡ channels.items) }
        ensures places { IfOk result (λ used. length used.places.items ≡ length channels.items) }
        ensures first { IfOk result (λ used. (o : Options) (table : Targets) (es : List MidiEvent)
            (row number : ℕ → ℕ)
            → IsUsedOf o table es used → StandsAt o table es row number 0 used) }
    {
        row_laws();
        let places = free_places(alloc, channels.len())?;
        Ok(Used {
            port,
            part,
            channels,
            places,
        })
    }

    /// Before an event: where notes rest, the states of the places whose pairs only rest are kept,
    /// since the rests may run out at the event. The parts are those before it.
    pub fn keep<T: Aims>(&mut self, parts: &Parts<T>)
        requires bends { bends_notes (asked parts.now).route ≡ true }
        ensures kept { (es : List MidiEvent) (row number : ℕ → ℕ) (k : ℕ)
            → Stands (T.table (table_in parts.now)) parts.now (take k es)
            → IsUsedOf (asked parts.now) (T.table (table_in parts.now)) es self.old
            → StandsAt (asked parts.now) (T.table (table_in parts.now)) es row number k self.old
            → IsKept (asked parts.now) (T.table (table_in parts.now)) es row number k self.new }
        ensures port { self.new.port ≡ self.old.port }
        ensures part { self.new.part ≡ self.old.part }
        ensures channels { self.new.channels ≡ self.old.channels }
        ensures runs { runs_in self.new.places.items ≡ runs_in self.old.places.items }
    {
        row_laws();
        if keeps_before(&parts.options()) {
            keep_all(self.places.as_mut_slice(), parts);
        }
    }

    /// After an event, the parts with it, by which these notes ended: the places of the pairs that
    /// are gone are freed, or all, where it is a reset of the port.
    pub fn free<T: Aims>(&mut self, parts: &Parts<T>, ended: &Ends, resets: bool, position: u32)
        requires bends { bends_notes (asked parts.now).route ≡ true }
        ensures left { (es : List MidiEvent) (row number : ℕ → ℕ) (k : ℕ) (e : MidiEvent)
            → position ≡ suc k
            → Stands (T.table (table_in parts.now)) parts.now (take (suc k) es)
            → IsUsedOf (asked parts.now) (T.table (table_in parts.now)) es self.old → ComesAt es k e
            → TellsEnds (asked parts.now) (take k es) e ended.now
            → IsKept (asked parts.now) (T.table (table_in parts.now)) es row number k self.old
            → is_reset_at (of_port self.old.port es) (suc k) ≡ resets → resets ≡ false
            → StandsLeft (asked parts.now) (T.table (table_in parts.now)) es row number k self.new }
        ensures stays { (es : List MidiEvent) (row number : ℕ → ℕ) (k : ℕ) (e : MidiEvent)
            → position ≡ suc k
            → Stands (T.table (table_in parts.now)) parts.now (take (suc k) es)
            → IsUsedOf (asked parts.now) (T.table (table_in parts.now)) es self.old → ComesAt es k e
            → TellsEnds (asked parts.now) (take k es) e ended.now
            → IsKept (asked parts.now) (T.table (table_in parts.now)) es row number k self.old
            → is_reset_at (of_port self.old.port es) (suc k) ≡ resets
            → begun_at (asked parts.now) (channels_in (asked parts.now) self.old.part)
            (T.table (table_in parts.now))
            (port_at es self.old.port) (suc k) ≡ []
            → StandsAt (asked parts.now) (T.table (table_in parts.now)) es row number
            (suc k) self.new }
        ensures port { self.new.port ≡ self.old.port }
        ensures part { self.new.part ≡ self.old.part }
        ensures channels { self.new.channels ≡ self.old.channels }
        ensures runs { runs_in self.new.places.items ≡ runs_in self.old.places.items }
    {
        row_laws();
        taken_laws();
        counting_laws();
        staying();
        if resets {
            clear_all(self.places.as_mut_slice(), position);
        } else {
            let rests = parts.options().tail > 0;
            leave_all(self.places.as_mut_slice(), parts, ended, rests, position);
        }
    }

    /// Gives a note of a pair that begins the place of the pair's run, or else the best of the free
    /// ones, for a new run with the next number. The parts are those with the event. None only
    /// where the row is shorter than is needed.
    pub fn give<T: Aims>(&mut self, parts: &Parts<T>, pair: &Pair, next: u32) -> Option<Placed>
        requires bends { bends_notes (asked parts.now).route ≡ true }
        requires part { is_part (asked parts.now) (pair.now.part.channel) ≡ true }
        ensures within { IfSome result (λ x. x.place < length self.old.places.items) }
        ensures next { IfSome result (λ x. x.is_new ≡ true → x.run ≡ next) }
        ensures begins { IfSome result (λ x. (es : List MidiEvent)
            (row number : ℕ → ℕ) (k : ℕ) (e : MidiEvent)
            → Stands (T.table (table_in parts.now)) parts.now (take (suc k) es)
            → BeginsOn (asked parts.now) (T.table (table_in parts.now)) es row number k e
            (pair_of pair.now) self.old
            → begins is_same_pair
            (pairs_by (asked parts.now) (T.table (table_in parts.now)) es self.old) k
            (pair_of pair.now)
            ≡ x.is_new) }
        ensures placed { IfSome result (λ x. (es : List MidiEvent)
            (row number : ℕ → ℕ) (k : ℕ) (e : MidiEvent)
            → Stands (T.table (table_in parts.now)) parts.now (take (suc k) es)
            → BeginsOn (asked parts.now) (T.table (table_in parts.now)) es row number k e
            (pair_of pair.now) self.old
            → AgreesWith row number k x
            → IsPlaced (asked parts.now) (T.table (table_in parts.now)) es row number k
            (pair_of pair.now) x self.new) }
        ensures none { IfNone result ((es : List MidiEvent)
            (row number : ℕ → ℕ) (k instant : ℕ) (e : MidiEvent)
            → Stands (T.table (table_in parts.now)) parts.now (take (suc k) es)
            → BeginsOn (asked parts.now) (T.table (table_in parts.now)) es row number k e
            (pair_of pair.now) self.old
            → IsNeedOf (asked parts.now) (channels_in (asked parts.now) self.old.part)
            (T.table (table_in parts.now)) es
            self.old.port (length self.old.places.items) instant → ⊥) }
        ensures port { self.new.port ≡ self.old.port }
        ensures part { self.new.part ≡ self.old.part }
        ensures channels { self.new.channels ≡ self.old.channels }
        ensures length { length self.new.places.items ≡ length self.old.places.items }
    {
        row_laws();
        if let Some(place) = place_of(self.places.as_slice(), pair) {
            return Some(Placed {
                place,
                run: self.places[place].run,
                is_new: false,
            });
        }
        match choose(self.places.as_slice(), &needed(parts, pair)) {
            Some(place) => {
                begin(self.places.as_mut_slice(), place, pair, next);
                Some(Placed {
                    place,
                    run: next,
                    is_new: true,
                })
            }
            None => None,
        }
    }
}
