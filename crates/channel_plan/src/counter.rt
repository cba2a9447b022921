ghost use Rattle.std.specs.Prelude.{◌≡◌, ◌≤◌, ◌<◌, ℕ, suc, List, [], length, map, filter, true, false, IsTrue, OnOk, slice_index, ◌||◌};
ghost use Rattle.mt_base.specs.Midi.{MidiEvent};
ghost use Rattle.retune_model.specs.Pairs.{Pair as PairOf, is_before, is_same_pair, with_pair};
ghost use Rattle.lifetimes.specs.Views.{pair_of};
ghost use Rattle.retune_model.specs.Options.{bends_notes};
ghost use Rattle.lifetimes.specs.Stands.{Stands, asked, table_in};
ghost use Rattle.lifetimes.specs.Told.{is_held};
ghost use Rattle.plan_laws.specs.Counting.{with_each};
ghost use Rattle.channel_plan.specs.Counts.{Counts, IsCounting, IsEmpty, IsTimed, pairs_in, pairs_begun, place_in, IsKept};
ghost use Rattle.std.specs.Set.{is_member};

use crate::fault::Instant;
use key_pitch::Aims;
use lifetimes::Parts;
use mt_base::{Memory, Pair};
use receiver::Ends;
use std::alloc::Global;

/// The pairs that there are at a position, and where there were most so far.
#[derive(Debug, Drop)]
pub(crate) struct Counter {
    alloc: Global,
    /// By part and then by steps, none twice.
    pub pairs: Vec<Pair>,
    /// The greatest number of pairs so far.
    pub need: u32,
    /// The first position with so many.
    pub instant: Instant,
    /// The pairs then.
    pub witness: Vec<Pair>,
}

/// The order of pairs: by part, which is by port and then by channel, then by steps.
fn comes_before(pair: &Pair, other: &Pair) -> bool
    ensures { result ≡ is_before (pair_of pair.now) (pair_of other.now) }
{
    let (part, other_part) = (pair.part, other.part);
    (part.port, part.channel.number(), pair.steps)
        < (other_part.port, other_part.channel.number(), other.steps)
}

/// Whether a pair stands before another in a list, or is it.
fn stands_before(pair: &Pair, other: &Pair) -> bool
    ensures { result ≡ (is_before (pair_of pair.now) (pair_of other.now)
        || is_same_pair (pair_of pair.now) (pair_of other.now)) }
{
    comes_before(pair, other) || pair == other
}

/// The place that a pair has in a list, or would have.
fn place_of(pairs: &[Pair], pair: &Pair) -> usize
    ensures place { result ≡ place_in (pair_of pair.now) (map pair_of pairs.now) }
    ensures bound { result ≤ length pairs.now }
{
    let mut place = 0;
    while place < pairs.len() {
        if stands_before(pair, &pairs[place]) {
            return place;
        }
        place += 1;
    }
    place
}

/// Whether no note ended.
pub(crate) fn ends_none(ended: &Ends) -> bool
    ensures { IsTrue result → (c : ℕ) → slice_index ended.now.keys c ≡ 0 }
{
    let mut channel = 0;
    while channel < 16 {
        if ended.keys[channel] != 0 {
            return false;
        }
        channel += 1;
    }
    true
}

/// Whether a pair still sounds or rests. Where notes don't rest, only those of a channel of which
/// a note ended have to be asked for.
pub(crate) fn stays<T: Aims>(parts: &Parts<T>, ended: &Ends, rests: bool, pair: &Pair) -> bool
    ensures { (es : List MidiEvent) → Stands (T.table (table_in parts.now)) parts.now es
        → bends_notes (asked parts.now).route ≡ true
        → (rests ≡ false → IsKept ended.now (is_held (asked parts.now)
        (T.table (table_in parts.now)) es) (pair_of pair.now))
        → result ≡ is_held (asked parts.now) (T.table (table_in parts.now)) es
        (pair_of pair.now) }
{
    let channel = pair.part.channel.number();
    if !rests && ended.keys[channel as usize] == 0 {
        return true;
    }
    parts.holds(pair)
}

/// Keeps the pairs that still sound or rest.
pub(crate) fn keep<T: Aims>(pairs: &mut Vec<Pair>, parts: &Parts<T>, ended: &Ends, rests: bool)
    ensures { (es : List MidiEvent) → Stands (T.table (table_in parts.now)) parts.now es
        → bends_notes (asked parts.now).route ≡ true
        → (rests ≡ false → (p : PairOf)
        → is_member is_same_pair (map pair_of pairs.old.items) p ≡ true
        → IsKept ended.now (is_held (asked parts.now) (T.table (table_in parts.now)) es) p)
        → map pair_of pairs.new.items
        ≡ filter (is_held (asked parts.now) (T.table (table_in parts.now)) es)
        (map pair_of pairs.old.items) }
{
    // Most events end no note. All pairs stay then, and none has to be looked at.
    if !rests && ends_none(ended) {
        return;
    }
    let mut kept = 0;
    let mut next = 0;
    while next < pairs.len() {
        let pair = pairs[next];
        if stays(parts, ended, rests, &pair) {
            pairs[kept] = pair;
            kept += 1;
        }
        next += 1;
    }
    pairs.truncate(kept);
}

impl Counter {
    /// Before the first event there is no pair.
    pub fn new(alloc: Global) -> Counter
        ensures counts { (at : ℕ → List PairOf) → at 0 ≡ [] → Counts at 0 result }
        ensures empty { IsEmpty result }
    {
        Counter {
            alloc,
            pairs: Vec::new(alloc),
            need: 0,
            instant: Instant {
                position: 0,
                tick: 0,
            },
            witness: Vec::new(alloc),
        }
    }

    /// A pair is there from now on, if it wasn't.
    pub fn add(&mut self, pair: &Pair) -> Result<(), Memory>
        ensures pairs { OnOk result
            (pairs_in self.new ≡ with_pair (pair_of pair.now) (pairs_in self.old)) }
        ensures fewer { length self.new.pairs.items ≤ suc (length self.old.pairs.items) }
        ensures timed { (tick : ℕ → ℕ) → IsTimed tick self.old.instant
            → IsTimed tick self.new.instant }
        ensures most { (at : ℕ → List PairOf) (k : ℕ) → IsCounting at k self.old
            → IsCounting at k self.new }
    {
        let place = place_of(self.pairs.as_slice(), pair);
        if place == self.pairs.len() || comes_before(pair, &self.pairs[place]) {
            self.pairs.insert(place, *pair)?;
        }
        Ok(())
    }

    /// The pair that begins, where one does, is there from now on.
    fn begin(&mut self, begun: Option<Pair>) -> Result<(), Memory>
        ensures pairs { OnOk result
            (pairs_in self.new ≡ with_each (pairs_begun begun) (pairs_in self.old)) }
        ensures most { (at : ℕ → List PairOf) (k : ℕ) → IsCounting at k self.old
            → IsCounting at k self.new }
        ensures timed { (tick : ℕ → ℕ) → IsTimed tick self.old.instant
            → IsTimed tick self.new.instant }
    {
        match begun {
            Some(pair) => self.add(&pair),
            None => Ok(()),
        }
    }

    /// The pairs are those of the next position. More than fit in a `u32` are want of memory.
    pub fn count(&mut self, instant: Instant) -> Result<(), Memory>
        ensures counts { (at : ℕ → List PairOf) (k : ℕ) → IsCounting at k self.old
            → instant.position ≡ suc k → pairs_in self.old ≡ at (suc k)
            → OnOk result (Counts at (suc k) self.new) }
        ensures pairs { self.new.pairs.items ≡ self.old.pairs.items }
        ensures timed { (tick : ℕ → ℕ) → IsTimed tick self.old.instant → IsTimed tick instant
            → OnOk result (IsTimed tick self.new.instant) }
    {
        if self.pairs.len() > 4_294_967_295 {
            return Err(Memory);
        }
        if self.pairs.len() > self.need as usize {
            self.witness = Vec::from_slice(self.alloc, self.pairs.as_slice())?;
            self.need = self.pairs.len() as u32;
            self.instant = instant;
        }
        Ok(())
    }

    /// Goes on to the next position, with the pair that begins.
    pub fn next(&mut self, begun: Option<Pair>, instant: Instant) -> Result<(), Memory>
        ensures counts { (at : ℕ → List PairOf) (k : ℕ) → IsCounting at k self.old
            → instant.position ≡ suc k
            → at (suc k) ≡ with_each (pairs_begun begun) (pairs_in self.old)
            → OnOk result (Counts at (suc k) self.new) }
        ensures timed { (tick : ℕ → ℕ) → IsTimed tick self.old.instant → IsTimed tick instant
            → OnOk result (IsTimed tick self.new.instant) }
    {
        self.begin(begun)?;
        self.count(instant)
    }
}
