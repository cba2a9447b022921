ghost use Rattle.std.specs.Prelude.{◌≡◌, ℕ, suc, List, take, filter, OnOk};
ghost use Rattle.mt_base.specs.Midi.{MidiEvent};
ghost use Rattle.retune_model.specs.Ports.{tick_to};
ghost use Rattle.retune_model.specs.Pairs.{Pair as PairOf};
ghost use Rattle.lifetimes.specs.Told.{is_held};
ghost use Rattle.lifetimes.specs.Stands.{Stands, asked, table_in};

use crate::counter::{Counter, keep};
use crate::fault::Instant;
use crate::staying::staying;
use key_pitch::Aims;
use lifetimes::{Begun, Change, Parts};
use mt_base::{Channel, Memory, Pair};
use plan_laws::{counting_laws, taken_laws};

/// The count of a port's pairs, or of those of one of its parts.
#[derive(Debug, Drop)]
pub(crate) struct Tally {
    pub port: u8,
    /// The part, where parts are counted one by one.
    pub part: Option<Channel>,
    pub counter: Counter,
}

impl Tally {
    ghost use Rattle.channel_plan.specs.Counts.{IsCounting, IsTimed, pairs_in};
    ghost use Rattle.channel_plan.specs.Tallies.{TallyStands, IsNext, serves, begun_for};

    /// Whether the notes of a channel of the port are counted here.
    fn serves(&self, channel: Channel) -> bool
        ensures { result ≡ serves self.now.part channel }
    {
        match self.part {
            Some(part) => channel == part,
            None => true,
        }
    }

    /// The pair of a note that begins, where it is counted here.
    fn begun_pair(&self, begun: &Option<Begun>) -> Option<Pair>
        ensures { result ≡ begun_for self.now.port self.now.part begun.now }
    {
        match begun {
            Some(note) => {
                if note.pair.part.port == self.port && self.serves(note.pair.part.channel) {
                    Some(note.pair)
                } else {
                    None
                }
            }
            None => None,
        }
    }

    /// The pairs that no longer sound or rest go.
    fn leave<T: Aims>(&mut self, parts: &Parts<T>, change: &Change)
        ensures pairs { (es : List MidiEvent) (k : ℕ) (e : MidiEvent)
            → Stands (T.table (table_in parts.now)) parts.now (take (suc k) es)
            → IsNext (asked parts.now) (T.table (table_in parts.now)) es k e change.now
            → TallyStands (asked parts.now) (T.table (table_in parts.now)) es k self.old
            → pairs_in self.new.counter ≡ filter (is_held (asked parts.now)
            (T.table (table_in parts.now)) (take (suc k) es)) (pairs_in self.old.counter) }
        ensures most { (at : ℕ → List PairOf) (k : ℕ) → IsCounting at k self.old.counter
            → IsCounting at k self.new.counter }
        ensures instant { self.new.counter.instant ≡ self.old.counter.instant }
        ensures port { self.new.port ≡ self.old.port }
        ensures part { self.new.part ≡ self.old.part }
    {
        taken_laws();
        counting_laws();
        staying();
        let rests = parts.options().tail > 0;
        if rests || self.port == change.port {
            keep(&mut self.counter.pairs, parts, &change.ended, rests);
        }
    }

    /// Goes on by the event that the parts took last, which is the last of so many.
    pub fn next<T: Aims>(
        &mut self,
        parts: &Parts<T>,
        change: &Change,
        instant: Instant,
    ) -> Result<(), Memory>
        ensures stands { (es : List MidiEvent) (k : ℕ) (e : MidiEvent)
            → Stands (T.table (table_in parts.now)) parts.now (take (suc k) es)
            → IsNext (asked parts.now) (T.table (table_in parts.now)) es k e change.now
            → instant.position ≡ suc k → IsTimed (tick_to es) instant
            → TallyStands (asked parts.now) (T.table (table_in parts.now)) es k self.old
            → OnOk result (TallyStands (asked parts.now) (T.table (table_in parts.now)) es (suc k)
            self.new) }
        ensures port { self.new.port ≡ self.old.port }
        ensures part { self.new.part ≡ self.old.part }
    {
        counting_laws();
        let begun = self.begun_pair(&change.begun);
        self.leave(parts, change);
        self.counter.next(begun, instant)
    }
}
