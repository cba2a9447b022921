ghost use Rattle.key_pitch.specs.InForce.{IsTimeline, ticks_of};

use crate::aim::Aim;
use crate::aims::Aims;
use crate::table::KeyTable;
use mt_base::Bracket;

/// Tables, each with the tick from which it holds: the first one at tick 0, the others at later ticks in
/// order. A note has the pitch of the last table whose tick isn't after the one at which it begins.
#[derive(Clone, Copy, Debug)]
pub struct TablesByTick<'a> {
    entries: &'a [(u32, KeyTable)],
    pub ghost timeline: { IsTimeline (ticks_of entries.now) },
}

impl<'a> TablesByTick<'a> {
    ghost use Rattle.std.specs.Prelude.{◌≡◌, Some};
    ghost use Rattle.key_pitch.specs.InForce.{in_force};
    ghost use Rattle.key_pitch.specs.ByTick.{entries_of};

    /// Tables by the ticks at their sides, the first of which has to be 0 and each other one above the one
    /// before it. It takes no memory.
    pub fn new(entries: &'a [(u32, KeyTable)]) -> TablesByTick<'a>
        requires timeline { IsTimeline (ticks_of entries.now) }
        ensures entries { entries_of result ≡ entries.entry.now }
    {
        TablesByTick { entries }
    }

    // The table in force at a tick.
    fn at(&self, tick: u32) -> &'a KeyTable
        ensures { in_force tick (entries_of self.now) ≡ Some result.now }
    {
        let begun = self.entries.partition_point(|entry| entry.0 <= tick);
        &self.entries[begun - 1].1
    }
}

impl Aims for TablesByTick<'_> {
    ghost use Rattle.key_pitch.specs.ByTick.{entries_of, by_entries};

    ghost table = { λ t. by_entries (entries_of t) };

    fn pitch(&self, key: u8, tick: u32) -> Option<Bracket> {
        self.at(tick).pitch(key)
    }

    fn mts_aim(&self, key: u8, tick: u32) -> Aim {
        self.at(tick).mts_aim(key)
    }

    fn bend_aim(&self, key: u8, range: u8, tick: u32) -> Aim {
        self.at(tick).bend_aim(key, range)
    }
}
