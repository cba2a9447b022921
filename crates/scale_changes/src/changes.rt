ghost use Rattle.std.specs.Prelude.{◌≤◌, length};
ghost use Rattle.key_pitch.specs.InForce.{IsTimeline, ticks_of};

use key_pitch::{Aim, Aims, KeyTable, TablesByTick, in_force_laws};
use mt_base::{Bracket, Memory};
use std::alloc::Global;

/// Tables of the pitches of all keys, each with the tick from which it holds: the first one from tick 0
/// on, and at most 16 others at later ticks in order. A note has the pitch of the last table whose tick
/// isn't after the one at which it begins.
#[derive(Debug, Drop)]
pub struct Changes {
    tables: Vec<(u32, KeyTable)>,
    pub ghost timeline: { IsTimeline (ticks_of tables.items) },
    pub ghost few: { length tables.items ≤ 17 },
}

impl Changes {
    ghost use Rattle.std.specs.Prelude.{◌≡◌, ◌<◌, ◌-◌, ◌++◌, ◌∷◌, [], slice_index};
    ghost use Rattle.std.specs.Prelude.{IfOk, OnOk, OnErr};
    ghost use Rattle.key_pitch.specs.ByTick.{entries_of};
    ghost use Rattle.scale_changes.specs.Tables.{tables_of, last_from};

    /// One table, from tick 0 on.
    pub fn new(alloc: Global, first: KeyTable) -> Result<Changes, Memory>
        ensures { IfOk result (λ changes. tables_of changes ≡ (0, first) ∷ []) }
    {
        in_force_laws();
        let mut tables = Vec::new(alloc);
        tables.push((0, first))?;
        Ok(Changes { tables })
    }

    /// One more table, from a tick above the last one on. Where memory runs out, nothing changes.
    pub fn push(&mut self, from: u32, table: KeyTable) -> Result<(), Memory>
        requires above { last_from (tables_of self.old) < from }
        requires few { length (tables_of self.old) < 17 }
        ensures pushed { OnOk result
            (tables_of self.new ≡ tables_of self.old ++ (from, table) ∷ []) }
        ensures same { OnErr result (tables_of self.new ≡ tables_of self.old) }
    {
        in_force_laws();
        self.tables.push((from, table))?;
        Ok(())
    }

    // The same tables, to be asked by tick.
    fn by_tick(&self) -> TablesByTick<'_>
        ensures { entries_of result ≡ tables_of self.now }
    {
        TablesByTick::new(&self.tables)
    }
}

impl Aims for Changes {
    ghost use Rattle.key_pitch.specs.ByTick.{by_entries};
    ghost use Rattle.scale_changes.specs.Tables.{tables_of};

    ghost table = { λ changes. by_entries (tables_of changes) };

    fn pitch(&self, key: u8, tick: u32) -> Option<Bracket> {
        self.by_tick().pitch(key, tick)
    }

    fn mts_aim(&self, key: u8, tick: u32) -> Aim {
        self.by_tick().mts_aim(key, tick)
    }

    fn bend_aim(&self, key: u8, range: u8, tick: u32) -> Aim {
        self.by_tick().bend_aim(key, range, tick)
    }
}

impl Aims for &Changes {
    ghost use Rattle.key_pitch.specs.ByTick.{by_entries};
    ghost use Rattle.scale_changes.specs.Tables.{tables_of};

    ghost table = { λ changes. by_entries (tables_of changes.now) };

    fn pitch(&self, key: u8, tick: u32) -> Option<Bracket> {
        Changes::pitch(self, key, tick)
    }

    fn mts_aim(&self, key: u8, tick: u32) -> Aim {
        Changes::mts_aim(self, key, tick)
    }

    fn bend_aim(&self, key: u8, range: u8, tick: u32) -> Aim {
        Changes::bend_aim(self, key, range, tick)
    }
}
