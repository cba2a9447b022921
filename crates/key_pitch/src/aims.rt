ghost use Rattle.std.specs.Prelude.{◌≡◌, ◌≤◌, ◌≤ℤ◌, ◌-ℤ◌, ℕ, pos, Option, IfSome};
ghost use Rattle.retune_model.specs.Table.{Bounds};
ghost use Rattle.key_pitch.specs.Views.{bounds_if};
ghost use Rattle.key_pitch.specs.Aims.{tuning_aim, bend_aim};

use crate::aim::Aim;
use crate::table::KeyTable;
use mt_base::Bracket;

/// Tables of the pitches of all keys, by the tick at which a note begins.
pub trait Aims {
    // the bounds of a key's pitch for a note that begins at a tick
    ghost table: { Self → ℕ → ℕ → Option Bounds };

    /// As for a table alone, for a note that begins at a tick.
    fn pitch(&self, key: u8, tick: u32) -> Option<Bracket>
        requires key { key ≤ 127 }
        ensures bounds { bounds_if result ≡ table self.now key tick }
        ensures order { IfSome result (λ b. b.lo.0 ≤ℤ b.hi.0) }
        ensures narrow { IfSome result (λ b. (b.hi.0 -ℤ b.lo.0) ≤ℤ pos 32000000) };

    /// As for a table alone, for a note that begins at a tick.
    fn mts_aim(&self, key: u8, tick: u32) -> Aim
        requires key { key ≤ 127 }
        ensures aim { result ≡ tuning_aim (table self.now key tick) };

    /// As for a table alone, for a note that begins at a tick.
    fn bend_aim(&self, key: u8, range: u8, tick: u32) -> Aim
        requires key { key ≤ 127 }
        requires range_some { 1 ≤ range }
        requires range_high { range ≤ 96 }
        ensures aim { result ≡ bend_aim range (table self.now key tick) };
}

impl Aims for KeyTable {
    ghost use Rattle.key_pitch.specs.Aims.{by_onset};

    ghost table = { by_onset };

    fn pitch(&self, key: u8, _tick: u32) -> Option<Bracket> {
        KeyTable::pitch(self, key)
    }

    fn mts_aim(&self, key: u8, _tick: u32) -> Aim {
        KeyTable::mts_aim(self, key)
    }

    fn bend_aim(&self, key: u8, range: u8, _tick: u32) -> Aim {
        KeyTable::bend_aim(self, key, range)
    }
}

impl Aims for &KeyTable {
    ghost use Rattle.key_pitch.specs.Aims.{by_onset};

    ghost table = { λ t. by_onset t.now };

    fn pitch(&self, key: u8, _tick: u32) -> Option<Bracket> {
        KeyTable::pitch(self, key)
    }

    fn mts_aim(&self, key: u8, _tick: u32) -> Aim {
        KeyTable::mts_aim(self, key)
    }

    fn bend_aim(&self, key: u8, range: u8, _tick: u32) -> Aim {
        KeyTable::bend_aim(self, key, range)
    }
}
