ghost use Rattle.key_pitch.specs.Tables.{AreNarrow};

use crate::aim::Aim;
use crate::fault::TuneFault;
use crate::keys::{above_middle, bounds};
use crate::nearest::{nearest_key, nearest_steps};
use kbm_text::Mapping;
use mt_base::Bracket;
use scl_text::Scale;

/// The bounds of the pitch of each key, from 0 to 127.
#[derive(Clone, Copy, Debug)]
pub struct KeyTable {
    pitches: [Option<Bracket>; 128],
    pub ghost narrow: { AreNarrow pitches },
}

impl KeyTable {
    ghost use Rattle.std.specs.Prelude.{◌≡◌, ◌≢◌, ◌≤◌, ◌≤ℤ◌, ◌-ℤ◌, pos, None};
    ghost use Rattle.std.specs.Prelude.{IfSome, IfOk, IfErr};
    ghost use Rattle.retune_model.specs.Scale.{above_middle};
    ghost use Rattle.retune_model.specs.Table.{IsTable, AreFewTerms, one_scale};
    ghost use Rattle.key_pitch.specs.Views.{bounds_if};
    ghost use Rattle.key_pitch.specs.Causes.{Refuses};
    ghost use Rattle.key_pitch.specs.Aims.{table_of, by_onset, tuning_aim, bend_aim};

    /// The table of a scale and a mapping. Refused where the mapping leaves out the reference key, and
    /// where a key is a sum of more than 1,700 ratios: the least such key is named.
    pub fn new(scale: &Scale, mapping: &Mapping) -> Result<KeyTable, TuneFault>
        ensures table { IfOk result (λ t. IsTable (one_scale scale.now mapping.now) (by_onset t)) }
        ensures few { IfOk result (λ t. AreFewTerms (one_scale scale.now mapping.now)) }
        ensures mapped { IfOk result
            (λ t. above_middle scale.now mapping.now mapping.now.reference ≢ None) }
        ensures cause { IfErr result (Refuses scale.now mapping.now) }
    {
        let Some(tuned) = above_middle(scale, mapping, mapping.reference) else {
            return Err(TuneFault::ReferenceUnmapped {
                key: mapping.reference,
            });
        };
        let mut pitches = [None; 128];
        for key in 0..128u8 {
            pitches[key as usize] = bounds(scale, mapping, tuned, key)?;
        }
        Ok(KeyTable { pitches })
    }

    /// The bounds of the pitch of a key of at most 127, at most a thousandth of a cent apart. None where
    /// the mapping leaves the key out.
    pub fn pitch(&self, key: u8) -> Option<Bracket>
        requires key { key ≤ 127 }
        ensures bounds { bounds_if result ≡ table_of self.now key }
        ensures order { IfSome result (λ b. b.lo.0 ≤ℤ b.hi.0) }
        ensures narrow { IfSome result (λ b. (b.hi.0 -ℤ b.lo.0) ≤ℤ pos 32000000) }
    {
        self.pitches[key as usize]
    }

    /// What a tuning message is to tell of a key of at most 127.
    pub fn mts_aim(&self, key: u8) -> Aim
        requires key { key ≤ 127 }
        ensures aim { result ≡ tuning_aim (table_of self.now key) }
    {
        let Some(bracket) = self.pitches[key as usize] else {
            return Aim::Unmapped;
        };
        let value = (bracket.lo.0 + 97_656_250).div_euclid(195_312_500);
        if value < 0 || 2_097_150 < value {
            return Aim::OutOfDevice;
        }
        Aim::Mts {
            value: value as u32,
        }
    }

    /// What a bend is to tell of a key of at most 127, at a sensitivity of 1 to 96 semitones.
    pub fn bend_aim(&self, key: u8, range: u8) -> Aim
        requires key { key ≤ 127 }
        requires range_some { 1 ≤ range }
        requires range_high { range ≤ 96 }
        ensures aim { result ≡ bend_aim range (table_of self.now key) }
    {
        let Some(bracket) = self.pitches[key as usize] else {
            return Aim::Unmapped;
        };
        let nearest = nearest_key(bracket.lo.0);
        if nearest < 0 || 127 < nearest {
            return Aim::OutOfDevice;
        }
        let key = nearest as u8;
        let steps = nearest_steps(range, bracket.lo.0, key);
        Aim::Bend { key, steps }
    }
}
