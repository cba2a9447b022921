ghost use Rattle.std.specs.Prelude.{◌≡◌, ◌<◌, ◌≤◌, ◌≤ℤ◌, ◌^◌, ℕ, Some, pos, neg_ℤ};
ghost use Rattle.midi_model.specs.Played.{by_program};
ghost use Rattle.midi_model.specs.Tuning.{Tuning};
ghost use Rattle.receiver.specs.Tunings.{value_in};

use crate::state::ChannelState;
use crate::tunings::Tunings;

/// The pitch of a key by the tuning program that is selected, in grains above key 0: the value that
/// the key has there, in steps of 1/16384 semitone, else that of equal temperament.
pub(crate) fn by_program(tunings: &Tunings, program: Option<u8>, key: u8) -> i128
    requires program { (v : ℕ) → program ≡ Some v → v ≤ 127 }
    requires key { key < 128 }
    ensures pitch { (s : Tuning)
        → ((p k : ℕ) → p < 128 → k < 128 → value_in tunings.now p k ≡ s.values p k)
        → result ≡ by_program s program key }
    ensures low { neg_ℤ (pos (2 ^ 64)) ≤ℤ result }
    ensures high { result ≤ℤ pos (2 ^ 64) }
{
    if let Some(program) = program {
        if let Some(value) = tunings.value(program, key) {
            return value as i128 * 195_312_500;
        }
    }
    key as i128 * 3_200_000_000_000
}

impl ChannelState {
    ghost use Rattle.midi_model.specs.Played.{fine, coarse, bent};
    ghost use Rattle.receiver.specs.State.{own_of};

    /// Fine tuning, RPN 1, in grains: 100 cents in 8,192 steps around 8192.
    pub(crate) fn fine(&self) -> i128
        ensures tuning { result ≡ fine (own_of self.now) }
        ensures low { neg_ℤ (pos (2 ^ 64)) ≤ℤ result }
        ensures high { result ≤ℤ pos (2 ^ 64) }
    {
        let value = self.value(true, 0, 1);
        let steps = 128 * value.0 as u32 + value.1 as u32;
        390_625_000 * (steps as i128 - 8192)
    }

    /// Coarse tuning, RPN 2, in grains: a semitone a step around 64.
    pub(crate) fn coarse(&self) -> i128
        ensures tuning { result ≡ coarse (own_of self.now) }
        ensures low { neg_ℤ (pos (2 ^ 64)) ≤ℤ result }
        ensures high { result ≤ℤ pos (2 ^ 64) }
    {
        3_200_000_000_000 * (self.value(true, 0, 2).0 as i128 - 64)
    }

    /// The bend, in grains: the sensitivity, RPN 0, in semitones and hundredths, in 8,192 steps
    /// around 8192.
    pub(crate) fn bent(&self) -> i128
        ensures bend { result ≡ bent (own_of self.now) }
        ensures low { neg_ℤ (pos (2 ^ 64)) ≤ℤ result }
        ensures high { result ≤ℤ pos (2 ^ 64) }
    {
        let range = self.value(true, 0, 0);
        let step = 3_906_250 * (100 * range.0 as u64 + range.1 as u64);
        step as i128 * (self.bend as i128 - 8192)
    }
}
