use std::alloc::Global;
use std::marker::Model;

/// A keyboard mapping: from the first to the last key, counted from the middle key, each entry is a
/// scale degree or none; after the last entry the next octave begins, which is so many degrees higher.
/// With no entries each key is the next degree. The reference key has the reference frequency, in
/// billionths of a hertz. Keys are at most 127, the last is at least the first, the frequency is from 1
/// to 10^15, degrees are at most 16,383, and there are at most 4,096 entries.
#[derive(Debug, Drop)]
pub struct Mapping {
    pub first: u8,
    pub last: u8,
    pub middle: u8,
    pub reference: u8,
    pub nanohertz: u64,
    pub octave: u16,
    pub entries: Vec<Option<u16>>,
}

impl Model for Mapping {
    ghost use Rattle.kbm_text.specs.Map.{KeyMap};

    ghost Value = { KeyMap };

    ghost use Rattle.kbm_text.specs.Views.{key_map};
    ghost use Rattle.kbm_text.specs.Ranges.{IsInRange};

    ghost view = { key_map };

    ghost invariant = { λ m. IsInRange (key_map m) };
}

impl Mapping {
    ghost use Rattle.std.specs.Prelude.{◌≡◌};
    ghost use Rattle.kbm_text.specs.Map.{standard, a440};

    /// Each key the next degree, from key 60 at 261.6255653 Hz.
    pub fn standard(alloc: Global) -> Mapping
        ensures { result ≡ standard }
    {
        Mapping {
            first: 0,
            last: 127,
            middle: 60,
            reference: 60,
            nanohertz: 261_625_565_300,
            octave: 0,
            entries: Vec::new(alloc),
        }
    }

    /// Each key the next degree, from key 69 at 440 Hz.
    pub fn a440(alloc: Global) -> Mapping
        ensures { result ≡ a440 }
    {
        Mapping {
            first: 0,
            last: 127,
            middle: 69,
            reference: 69,
            nanohertz: 440_000_000_000,
            octave: 0,
            entries: Vec::new(alloc),
        }
    }
}
