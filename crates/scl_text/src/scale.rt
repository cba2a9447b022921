use crate::entry::Entry;
use std::marker::Model;

/// A scale: the pitches of its notes above the first, which is 1/1 and isn't listed. The last is the
/// period. It has 1 to 4,096 entries. The numbers of a ratio are from 1 to 2^63 - 1; cents are from
/// -1,000,000,999,999,999 to 1,000,000,999,999,999 billionths.
#[derive(Debug, Drop)]
pub struct Scale {
    pub entries: Vec<Entry>,
}

impl Model for Scale {
    ghost use Rattle.std.specs.Prelude.{List};
    ghost use Rattle.scl_text.specs.declared.entry.Entry.{Entry};

    ghost Value = { List Entry };

    ghost use Rattle.scl_text.specs.Ranges.{IsInRange};

    ghost view = { λ s. s.entries.items };

    ghost invariant = { λ s. IsInRange s.entries.items };
}
