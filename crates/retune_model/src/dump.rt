//! Laws of what the dump and live routes write.

ghost use Rattle.retune_model.specs.OutputLaws.{DumpedIsPlayable, ToldIsPlayable};

/// What the dump route writes can be written as a file like its source: it is valid, in order, and each track ends once.
pub fn dump_is_playable()
    ensures playable { DumpedIsPlayable }
{}

/// So can what the live route writes.
pub fn live_is_playable()
    ensures playable { ToldIsPlayable }
{}
