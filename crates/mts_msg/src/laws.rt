ghost use Rattle.mts_msg.specs.Readings.{DumpsAreReadAgain, ChangesAreReadAgain, NothingWrittenResets};

/// The law that what is written is read as what was written: a dump for every program and every
/// list of 128 values, and a change of one key. Neither is a reset.
pub fn written_is_read()
    ensures dumps { DumpsAreReadAgain }
    ensures changes { ChangesAreReadAgain }
    ensures resets { NothingWrittenResets }
{}
