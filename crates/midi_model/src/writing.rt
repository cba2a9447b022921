//! Laws of how a file is written. The function does nothing: its contract is what is stated.

ghost use Rattle.midi_model.specs.WritingLaws.{WrittenIsSpelt, QuantityIsShortest, EventIsAppended};

/// What is written spells the file, each quantity in the fewest bytes; and a track that is written event by event is what is
/// written of the list of these events.
pub fn writing_laws()
    ensures spells { WrittenIsSpelt }
    ensures shortest { QuantityIsShortest }
    ensures appended { EventIsAppended }
{}
