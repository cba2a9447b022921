ghost use Rattle.std.specs.Prelude.{◌≡◌, Ok};
ghost use Rattle.midi_model.specs.FileText.{MidiFile, file_at};
ghost use Rattle.midi_model.specs.Spelling.{Spells};
ghost use Rattle.midi_model.specs.Writing.{file_bytes, IsWritableFile};
ghost use Rattle.midi_model.specs.WritingLaws.{WrittenIsSpelt, QuantityIsShortest};

use midi_model::{file_laws, writing_laws};

/// What is written spells the file, so it is read again as this file and as no other; and no
/// spelling of a quantity has fewer bytes than the one that is written.
pub fn written_is_read()
    ensures spells { WrittenIsSpelt }
    ensures only { (file other : MidiFile) → IsWritableFile file → Spells (file_bytes file) other
        → other ≡ file }
    ensures again { (file : MidiFile) → IsWritableFile file → file_at (file_bytes file) ≡ Ok file }
    ensures shortest { QuantityIsShortest }
{
    file_laws();
    writing_laws();
}
