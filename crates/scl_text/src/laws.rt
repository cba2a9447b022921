ghost use Rattle.std.specs.Prelude.{◌≡◌, ◌⊎◌, ◌∷◌, ◌++◌, [], ℕ, List, Ok};
ghost use Rattle.scala_lines.specs.Lines.{lines_of};
ghost use Rattle.scala_lines.specs.Reading.{HasOneAnswer, fault};
ghost use Rattle.scl_text.specs.declared.entry.Entry.{Entry};
ghost use Rattle.scl_text.specs.declared.fault.SclKind.{SclKind};
ghost use Rattle.scl_text.specs.Reading.{scale_of};
ghost use Rattle.scl_text.specs.Spelling.{ScaleText, ScaleFault, PitchFault};
ghost use Rattle.scl_text.specs.Cuts.{CutMissesLine};
ghost use Rattle.scl_text.specs.BadPitch.{HasNoForm};
ghost use Rattle.scl_text.specs.Worked.{four_entries, four_values, bare_negative, three_pitches};
ghost use Rattle.scl_text.specs.Worked.{crlf};

use scala_lines::laws::{cuts, numbers, prefixes};

/// Each text has one scale or one first fault, and never both.
pub fn one_answer()
    ensures { (lines : List (List ℕ)) → HasOneAnswer (ScaleText lines) (ScaleFault lines) }
{
    prefixes();
    numbers();
}

/// A text that has a scale, cut behind a line before its last pitch line, has the fault that a line is
/// missing: the first line, the second, or a pitch line. Its line is the number of lines that are left
/// plus 1.
pub fn cut_texts()
    ensures { CutMissesLine }
{
    cuts();
}

/// A pitch line is bad exactly where, behind the blanks and a minus sign or none, there stands neither
/// a digit nor a period with a digit after it, or there stand digits and a slash without a digit after
/// it.
pub fn bad_pitch()
    ensures only { (line : List ℕ) → PitchFault line SclKind.BadPitch → HasNoForm line }
    ensures every { (line : List ℕ) → HasNoForm line → PitchFault line SclKind.BadPitch }
{
    prefixes();
}

/// Texts that the definitions were tried on: four entries with a comment, text behind values and a last
/// line without LF; the same with CR LF; a last line that is a negative number alone; no last line; no
/// text.
pub fn worked_texts()
    ensures four { scale_of (lines_of four_entries) ≡ Ok four_values }
    ensures four_with_cr { scale_of (lines_of (crlf four_entries)) ≡ Ok four_values }
    ensures negative_number { scale_of (lines_of bare_negative) ≡ fault 7 SclKind.NegativeRatio }
    ensures pitch_missing { scale_of (lines_of three_pitches) ≡ fault 7 SclKind.MissingPitch }
    ensures empty { scale_of (lines_of []) ≡ fault 1 SclKind.NoDescription }
{}
