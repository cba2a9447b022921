ghost use Rattle.std.specs.Prelude.{◌≡◌, ◌⊎◌, [], ℕ, List, Ok};
ghost use Rattle.scala_lines.specs.Lines.{lines_of};
ghost use Rattle.scala_lines.specs.Reading.{HasOneAnswer, fault};
ghost use Rattle.kbm_text.specs.declared.fault.KbmKind.{KbmKind};
ghost use Rattle.kbm_text.specs.Map.{KeyMap};
ghost use Rattle.kbm_text.specs.Reading.{map_of};
ghost use Rattle.kbm_text.specs.Spelling.{MapText, MapFault};
ghost use Rattle.kbm_text.specs.Cuts.{CutMissesField};
ghost use Rattle.kbm_text.specs.Worked.{twelve, twelve_keys, six_fields, one_degree, one_key};

use scala_lines::laws::{cuts, numbers, prefixes};

/// Each text has one mapping or one first fault, and never both.
pub fn one_answer()
    ensures { (lines : List (List ℕ)) → HasOneAnswer (MapText lines) (MapFault lines) }
{
    prefixes();
    numbers();
}

/// A text that has a mapping, cut behind a line before its seventh field, has the fault that a field is
/// missing, at the number of lines that are left plus 1.
pub fn cut_texts()
    ensures { CutMissesField }
{
    cuts();
}

/// Texts that the definitions were tried on: twelve entries of which one isn't mapped; one entry, with
/// the standard frequency; six fields on six lines; no text.
pub fn worked_texts()
    ensures twelve { map_of (lines_of twelve) ≡ Ok twelve_keys }
    ensures one { map_of (lines_of one_degree) ≡ Ok one_key }
    ensures field_missing { map_of (lines_of six_fields) ≡ fault 7 KbmKind.MissingField }
    ensures empty { map_of (lines_of []) ≡ fault 1 KbmKind.MissingField }
{}
