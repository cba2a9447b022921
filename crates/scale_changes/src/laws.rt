ghost use Rattle.std.specs.Prelude.{ℕ, List};
ghost use Rattle.scala_lines.specs.Reading.{HasOneAnswer};
ghost use Rattle.scale_changes.specs.Spelling.{ListText, ListTextFault};

use scala_lines::laws::{numbers, prefixes};

/// Each text is one list or has one first line that can't be taken, and never both.
pub fn one_answer()
    ensures { (lines : List (List ℕ)) → HasOneAnswer (ListText lines) (ListTextFault lines) }
{
    prefixes();
    numbers();
}
