//! Laws of errors. The functions do nothing: their contracts are what is stated.

ghost use Rattle.std.specs.Prelude.{◌≡◌, pos, negsuc, codes};
ghost use Rattle.key_report.specs.Errors.{least_error, greatest_error};
ghost use Rattle.key_report.specs.ErrorLaws.{RoundsDown, RoundsUp, ErrorsHold, ErrorsAreNear};
ghost use Rattle.key_report.specs.KeyLaws.{KeyErrorsHold, NoteErrorHolds, UsedKeysAreTold, NoKeyIsLeftOut, SameKeys, WholeIsLeastToGreatest};
ghost use Rattle.key_report.specs.Texts.{thousandths, error_text};

use mt_base::laws::{differences, exact, wider};

/// Rounding goes outward, by less than a thousandth of a cent.
pub fn rounding_laws()
    ensures down { RoundsDown }
    ensures up { RoundsUp }
{}

/// A target less the pitch that is meant is at least the least error and at most the greatest one, as
/// inequalities of whole powers. Both lie within the bound of the device, rounded outward.
pub fn error_laws()
    ensures hold { ErrorsHold }
    ensures near { ErrorsAreNear }
{
    differences();
    exact();
    wider();
}

/// What is said of keys is so: each error that is said of a key holds of its scale pitch, within the bound.
/// It is said of each used key that has a target, and of no other. The same keys have the same errors. The
/// error of the whole is the least of all and the greatest of all.
pub fn key_laws()
    ensures hold { KeyErrorsHold }
    ensures note { NoteErrorHolds }
    ensures told { UsedKeysAreTold }
    ensures all { NoKeyIsLeftOut }
    ensures same { SameKeys }
    ensures whole { WholeIsLeastToGreatest }
{
    error_laws();
}

/// Errors of targets whose pitch is bracketed by 1,000 and 1,002 grains; numbers as they are printed.
pub fn error_examples()
    ensures equal { least_error (pos 1000) (pos 1000) ≡ pos 0 }
    ensures exact { greatest_error (pos 1000) (pos 1000) ≡ pos 0 }
    ensures below { least_error (pos 1000) (pos 1002) ≡ negsuc 0 }
    ensures above { greatest_error (pos 1003) (pos 1000) ≡ pos 1 }
    ensures none { thousandths (pos 0) ≡ codes "0.000" }
    ensures small { thousandths (negsuc 0) ≡ codes "-0.001" }
    ensures large { thousandths (negsuc 12049) ≡ codes "-12.050" }
    ensures both { error_text (record { least = pos 63; greatest = pos 64 })
        ≡ codes "error 0.063 to 0.064\n" }
{}
