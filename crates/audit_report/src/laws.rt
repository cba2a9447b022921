//! Laws of notes, and worked examples. The functions do nothing: their contracts are what is stated.

ghost use Rattle.std.specs.Prelude.{◌≡◌, true, false, codes, pos, None, Some};
ghost use Rattle.audit_report.specs.Laws.{NoteErrorsHold, NotesWithTargetsAreTold, EachNoteIsTold};
ghost use Rattle.audit_report.specs.Texts.{note_line};

use key_report::key_laws;
use midi_model::music_laws;

/// The error of each note holds of the pitch of its key in the scale in force when it begins, as inequalities of
/// whole powers, within the bound of the device. A note whose key has a target has one.
pub fn audit_laws()
    ensures hold { NoteErrorsHold }
    ensures told { NotesWithTargetsAreTold }
{
    key_laws();
}

/// Each retuned note of a source without a fault has an error, and so a line: its key had a target when
/// it began, since else that event had a fault.
pub fn each_note_is_told()
    ensures { EachNoteIsTold }
{
    music_laws();
}

/// Lines: of a note that the pedal held, of one that never ends, and where ports are named.
pub fn audit_examples()
    ensures ended { note_line false 1 0
        (record { part = record { port = 0; channel = 0 }; key = 69; onset = 0; velocity = 64; ended = Some 600 })
        (record { least = pos 0; greatest = pos 0 })
        ≡ codes "note 1 part 1 key 69 channel 1 tick 0 to 600 velocity 64 error 0.000 to 0.000\n" }
    ensures endless { note_line false 12 9
        (record { part = record { port = 0; channel = 15 }; key = 0; onset = 480; velocity = 1; ended = None })
        (record { least = pos 63; greatest = pos 64 })
        ≡ codes "note 12 part 16 key 0 channel 10 tick 480 to none velocity 1 error 0.063 to 0.064\n" }
    ensures port { note_line true 2 1
        (record { part = record { port = 3; channel = 1 }; key = 60; onset = 0; velocity = 127; ended = Some 1 })
        (record { least = pos 0; greatest = pos 1 })
        ≡ codes "note 2 part 2 port 3 key 60 channel 2 tick 0 to 1 velocity 127 error 0.000 to 0.001\n" }
{}
