ghost use Rattle.std.specs.Prelude.{◌≡◌, ◌≤◌, length, IfOk, IfErr};
ghost use Rattle.midi_model.specs.Merged.{merged};
ghost use Rattle.key_pitch.specs.Aims.{by_onset};
ghost use Rattle.command_line.specs.Words.{view_command};
ghost use Rattle.mtune_core.specs.Asked.{AreInRange, allowed_by};
ghost use Rattle.mtune_core.specs.Limits.{input_limit};
ghost use Rattle.mtune_core.specs.Made.{MadeOf};
ghost use Rattle.mtune_core.specs.Output.{AreShort, IsPlayableFile};
ghost use Rattle.mtune_core.specs.Retuned.{EventCause, InputCause};
ghost use Rattle.mtune_core.specs.Written.{IsFileMade};

use crate::laws::{fewest_are_used, output_is_spelt, output_plays_the_same};
use crate::made::Made;
use crate::outcome::Fault;
use crate::plain::make_plainly;
use crate::planned::make_by_plan;
use crate::reading::read_input;
use audit_report::{audit_laws, each_note_is_told};
use command_line::Command;
use key_pitch::KeyTable;
use key_report::key_laws;
use lifetimes::Route;
use smf_read::Smf;
use std::alloc::Global;

/// The output and the report of a source, or why it is refused.
fn make(
    alloc: Global,
    command: &Command<'_>,
    table: &KeyTable,
    smf: &Smf<'_>,
) -> Result<Made, Fault>
    requires range { AreInRange (view_command command.now).options }
    requires format { smf.now.format ≤ 1 }
    requires one { smf.now.format ≡ 0 → length smf.now.tracks ≡ 1 }
    requires short { AreShort smf.now }
    ensures made { IfOk result (IsFileMade (view_command command.now).audit (view_command command.now).options
        (allowed_by (view_command command.now)) (by_onset table.now) smf.now) }
    ensures refused { IfErr result (EventCause (view_command command.now).options
        (allowed_by (view_command command.now)) (by_onset table.now) (merged smf.now)) }
    ensures playable { IsPlayableFile smf.now }
{
    match command.options.route {
        Route::Dump | Route::Live => make_plainly(alloc, command, table, smf),
        Route::Bend | Route::Mpe => make_by_plan(alloc, command, table, smf),
    }
}

/// What an input gives by a table of the keys' pitches.
pub fn retuned(
    alloc: Global,
    command: &Command<'_>,
    table: &KeyTable,
    input: &[u8],
) -> Result<Made, Fault>
    requires range { AreInRange (view_command command.now).options }
    requires short { length input.now ≤ input_limit }
    ensures made { IfOk result (λ made. MadeOf (view_command command.now) (by_onset table.now) input.now
        made.output.items made.report.items) }
    ensures cause { IfErr result
        (λ e. InputCause (view_command command.now) (by_onset table.now) input.now e) }
{
    key_laws();
    audit_laws();
    each_note_is_told();
    output_is_spelt();
    output_plays_the_same();
    fewest_are_used();
    let smf = read_input(alloc, input)?;
    make(alloc, command, table, &smf)
}
