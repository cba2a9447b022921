ghost use Rattle.std.specs.Prelude.{◌≤◌, length, IfOk, IfErr};
ghost use Rattle.scala_lines.specs.Lines.{lines_of};
ghost use Rattle.scl_text.specs.Spelling.{ScaleText};
ghost use Rattle.kbm_text.specs.Spelling.{MapText};
ghost use Rattle.midi_model.specs.Spelling.{Spells};
ghost use Rattle.retune_model.specs.Faults.{Targets};
ghost use Rattle.command_line.specs.Words.{Command};
ghost use Rattle.mtune_core.specs.Limits.{text_limit, input_limit};
ghost use Rattle.mtune_core.specs.Retuned.{InputCause};
ghost use Rattle.mtune_core.specs.Table.{ScaleCause, MapCause};

use crate::outcome::Fault;
use kbm_text::{Mapping, read_kbm};
use scl_text::{Scale, read_scl};
use smf_read::{Smf, read_smf};
use std::alloc::Global;

/// The scale of a text.
pub fn read_scale(alloc: Global, text: &[u8]) -> Result<Scale, Fault>
    requires { length text.now ≤ text_limit }
    ensures found { IfOk result (ScaleText (lines_of text.now)) }
    ensures cause { IfErr result (λ e. ScaleCause text.now e) }
{
    Ok(read_scl(alloc, text)?)
}

/// The mapping of a text.
pub fn read_mapping(alloc: Global, text: &[u8]) -> Result<Mapping, Fault>
    requires { length text.now ≤ text_limit }
    ensures found { IfOk result (MapText (lines_of text.now)) }
    ensures cause { IfErr result (λ e. MapCause text.now e) }
{
    Ok(read_kbm(alloc, text)?)
}

/// The file of an input.
pub fn read_input(alloc: Global, bytes: &[u8]) -> Result<Smf<'_>, Fault>
    requires { length bytes.now ≤ input_limit }
    ensures found { IfOk result (λ smf. Spells bytes.entry.now smf) }
    ensures cause { IfErr result
        (λ e. (c : Command) (table : Targets) → InputCause c table bytes.entry.now e) }
{
    Ok(read_smf(alloc, bytes)?)
}
