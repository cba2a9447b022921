ghost use Rattle.std.specs.Prelude.{◌≡◌, ◌≤◌, length, IfOk, IfErr, OnOk};
ghost use Rattle.key_pitch.specs.Aims.{by_onset};
ghost use Rattle.mtune_files.specs.Outside.{after_load};
ghost use Rattle.mtune_files.specs.Sample.{sample_bytes};
ghost use Rattle.mtune_core.specs.Call.{IsPrepared, CommandCause, after_loads};
ghost use Rattle.command_line.specs.Words.{Named, view_choice, view_command};
ghost use Rattle.mtune_core.specs.Asked.{AreInRange, IsFit};
ghost use Rattle.mtune_core.specs.Contents.{At, ContentCause};
ghost use Rattle.mtune_core.specs.Inputs.{SampleCause, InputStops, after_input};
ghost use Rattle.mtune_core.specs.Limits.{text_limit, input_limit};
ghost use Rattle.mtune_core.specs.Made.{MadeOf, MadeFrom};
ghost use Rattle.mtune_core.specs.Retuned.{InputCause};
ghost use Rattle.mtune_core.specs.Table.{IsScaleAt, IsMappingAt, ScaleCause, MapCause, MappingCause, TableFrom, TableCause, after_mapping, after_texts};

use crate::loading::{INPUT_LIMIT, TEXT_LIMIT, load};
use crate::made::Made;
use crate::outcome::Fault;
use crate::reading::{read_mapping, read_scale};
use crate::retuning::retuned;
use crate::table::key_table;
use command_line::{Command, MapChoice};
use kbm_text::Mapping;
use key_pitch::KeyTable;
use midi_model::file_laws;
use mtune_files::{Files, Which, sample};
use scl_text::Scale;
use std::alloc::Global;

/// The scale at a name.
fn load_scale<F: Files>(alloc: Global, files: &mut F, name: &str) -> Result<Scale, Fault>
    ensures scale { IfOk result (λ s. IsScaleAt (F.outside files.old) name.now s) }
    ensures loaded { OnOk result
        (F.outside files.new ≡ after_load Which.Scale (F.outside files.old)) }
    ensures cause { IfErr result (λ e. ContentCause Which.Scale name.now text_limit ScaleCause
        (F.outside files.old) (F.outside files.new) e) }
{
    let text = load(alloc, files, Which::Scale, name, TEXT_LIMIT)?;
    read_scale(alloc, &text)
}

/// The mapping at a name.
fn load_named<F: Files>(alloc: Global, files: &mut F, name: &str) -> Result<Mapping, Fault>
    ensures mapping { IfOk result (λ m. IsMappingAt (F.outside files.old) (Named name.now) m) }
    ensures loaded { OnOk result
        (F.outside files.new ≡ after_load Which.Map (F.outside files.old)) }
    ensures cause { IfErr result (λ e. ContentCause Which.Map name.now text_limit MapCause
        (F.outside files.old) (F.outside files.new) e) }
{
    let text = load(alloc, files, Which::Map, name, TEXT_LIMIT)?;
    read_mapping(alloc, &text)
}

/// The mapping that is asked for.
fn load_mapping<F: Files>(
    alloc: Global,
    files: &mut F,
    choice: &MapChoice<'_>,
) -> Result<Mapping, Fault>
    ensures mapping { IfOk result
        (λ m. IsMappingAt (F.outside files.old) (view_choice choice.now) m) }
    ensures loaded { OnOk result
        (F.outside files.new ≡ after_mapping (view_choice choice.now) (F.outside files.old)) }
    ensures cause { IfErr result (λ e. MappingCause (view_choice choice.now)
        (F.outside files.old) (F.outside files.new) e) }
{
    match choice {
        MapChoice::Named(name) => load_named(alloc, files, name),
        MapChoice::At440 => Ok(Mapping::a440(alloc)),
        MapChoice::Standard => Ok(Mapping::standard(alloc)),
    }
}

/// The table of the scale and the mapping of a command.
fn load_table<F: Files>(
    alloc: Global,
    command: &Command<'_>,
    files: &mut F,
) -> Result<KeyTable, Fault>
    ensures table { IfOk result (λ t. TableFrom (F.outside files.old)
        (view_command command.now) (by_onset t)) }
    ensures loaded { OnOk result (F.outside files.new
        ≡ after_texts (view_command command.now) (F.outside files.old)) }
    ensures cause { IfErr result (λ e. TableCause (view_command command.now)
        (F.outside files.old) (F.outside files.new) e) }
{
    let scale = load_scale(alloc, files, command.scale)?;
    let mapping = load_mapping(alloc, files, &command.mapping)?;
    key_table(&scale, &mapping)
}

/// What is made of the input at a command's name for it, with a table.
fn load_input<F: Files>(
    alloc: Global,
    command: &Command<'_>,
    files: &mut F,
    table: &KeyTable,
) -> Result<Made, Fault>
    requires range { AreInRange (view_command command.now).options }
    ensures made { IfOk result (λ made. At (F.outside files.old) (view_command command.now).input input_limit
        (λ input. MadeOf (view_command command.now) (by_onset table.now) input
        made.output.items made.report.items)) }
    ensures loaded { OnOk result
        (F.outside files.new ≡ after_load Which.Input (F.outside files.old)) }
    ensures cause { IfErr result (λ e. ContentCause Which.Input (view_command command.now).input input_limit
        (InputCause (view_command command.now) (by_onset table.now))
        (F.outside files.old) (F.outside files.new) e) }
{
    let input = load(alloc, files, Which::Input, command.input, INPUT_LIMIT)?;
    retuned(alloc, command, table, &input)
}

/// What is made of a sample of so many chords, with a table.
fn make_sample(
    alloc: Global,
    command: &Command<'_>,
    chords: u32,
    table: &KeyTable,
) -> Result<Made, Fault>
    requires range { AreInRange (view_command command.now).options }
    requires some { 1 ≤ chords }
    requires few { chords ≤ 100000 }
    ensures made { IfOk result (λ made. MadeOf (view_command command.now) (by_onset table.now)
        (sample_bytes chords) made.output.items made.report.items) }
    ensures short { OnOk result (length (sample_bytes chords) ≤ input_limit) }
    ensures cause { IfErr result (λ e. SampleCause (view_command command.now) (by_onset table.now)
        (sample_bytes chords) e) }
{
    file_laws();
    let bytes = sample(alloc, chords)?;
    retuned(alloc, command, table, &bytes)
}

/// What is made of the input of a command, with a table.
fn make<F: Files>(
    alloc: Global,
    command: &Command<'_>,
    files: &mut F,
    table: &KeyTable,
) -> Result<Made, Fault>
    requires { IsFit (view_command command.now) }
    ensures made { IfOk result (λ made. MadeFrom (F.outside files.old) (view_command command.now)
        (by_onset table.now) made.output.items made.report.items) }
    ensures loaded { OnOk result
        (F.outside files.new ≡ after_input (view_command command.now) (F.outside files.old)) }
    ensures cause { IfErr result (λ e. InputStops (view_command command.now).sample (view_command command.now)
        (by_onset table.now) (F.outside files.old) (F.outside files.new) e) }
{
    match command.sample {
        Some(chords) => make_sample(alloc, command, chords, table),
        None => load_input(alloc, command, files, table),
    }
}

/// All that comes before the store.
pub fn prepare<F: Files>(alloc: Global, command: &Command<'_>, files: &mut F) -> Result<Made, Fault>
    requires { IsFit (view_command command.now) }
    ensures made { IfOk result (λ made. IsPrepared (F.outside files.old) (view_command command.now)
        made.output.items made.report.items) }
    ensures loaded { OnOk result (F.outside files.new
        ≡ after_loads (view_command command.now) (F.outside files.old)) }
    ensures cause { IfErr result (λ e. CommandCause (view_command command.now)
        (F.outside files.old) (F.outside files.new) e) }
{
    let table = load_table(alloc, command, files)?;
    make(alloc, command, files, &table)
}
