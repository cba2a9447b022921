ghost use Rattle.std.specs.Prelude.{ℕ, Bool, true, ◌<◌, ◌≤◌, if◌then◌else◌, ◌≡◌, ◌++◌, List, length, filter, codes, decimal, option_copied, None, Some, IfOk, IfSome, OnOk};
ghost use Rattle.mt_base.specs.Midi.{MidiEvent};
ghost use Rattle.retune_model.specs.Dump.{from_up};
ghost use Rattle.retune_model.specs.Options.{Options as Asked, bends_notes};
ghost use Rattle.key_pitch.specs.Aims.{by_onset};
ghost use Rattle.receiver.specs.Notes.{has};
ghost use Rattle.lifetimes.specs.Noted.{IsNoted};
ghost use Rattle.lifetimes.specs.Views.{route_of, options_of};
ghost use Rattle.channel_plan.specs.Planned.{IsPlan};
ghost use Rattle.key_report.specs.Keys.{is_used, key_errors, whole_error};
ghost use Rattle.key_report.specs.Texts.{key_lines};
ghost use Rattle.key_pitch.specs.Aims.{table_of};
ghost use Rattle.mtune_core.specs.Asked.{AreInRange, IsPlain};
ghost use Rattle.mtune_core.specs.Lines.{route_line, notes_line};
ghost use Rattle.mtune_core.specs.Report.{bend_range, channels_of, audit_told, report_of};
ghost use Rattle.mtune_core.specs.Written.{IsSaidOf};
ghost use Rattle.mtune_core.specs.Survey.{IsFound, IsUsed, IsAudited, IsOfFew};

use crate::counting::Used;
use crate::lines::one;
use crate::survey::Found;
use audit_report::{Audit, push_audit};
use channel_plan::Plan;
use key_pitch::KeyTable;
use key_report::{ErrorRange, key_laws, push_keys, push_whole};
use lifetimes::{Noted, Options, Route};
use mt_base::Memory;
use plan_report::{plan_report_laws, push_channels, push_need, push_zones};
use std::alloc::Global;

/// 1, where a mask has a channel, and else 0.
fn one_if(mask: u16, channel: u8) -> u32
    requires { channel < 16 }
    ensures { result ≡ (if has mask channel then 1 else 0) }
{
    u32::from(mask >> channel & 1 == 1)
}

/// How many channels a mask has.
fn channels_in(mask: u16) -> u32
    ensures count { result ≡ length (filter (λ c. has mask c) (from_up 0 16)) }
    ensures few { result ≤ 16 }
{
    let mut count = 0;
    for channel in 0..16u8 {
        count += one_if(mask, channel);
    }
    count
}

/// How many channels of all ports have retuned notes.
fn channels(noted: &Noted) -> u32
    ensures { (o : Asked) (es : List MidiEvent) → IsNoted o es noted.now
        → result ≡ channels_of o es }
{
    let mut count = 0;
    for port in 0..256u16 {
        count += channels_in(noted.parts(port as u8));
    }
    count
}

/// Appends the line of a route.
fn push_route(text: &mut Vec<u8>, route: Route) -> Result<(), Memory>
    ensures { OnOk result (text.new.items ≡ text.old.items ++ route_line (route_of route)) }
{
    let line: &[u8] = match route {
        Route::Dump => b"route dump\n",
        Route::Live => b"route live\n",
        Route::Bend => b"route bend\n",
        Route::Mpe => b"route mpe\n",
    };
    text.extend_from_slice(line)?;
    Ok(())
}

/// The sensitivity at which notes are bent, on the routes on which they are.
fn bend_range(options: Options) -> Option<u8>
    ensures { result ≡ bend_range (options_of options) }
{
    match options.route {
        Route::Dump | Route::Live => None,
        Route::Bend | Route::Mpe => Some(options.range),
    }
}

/// Appends a line of a text and a number.
fn push_one(text: &mut Vec<u8>, name: &str, number: u32) -> Result<(), Memory>
    requires { length name.now ≤ 40 }
    ensures { OnOk result (text.new.items
        ≡ text.old.items ++ (name.now ++ decimal number ++ codes "\n")) }
{
    text.extend_from_slice(one(name, number).as_str().as_bytes())?;
    Ok(())
}

/// Appends a line for each note of an audit, if there is one, on its channel by a plan or on its own.
fn push_played(
    text: &mut Vec<u8>,
    options: Options,
    table: &KeyTable,
    audit: Option<&Audit>,
    plan: Option<&Plan>,
) -> Result<(), Memory>
    requires range { AreInRange (options_of options) }
    requires few { IfSome (option_copied audit) (λ a. IsOfFew (options_of options) a) }
    ensures { (asked : Bool) (es : List MidiEvent)
        → IsAudited asked (options_of options) es (option_copied audit.entry)
        → OnOk result (text.new.items ≡ text.old.items
        ++ audit_told asked (options_of options) (by_onset table.now) (option_copied plan.entry) es) }
{
    if let Some(audit) = audit {
        push_audit(audit.notes(), table, bend_range(options), plan, text)?;
    }
    Ok(())
}

/// Appends the lines before those that speak of channels: the route, the keys that are used, the notes of
/// an audit, and the number of notes. Answers the error of the whole, if there is any note.
fn push_front(
    text: &mut Vec<u8>,
    options: Options,
    table: &KeyTable,
    used: Used,
    audit: Option<&Audit>,
    plan: Option<&Plan>,
) -> Result<Option<ErrorRange>, Memory>
    requires range { AreInRange (options_of options) }
    requires few { IfSome (option_copied audit) (λ a. IsOfFew (options_of options) a) }
    ensures text { (asked : Bool) (es : List MidiEvent)
        → IsAudited asked (options_of options) es (option_copied audit.entry)
        → OnOk result (text.new.items ≡ text.old.items ++ route_line (route_of options.route)
        ++ key_lines (key_errors (bend_range (options_of options)) (table_of table.now) (is_used used.keys))
        ++ audit_told asked (options_of options) (by_onset table.now) (option_copied plan.entry) es
        ++ notes_line used.notes) }
    ensures whole { IfOk result (λ whole. whole
        ≡ whole_error (key_errors (bend_range (options_of options)) (table_of table.now) (is_used used.keys))) }
{
    push_route(text, options.route)?;
    let whole = push_keys(table, bend_range(options), used.keys, text)?;
    push_played(text, options, table, audit, plan)?;
    push_one(text, "notes ", used.notes)?;
    Ok(whole)
}

/// The report on a source on dump and live, by what was found of it.
pub fn report(
    alloc: Global,
    options: Options,
    table: &KeyTable,
    found: &Found,
    audit: Option<&Audit>,
) -> Result<Vec<u8>, Memory>
    requires plain { IsPlain (options_of options) }
    requires few { IfSome (option_copied audit) (λ a. IsOfFew (options_of options) a) }
    ensures { (asked : Bool) (es : List MidiEvent) → IsFound (options_of options) es found.now
        → IsAudited asked (options_of options) es (option_copied audit.entry) → IfOk result
        (λ text. text.items ≡ report_of asked (options_of options) (by_onset table.now) None es) }
{
    key_laws();
    let mut text = Vec::new(alloc);
    let whole = push_front(&mut text, options, table, found.used, audit, None)?;
    push_one(&mut text, "channels ", channels(&found.noted))?;
    push_whole(&mut text, whole)?;
    Ok(text)
}

/// Appends what each port needs, or on MPE each of its zones, and the pairs of the instant.
fn push_needs(text: &mut Vec<u8>, route: Route, plan: &Plan) -> Result<(), Memory>
    ensures { OnOk result (IsSaidOf plan.now (route_of route) text.old.items text.new.items) }
{
    plan_report_laws();
    match route {
        Route::Dump | Route::Live => Ok(()),
        Route::Bend => push_need(plan, text),
        Route::Mpe => push_zones(plan, text),
    }
}

/// The report on a source on bend or MPE, by its plan and what its notes are.
pub fn planned_report(
    alloc: Global,
    options: Options,
    table: &KeyTable,
    used: Used,
    audit: Option<&Audit>,
    plan: &Plan,
) -> Result<Vec<u8>, Memory>
    requires range { AreInRange (options_of options) }
    requires bends { bends_notes (options_of options).route ≡ true }
    requires few { IfSome (option_copied audit) (λ a. IsOfFew (options_of options) a) }
    ensures { (asked : Bool) (allowed : ℕ → Bool) (es : List MidiEvent)
        → IsUsed (options_of options) es used
        → IsAudited asked (options_of options) es (option_copied audit.entry)
        → IsPlan (options_of options) allowed (by_onset table.now) es plan.now → IfOk result
        (λ text. text.items ≡ report_of asked (options_of options) (by_onset table.now) (Some plan.now) es) }
{
    key_laws();
    plan_report_laws();
    let mut text = Vec::new(alloc);
    let whole = push_front(&mut text, options, table, used, audit, Some(plan))?;
    push_channels(plan, &mut text)?;
    push_needs(&mut text, options.route, plan)?;
    push_whole(&mut text, whole)?;
    Ok(text)
}
