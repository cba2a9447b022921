ghost use Rattle.std.specs.Prelude.{◌≡◌, ◌<◌, ◌^◌, ◌++◌, [], length, fold, IfOk, OnOk, option_copied};
ghost use Rattle.std.specs.List.{cons_option};
ghost use Rattle.key_report.specs.Keys.{whole_error, with_error};
ghost use Rattle.key_report.specs.Targets.{IsDevice};
ghost use Rattle.audit_report.specs.Texts.{audit_errors, audit_lines, channel_told, line_if, names_ports, note_error};

use crate::played::Played;
use crate::text::push_note;
use channel_plan::Plan;
use key_pitch::Aims;
use key_report::{ErrorRange, KeyError, key_error, with_error};
use mt_base::{Channel, Memory};

/// Whether some note is on another port than 0.
fn names_ports(notes: &[Played]) -> bool
    ensures { result ≡ names_ports notes.now }
{
    notes.iter().any(|note| note.part.port != 0)
}

/// The channel on which a note is played: that of a plan, or its own.
fn channel_told(plan: Option<&Plan>, number: u32, note: &Played) -> Channel
    ensures { result ≡ channel_told (option_copied plan.entry) number note.now }
{
    let Some(plan) = plan else {
        return note.part.channel;
    };
    match plan.channel(number) {
        Some(channel) => channel,
        None => note.part.channel,
    }
}

/// By how much what a device is told of a note is too high. None where it has no target.
fn note_error<T: Aims>(table: &T, range: Option<u8>, note: &Played) -> Option<KeyError>
    requires { IsDevice range }
    ensures { result ≡ note_error range (T.table table.now) note.now }
{
    if note.key < 128 {
        key_error(table, range, note.key, note.onset)
    } else {
        None
    }
}

/// Appends the line of a note that has a target. Answers the error of the whole with that of the note.
fn push_if(
    out: &mut Vec<u8>,
    names_ports: bool,
    number: u32,
    channel: Channel,
    note: &Played,
    error: Option<KeyError>,
    whole: Option<ErrorRange>,
) -> Result<Option<ErrorRange>, Memory>
    ensures text { OnOk result (out.new.items
        ≡ out.old.items ++ line_if names_ports number channel note.now error) }
    ensures whole { IfOk result (λ joined. joined ≡ fold with_error whole (cons_option error [])) }
{
    let Some(error) = error else {
        return Ok(whole);
    };
    push_note(out, names_ports, number, channel, note, error.error)?;
    Ok(Some(with_error(whole, &error)))
}

/// Appends a line for each note: its number, its part and key, the channel on which it is played, from when
/// to when and how loud, and by how much what a device is told of it is too high. The device takes tuning
/// messages, or bends at a sensitivity of 1 to 96 semitones; the channels are those of a plan, or the notes'
/// own. Answers the error of the whole, if there is any note.
pub fn push_audit<T: Aims>(
    notes: &[Played],
    table: &T,
    range: Option<u8>,
    plan: Option<&Plan>,
    out: &mut Vec<u8>,
) -> Result<Option<ErrorRange>, Memory>
    requires device { IsDevice range }
    requires few { length notes.now < 2 ^ 32 }
    ensures text { OnOk result (out.new.items ≡ out.old.items
        ++ audit_lines range (T.table table.now) (option_copied plan.entry) notes.now) }
    ensures whole { IfOk result
        (λ whole. whole ≡ whole_error (audit_errors range (T.table table.now) notes.now)) }
{
    let names_ports = names_ports(notes);
    let mut whole = None;
    let mut number = 0u32;
    for note in notes {
        number += 1;
        let channel = channel_told(plan, number, note);
        let error = note_error(table, range, note);
        whole = push_if(out, names_ports, number, channel, note, error, whole)?;
    }
    Ok(whole)
}
