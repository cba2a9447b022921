ghost use Rattle.std.specs.Prelude.{◌≡◌, ◌<◌, ◌++◌, OnOk, decimal};
ghost use Rattle.audit_report.specs.Texts.{port_text, end_text, front_text, sound_text, note_line};

use crate::played::Played;
use itoa::Buffer;
use key_report::{ErrorRange, push_error};
use mt_base::{Channel, Memory};

/// Appends a text and a number.
fn push_number(text: &mut Vec<u8>, word: &[u8], number: u32) -> Result<(), Memory>
    ensures { OnOk result (text.new.items ≡ text.old.items ++ word.now ++ decimal number) }
{
    text.extend_from_slice(word)?;
    text.extend_from_slice(Buffer::new().format(number).as_bytes())?;
    Ok(())
}

/// Appends the port of a note, where ports are named.
fn push_port(text: &mut Vec<u8>, names_ports: bool, port: u8) -> Result<(), Memory>
    ensures { OnOk result (text.new.items ≡ text.old.items ++ port_text names_ports port) }
{
    if names_ports {
        push_number(text, b" port ", u32::from(port))
    } else {
        Ok(())
    }
}

/// Appends the number of a note, its part and its key.
fn push_front(
    text: &mut Vec<u8>,
    names_ports: bool,
    number: u32,
    note: &Played,
) -> Result<(), Memory>
    ensures { OnOk result (text.new.items ≡ text.old.items ++ front_text names_ports number note.now) }
{
    push_number(text, b"note ", number)?;
    push_number(text, b" part ", u32::from(note.part.channel.number()) + 1)?;
    push_port(text, names_ports, note.part.port)?;
    push_number(text, b" key ", u32::from(note.key))
}

/// Appends the tick at which a note ends, if it does.
fn push_end(text: &mut Vec<u8>, ended: Option<u32>) -> Result<(), Memory>
    ensures { OnOk result (text.new.items ≡ text.old.items ++ end_text ended) }
{
    match ended {
        Some(tick) => push_number(text, b"", tick),
        None => {
            text.extend_from_slice(b"none")?;
            Ok(())
        }
    }
}

/// Appends the channel on which a note is played, from when to when, and how loud.
fn push_sound(text: &mut Vec<u8>, channel: Channel, note: &Played) -> Result<(), Memory>
    ensures { OnOk result (text.new.items ≡ text.old.items ++ sound_text channel note.now) }
{
    push_number(text, b" channel ", u32::from(channel.number()) + 1)?;
    push_number(text, b" tick ", note.onset)?;
    text.extend_from_slice(b" to ")?;
    push_end(text, note.ended)?;
    push_number(text, b" velocity ", u32::from(note.velocity))
}

/// Appends the line of a note.
pub fn push_note(
    text: &mut Vec<u8>,
    names_ports: bool,
    number: u32,
    channel: Channel,
    note: &Played,
    error: ErrorRange,
) -> Result<(), Memory>
    ensures { OnOk result (text.new.items
        ≡ text.old.items ++ note_line names_ports number channel note.now error) }
{
    push_front(text, names_ports, number, note)?;
    push_sound(text, channel, note)?;
    text.push(b' ')?;
    push_error(text, error)
}
