use super::ear::{Ear, Heard};
use super::pitches::{is_within, source_pitch, target_key};
use key_pitch::KeyTable;
use lifetimes::Options;
use mt_base::Channel;
use receiver::ChannelState;
use std::alloc::Global;
use std::test::Fail;

/// In what an output is unlike its source.
#[derive(Clone, Copy, Debug, PartialEq, Eq)]
pub enum Unlike {
    /// An event that a receiver doesn't take.
    Refused,
    /// An event of another track.
    Track,
    /// The system exclusive and meta events, or those of kept drums.
    Passed,
    /// How many notes sound.
    Count,
    /// A note of this onset is missing.
    Missing,
    Key,
    Velocity,
    Voice,
    Release,
    Controls,
    Pressure,
    KeyPressure,
    Parameters,
    Pitch,
    /// The pitch right after the note on.
    Beginning,
}

/// What is asked of a comparison: which channels have notes that are retuned, and by what.
#[derive(Clone, Copy)]
pub struct Asked<'a> {
    pub table: &'a KeyTable,
    pub options: Options,
    /// Whether channel 10 is passed on as it is.
    pub drums: bool,
}

impl<'a> Asked<'a> {
    pub fn is_retuned(&self, channel: Channel) -> bool {
        !(self.drums && channel.number() == 9)
    }
}

/// The retuned notes that sound.
fn sounding(alloc: Global, asked: &Asked<'_>, ear: &Ear) -> Result<Vec<Heard>, Fail> {
    let mut notes = Vec::new(alloc);
    for number in 0..16u8 {
        let channel = Channel::new(number).unwrap_or_default();
        if asked.is_retuned(channel) {
            ear.push_notes(channel, &mut notes)?;
        }
    }
    Ok(notes)
}

/// The note that began at a tick.
fn of_onset(notes: &[Heard], onset: u32) -> Option<Heard> {
    for heard in notes {
        if heard.note.onset == onset {
            return Some(*heard);
        }
    }
    None
}

/// Whether all parameters but the bend sensitivity are the same.
fn are_same_parameters(a: &ChannelState, b: &ChannelState) -> bool {
    let (others, more) = (a.others.as_slice(), b.others.as_slice());
    a.fixed[1] == b.fixed[1]
        && a.fixed[2] == b.fixed[2]
        && a.fixed[3] == b.fixed[3]
        && others.len() == more.len()
        && others.iter().zip(more.iter()).all(|(x, y)| {
            x.registered == y.registered && x.high == y.high && x.low == y.low && x.value == y.value
        })
}

fn are_same_controls(a: &ChannelState, b: &ChannelState) -> bool {
    for number in 0..120usize {
        if a.controls.get(number) != b.controls.get(number) {
            return false;
        }
    }
    true
}

/// In what the settings of two notes differ.
fn other_settings(source: &Ear, out: &Ear, a: &Heard, b: &Heard) -> Option<Unlike> {
    let own = source.state(a.channel);
    let settings = out.settings(b.channel);
    if !are_same_controls(own, settings) {
        return Some(Unlike::Controls);
    }
    if own.pressure != settings.pressure {
        return Some(Unlike::Pressure);
    }
    if !are_same_parameters(own, settings) {
        return Some(Unlike::Parameters);
    }
    if a.key > 127 || b.key > 127 {
        return Some(Unlike::Key);
    }
    let pressed = out.state(b.channel).keys.get(b.key as usize);
    if own.keys.get(a.key as usize) != pressed {
        return Some(Unlike::KeyPressure);
    }
    None
}

/// In what a note of the output is another than that of the source.
fn other_note(asked: &Asked<'_>, a: &Heard, b: &Heard) -> Option<Unlike> {
    if target_key(asked.table, &asked.options, a.key) != Some(b.key) {
        return Some(Unlike::Key);
    }
    if a.note.velocity != b.note.velocity {
        return Some(Unlike::Velocity);
    }
    if a.note.voice != b.note.voice {
        return Some(Unlike::Voice);
    }
    if a.note.released != b.note.released {
        return Some(Unlike::Release);
    }
    None
}

/// Whether a note of the source is played at its pitch.
pub fn is_in_tune(asked: &Asked<'_>, source: &Ear, a: &Heard, played: Option<i128>) -> bool {
    let wanted = source_pitch(asked.table, &asked.options, source.state(a.channel), a.key);
    match (wanted, played) {
        (Some(wanted), Some(played)) => is_within(&asked.options, played, wanted),
        _ => false,
    }
}

/// In what two notes differ.
fn other(asked: &Asked<'_>, source: &Ear, out: &Ear, a: &Heard, b: &Heard) -> Option<Unlike> {
    let found = other_note(asked, a, b);
    if found.is_some() {
        return found;
    }
    let found = other_settings(source, out, a, b);
    if found.is_some() {
        return found;
    }
    if is_in_tune(asked, source, a, out.pitch(b.channel, b.key)) {
        None
    } else {
        Some(Unlike::Pitch)
    }
}

/// In what the notes that sound on both sides differ; at the tick of a note on also the pitch that it had right then.
pub fn compare(
    alloc: Global,
    asked: &Asked<'_>,
    source: &Ear,
    out: &Ear,
    tick: u32,
    struck: Option<i128>,
) -> Result<Option<Unlike>, Fail> {
    let notes = sounding(alloc, asked, source)?;
    let played = sounding(alloc, asked, out)?;
    if notes.len() != played.len() {
        return Ok(Some(Unlike::Count));
    }
    for note in &notes {
        let Some(found) = of_onset(played.as_slice(), note.note.onset) else {
            return Ok(Some(Unlike::Missing));
        };
        let unlike = other(asked, source, out, note, &found);
        if unlike.is_some() {
            return Ok(unlike);
        }
        if note.note.onset == tick && !is_in_tune(asked, source, note, struck) {
            return Ok(Some(Unlike::Beginning));
        }
    }
    Ok(None)
}
