use mt_base::{Msg, What};
use std::alloc::Global;
use std::test::Fail;

/// The content of a track so far, and the tick of its last event.
#[derive(Drop)]
pub struct Track {
    bytes: Vec<u8>,
    tick: u32,
}

/// A variable-length quantity.
fn push_quantity(bytes: &mut Vec<u8>, value: u32) -> Result<(), Fail> {
    for shift in [21u32, 14, 7] {
        let rest = value.wrapping_shr(shift);
        if rest > 0 {
            bytes.push((0x80 | (rest & 0x7f)) as u8)?;
        }
    }
    bytes.push((value & 0x7f) as u8)?;
    Ok(())
}

fn push_message(bytes: &mut Vec<u8>, message: &Msg) -> Result<(), Fail> {
    let channel = message.channel().number();
    match *message {
        Msg::NoteOff { key, velocity, .. } => {
            bytes.extend_from_slice(&[0x80 | channel, key, velocity])?
        }
        Msg::NoteOn { key, velocity, .. } => {
            bytes.extend_from_slice(&[0x90 | channel, key, velocity])?
        }
        Msg::KeyPressure { key, value, .. } => {
            bytes.extend_from_slice(&[0xa0 | channel, key, value])?
        }
        Msg::Control { number, value, .. } => {
            bytes.extend_from_slice(&[0xb0 | channel, number, value])?
        }
        Msg::Program { program, .. } => bytes.extend_from_slice(&[0xc0 | channel, program])?,
        Msg::Pressure { value, .. } => bytes.extend_from_slice(&[0xd0 | channel, value])?,
        Msg::Bend { value, .. } => {
            let data = [(value & 0x7f) as u8, ((value >> 7) & 0x7f) as u8];
            bytes.extend_from_slice(&[0xe0 | channel, data[0], data[1]])?
        }
    }
    Ok(())
}

fn push_text(bytes: &mut Vec<u8>, text: &[u8]) -> Result<(), Fail> {
    push_quantity(bytes, (text.len() % 128) as u32)?;
    bytes.extend_from_slice(text)?;
    Ok(())
}

impl Track {
    pub fn new(alloc: Global) -> Track {
        Track {
            bytes: Vec::new(alloc),
            tick: 0,
        }
    }

    /// Appends an event, whose text is shorter than 128 bytes.
    pub fn put(&mut self, tick: u32, what: &What<'_>) -> Result<(), Fail> {
        push_quantity(&mut self.bytes, tick.wrapping_sub(self.tick))?;
        self.tick = tick;
        match *what {
            What::Message(ref message) => push_message(&mut self.bytes, message),
            What::Sysex { lead, bytes } => {
                self.bytes.push(lead)?;
                push_text(&mut self.bytes, bytes)
            }
            What::Meta { kind, bytes } => {
                self.bytes.extend_from_slice(&[0xff, kind])?;
                push_text(&mut self.bytes, bytes)
            }
        }
    }

    /// Appends the chunk of the track, with its end.
    pub fn push_chunk(&mut self, file: &mut Vec<u8>) -> Result<(), Fail> {
        self.bytes.extend_from_slice(b"\x00\xff\x2f\x00")?;
        file.extend_from_slice(b"MTrk")?;
        for shift in [24u32, 16, 8, 0] {
            file.push((self.bytes.len().wrapping_shr(shift) & 0xff) as u8)?;
        }
        file.extend_from_slice(self.bytes.as_slice())?;
        Ok(())
    }
}
