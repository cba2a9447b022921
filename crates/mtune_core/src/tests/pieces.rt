//! Files from messages by their ticks, and calls on them.
use super::{file, push_chunk};
use crate::{Outcome, run};
use mtune_files::MemFiles;
use std::alloc::Global;
use std::process::Abort;
use std::test::Fail;

pub const J12: &str = "j12\n12\n16/15\n9/8\n6/5\n5/4\n4/3\n45/32\n3/2\n8/5\n5/3\n9/5\n15/8\n2/1\n";

/// What is said of key 69 in twelve equal steps on bend and MPE, and of the whole where no key is off.
pub const KEY_69: &str = "key 69 to 69 bend 0 error 0.000 to 0.000";

pub const EXACT: &str = "error 0.000 to 0.000";

/// What stands in a track. Channels count from 0.
#[derive(Clone, Copy)]
pub enum Piece<'a> {
    /// A message, or a meta or system exclusive event as in a file, at a tick.
    At(u32, &'a [u8]),
    /// The bend sensitivity of 12 semitones on a channel, at a tick.
    Setup(u32, u8),
    /// A registered parameter of high byte 0 on a channel, by its low byte, at a tick.
    Registered(u32, u8, u8, u8),
    /// The end of the track, where that isn't at the tick of the piece before it.
    End(u32),
}

pub use Piece::{At, End, Registered, Setup};

/// A track as far as it is written.
#[derive(Drop)]
struct Track {
    bytes: Vec<u8>,
    running: u8,
    tick: u32,
}

impl Track {
    /// Appends a message, below 16,384 ticks behind the one before it, less a status that runs on.
    fn push(&mut self, tick: u32, message: &[u8]) -> Result<(), Fail> {
        let delta = tick.saturating_sub(self.tick);
        self.tick = tick;
        if delta > 127 {
            self.bytes.push(0x80 | (delta / 128 % 128) as u8)?;
        }
        self.bytes.push((delta % 128) as u8)?;
        if let [status, data @ ..] = message {
            if *status != self.running {
                self.bytes.push(*status)?;
            }
            self.bytes.extend_from_slice(data)?;
            self.running = if *status < 0xf0 { *status } else { 0 };
        }
        Ok(())
    }

    fn push_registered(&mut self, tick: u32, channel: u8, low: u8, value: u8) -> Result<(), Fail> {
        for (controller, value) in [(101, 0), (100, low), (6, value), (101, 127), (100, 127)] {
            self.push(tick, &[0xb0 | channel, controller, value])?;
        }
        Ok(())
    }

    fn put(&mut self, piece: &Piece<'_>) -> Result<(), Fail> {
        match piece {
            At(tick, message) => self.push(*tick, message),
            Setup(tick, channel) => self.push_registered(*tick, *channel, 0, 12),
            Registered(tick, channel, low, value) => {
                self.push_registered(*tick, *channel, *low, *value)
            }
            End(tick) => self.push(*tick, b"\xff\x2f\x00"),
        }
    }
}

/// The content of a track with pieces.
fn content_of(alloc: Global, pieces: &[Piece<'_>]) -> Result<Vec<u8>, Fail> {
    let mut track = Track {
        bytes: Vec::new(alloc),
        running: 0,
        tick: 0,
    };
    for piece in pieces {
        track.put(piece)?;
    }
    if !matches!(pieces.last(), Some(End(_))) {
        let tick = track.tick;
        track.put(&End(tick))?;
    }
    Ok(track.bytes)
}

/// A file of format 0 with one track, or of format 1.
pub fn file_of(alloc: Global, tracks: &[&[Piece<'_>]]) -> Result<Vec<u8>, Fail> {
    let count = (tracks.len() % 256) as u8;
    let mut bytes = file(alloc, u8::from(count > 1), count, &[])?;
    for pieces in tracks {
        push_chunk(&mut bytes, content_of(alloc, pieces)?.as_slice())?;
    }
    Ok(bytes)
}

/// The text of some lines.
pub fn text(alloc: Global, lines: &[&str]) -> Result<Vec<u8>, Fail> {
    let mut text = Vec::new(alloc);
    for line in lines {
        text.extend_from_slice(line.as_bytes())?;
        text.push(b'\n')?;
    }
    Ok(text)
}

/// The words of a command with some more between them.
fn words<'a>(alloc: Global, some: &[&'a str], more: &[&'a str]) -> Result<Vec<&'a str>, Fail> {
    let mut words = Vec::new(alloc);
    words.extend_from_slice(&["--scale", "s.scl"])?;
    words.extend_from_slice(some)?;
    words.extend_from_slice(more)?;
    words.extend_from_slice(&["--out", "out.mid", "in.mid"])?;
    Ok(words)
}

/// A call on a file: the scale, the words besides it and the names, and what is in each track.
#[derive(Clone, Copy)]
pub struct Call<'a> {
    pub scale: &'a str,
    pub words: &'a [&'a str],
    pub tracks: &'a [&'a [Piece<'a>]],
}

impl Call<'_> {
    /// Makes the call over new files, with some words more.
    fn run(&self, alloc: Global, more: &[&str]) -> Result<(MemFiles, Outcome), Fail> {
        let mut files = MemFiles::new(alloc);
        files.add("s.scl", self.scale.as_bytes())?;
        files.add("in.mid", file_of(alloc, self.tracks)?.as_slice())?;
        let words = words(alloc, self.words, more)?;
        let outcome = run(alloc, words.as_slice(), &mut files);
        Ok((files, outcome))
    }

    /// Checks that it is refused, with what is said.
    pub fn is_refused(&self, rt: &impl Abort, alloc: Global, said: &str) -> Result<Outcome, Fail> {
        let (files, outcome) = self.run(alloc, &[])?;
        assert_eq!(rt; outcome.status, 2);
        assert!(rt; files.text() == text(alloc, &[said])?.as_slice());
        assert!(rt; files.content("out.mid").is_none());
        Ok(outcome)
    }
}

/// A call, what is in each track of its output, and what is said.
#[derive(Clone, Copy)]
pub struct Row<'a> {
    pub call: Call<'a>,
    pub output: &'a [&'a [Piece<'a>]],
    pub said: &'a [&'a str],
}

impl Row<'_> {
    fn gives(&self, rt: &impl Abort, alloc: Global, more: &[&str]) -> Result<(), Fail> {
        let (files, outcome) = self.call.run(alloc, more)?;
        assert!(rt; outcome.fault.is_none());
        let wanted = file_of(alloc, self.output)?;
        assert!(rt; files.content("out.mid") == Some(wanted.as_slice()));
        assert!(rt; files.text() == text(alloc, self.said)?.as_slice());
        Ok(())
    }

    /// Whether notes may rest and no tail is asked for.
    fn may_have_a_tail(&self) -> bool {
        for word in self.call.words {
            if *word == "--route" || *word == "--tail" {
                return false;
            }
        }
        true
    }

    /// Checks the row. A tail of no ticks changes nothing.
    fn check(&self, rt: &impl Abort, alloc: Global) -> Result<(), Fail> {
        self.gives(rt, alloc, &[])?;
        if self.may_have_a_tail() {
            self.gives(rt, alloc, &["--tail", "0"])?;
        }
        Ok(())
    }
}

pub fn check_rows(rt: &impl Abort, alloc: Global, rows: &[Row<'_>]) -> Result<(), Fail> {
    for row in rows {
        row.check(rt, alloc)?;
    }
    Ok(())
}
